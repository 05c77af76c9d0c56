// The laws of the format. What is proved here costs nothing at run time.
ghost use Rattle.exposition.specs.Reading.{LinesAreReadBack, PagesAreExpositions, PagesAreReadBack};
ghost use Rattle.exposition.specs.Rising.{BucketsRise};

/// States that lines with one text are the same lines.
pub fn lines_are_read_back()
    ensures { LinesAreReadBack }
{}

/// States that the text of each page is of the format.
pub fn pages_are_expositions()
    ensures { PagesAreExpositions }
{}

/// States that pages with one text are the same page.
pub fn pages_are_read_back()
    ensures { PagesAreReadBack }
{}

/// States that the buckets of a histogram rise, from 0 to its count.
pub fn buckets_rise()
    ensures { BucketsRise }
{}
