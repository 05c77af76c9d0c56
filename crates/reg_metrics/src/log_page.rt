// What the page says of a log.
use crate::families::{by_label, counter, gauge, series};
use crate::meters::{AdapterMeters, BatchMeters, FileMeters, LineMeters};
use base_text::Listed;
use exposition::{Family, Fixed, Name, Number, Samples};
use std::alloc::{AllocError, Global};

/// Appends the results of the batches that the log was asked to keep. The only error is out of
/// memory.
pub fn batch_families(
    alloc: Global,
    meters: &BatchMeters,
    out: &mut Vec<Family>,
) -> Result<(), AllocError> {
    let outcomes = [
        ("kept", meters.kept.count()),
        ("declined", meters.declined.count()),
        ("lost", meters.lost.count()),
        ("unknown", meters.unknown.count()),
        ("overtaken", meters.overtaken.count()),
    ];
    out.push(Family {
        name: Name::of("registry_log_batches_total"),
        help: Fixed::of(
            "Batches that the log was asked to keep, by what became of them. Lost: it can't be said whether they are kept, and nothing is taken \
             any more. Unknown: it can't be known now whether they stand in the log; those that do are told later, like others' batches.",
        ),
        samples: Samples::Counter(by_label(alloc, "outcome", &outcomes)?),
    })?;
    let mut all = Vec::new(alloc);
    all.push(series(alloc, Listed::from(Vec::new(alloc)), &meters.seconds)?)?;
    out.push(Family {
        name: Name::of("registry_log_append_duration_seconds"),
        help: Fixed::of(
            "Seconds from where a batch is given to the log to where it is kept there.",
        ),
        samples: Samples::Histogram(Listed::from(all)),
    })?;
    Ok(())
}

/// Appends the numbers of a log's file. The only error is out of memory.
pub fn file_families(
    alloc: Global,
    meters: &FileMeters,
    out: &mut Vec<Family>,
) -> Result<(), AllocError> {
    out.push(counter(
        alloc,
        Name::of("registry_log_records_total"),
        "Records that were appended to the log since the start.",
        Number::whole(meters.records.count()),
    )?)?;
    out.push(gauge(
        alloc,
        Name::of("registry_log_lines"),
        "Lines of the log's file, of 1,000,000 at most.",
        Number::whole(meters.lines.value()),
    )?)?;
    out.push(gauge(
        alloc,
        Name::of("registry_log_size_bytes"),
        "Bytes of the log's file.",
        Number::whole(meters.bytes.value()),
    )?)?;
    out.push(gauge(
        alloc,
        Name::of("registry_log_next_offset"),
        "The offset of the next record.",
        Number::whole(meters.next.value()),
    )?)?;
    compaction_families(alloc, meters, out)
}

fn compaction_families(
    alloc: Global,
    meters: &FileMeters,
    out: &mut Vec<Family>,
) -> Result<(), AllocError> {
    let outcomes = [
        ("done", meters.renewed.count()),
        ("failed", meters.not_renewed.count()),
    ];
    out.push(Family {
        name: Name::of("registry_log_compactions_total"),
        help: Fixed::of(
            "Compacted files that took the place of the log's file, and those that didn't.",
        ),
        samples: Samples::Counter(by_label(alloc, "outcome", &outcomes)?),
    })?;
    out.push(counter(
        alloc,
        Name::of("registry_log_compaction_seconds_total"),
        "Seconds that it took to write them and to put them in place.",
        Number::seconds(meters.renewal.count()),
    )?)?;
    out.push(gauge(
        alloc,
        Name::of("registry_log_compaction_failed"),
        "Whether the log's file couldn't be compacted when that was tried last: 1 where that is so.",
        Number::whole(u64::from(meters.is_uncompacted.is_set())),
    )?)?;
    Ok(())
}

/// Appends the numbers of a followed log's lines. The only error is out of memory.
pub fn line_families(
    alloc: Global,
    meters: &LineMeters,
    out: &mut Vec<Family>,
) -> Result<(), AllocError> {
    out.push(counter(
        alloc,
        Name::of("registry_follow_lines_total"),
        "Lines of the log that came.",
        Number::whole(meters.lines.count()),
    )?)?;
    out.push(gauge(
        alloc,
        Name::of("registry_follow_last_line_timestamp_seconds"),
        "When the last line came, in seconds since 1970; when the process began, where none came.",
        Number::seconds(meters.last.value()),
    )?)?;
    Ok(())
}

/// Appends the numbers of a log that other processes write too. The only error is out of memory.
pub fn adapter_families(
    alloc: Global,
    meters: &AdapterMeters,
    out: &mut Vec<Family>,
) -> Result<(), AllocError> {
    let outcomes = [
        ("kept", meters.kept.count()),
        ("behind", meters.behind.count()),
        ("declined", meters.declined.count()),
    ];
    out.push(Family {
        name: Name::of("registry_join_checks_total"),
        help: Fixed::of(
            "Questions to the store whether anything came, by what the adapter answered.",
        ),
        samples: Samples::Counter(by_label(alloc, "outcome", &outcomes)?),
    })?;
    out.push(gauge(
        alloc,
        Name::of("registry_join_last_check_timestamp_seconds"),
        "When the store answered one last, in seconds since 1970; when the process began, where it answered none.",
        Number::seconds(meters.last.value()),
    )?)?;
    Ok(())
}
