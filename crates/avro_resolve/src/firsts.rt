// What came first with each type.
ghost use Rattle.std.specs.Prelude.{◌≡◌, None, slice_get, replicate, IfOk};
ghost use Rattle.avro_resolve.specs.Seen.{known, with_first};

use std::alloc::{AllocError, Global};

/// For each type of one schema, the first type of the other schema that it was paired with.
#[derive(Drop)]
pub struct Firsts {
    pub of: Vec<Option<usize>>,
}

/// What [`Firsts`] knew of two types before they were joined.
#[derive(Clone, Copy)]
pub enum Known {
    /// The first type had no partner yet.
    New,
    /// The first type's first partner is the second.
    Same,
    /// The first type's first partner is another, or its number is out of range.
    Other,
}

impl Firsts {
    /// Makes one of `many` types that have no partners. The only error is out of memory.
    pub fn none(alloc: Global, many: usize) -> Result<Firsts, AllocError>
        ensures { IfOk result (λ f. f.of.items ≡ replicate many None) }
    {
        Ok(Firsts {
            of: vec![in alloc; None; many]?,
        })
    }

    /// Returns the first partner of a type. The outer `None`: the number is out of range.
    fn first_with(&self, i: usize) -> Option<Option<usize>>
        ensures { result ≡ slice_get self.now.of.items i }
    {
        self.of.get(i).copied()
    }

    /// Joins types `i` and `j`, and returns what was known before. `j` is kept if it is the first.
    pub fn join(&mut self, i: usize, j: usize) -> Known
        ensures known { result ≡ known (slice_get self.old.of.items i) j }
        ensures firsts { self.new.of.items ≡ with_first (known (slice_get self.old.of.items i) j) i j self.old.of.items }
    {
        match self.first_with(i) {
            None => Known::Other,
            Some(None) => {
                self.of[i] = Some(j);
                Known::New
            }
            Some(Some(first)) => {
                if first == j {
                    Known::Same
                } else {
                    Known::Other
                }
            }
        }
    }
}
