// A keep that reports what becomes of its batches.
ghost use Rattle.std.specs.Prelude.{◌≡◌};

use crate::keep::{Keep, Kept};
use reg_records::Record;

/// What is told what becomes of batches.
pub trait Tell<K> {
    /// Called after each batch with the keep, the batch, and what became of it.
    fn tell(&mut self, keep: &K, batch: &[Record], kept: Kept);
}

/// A keep that does what another one does, and tells `teller` the result.
#[derive(Drop)]
pub struct Told<K: Keep + Drop, T: Tell<K> + Drop> {
    pub(crate) keep: K,
    pub(crate) teller: T,
}

impl<K: Keep + Drop, T: Tell<K> + Drop> Told<K, T> {
    pub(crate) fn new(keep: K, teller: T) -> Told<K, T>
        ensures { result.keep ≡ keep }
    {
        Told { keep, teller }
    }
}

impl<K: Keep + Drop, T: Tell<K> + Drop> Keep for Told<K, T> {
    ghost keeps = { λ old batch kept new. K.keeps old.keep batch kept new.keep };

    ghost stands = { λ told log. K.stands told.keep log };

    fn keep(&mut self, batch: &[Record]) -> Kept {
        let kept = self.keep.keep(batch);
        self.teller.tell(&self.keep, batch, kept);
        kept
    }
}
