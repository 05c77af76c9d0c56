// A log with the keep at its end.
ghost use Rattle.std.specs.Prelude.{◌≡◌};

use crate::keep::Keep;
use crate::telling::{Tell, Told};
use reg_records::Log;
use std::marker::Model;

/// A log with the keep at its end. They can't be taken apart: a pen is opened over both.
#[derive(Drop)]
pub struct KeptLog<K: Keep + Drop> {
    pub(crate) log: Log,
    pub(crate) keep: K,
}

impl<K: Keep + Drop> Model for KeptLog<K> {
    ghost use Rattle.reg_pen.specs.KeptState.{KeptState};

    ghost Value = { KeptState K };

    ghost view = { λ k. record { log = k.log; keep = k.keep } };

    ghost invariant = { λ k. K.stands k.keep k.log };
}

impl<K: Keep + Drop> KeptLog<K> {
    /// Puts a log and a keep together. The keep has to be at the log's end.
    pub fn new(log: Log, keep: K) -> KeptLog<K>
        requires { K.stands keep log }
        ensures { result ≡ record { log = log; keep = keep } }
    {
        KeptLog { log, keep }
    }

    /// Returns the log.
    pub fn log(&self) -> &Log
        ensures { result.now ≡ self.now.log }
    {
        &self.log
    }

    /// Returns the keep.
    pub fn keep(&self) -> &K
        ensures same { result.now ≡ self.now.keep }
        ensures stands { K.stands self.now.keep self.now.log }
    {
        &self.keep
    }

    /// Returns the same log and keep, with a `teller` that is told what becomes of each batch.
    pub fn telling<T: Tell<K> + Drop>(self, teller: T) -> KeptLog<Told<K, T>>
        ensures log { result.log ≡ self.log }
        ensures keep { result.keep.keep ≡ self.keep }
    {
        let KeptLog { log, keep } = self;
        KeptLog {
            log,
            keep: Told::new(keep, teller),
        }
    }
}
