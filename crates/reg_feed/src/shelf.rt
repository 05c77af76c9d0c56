// Two copies under their own rule, with what the end of their writer waits by.
ghost use Rattle.std.specs.Prelude.{◌≡◌, ◌<◌, ◌^◌, ◌++◌, ◌∷◌, List, [], drop, fold, IfOk, MatchResult};

use core::mem::replace_with;
use crossbeam_utils::rule::{Protocol, Unruled};
use left_right::Absorb;
use left_right::reader::Reader;
use left_right::writer::Writer;
use std::alloc::{AllocError, Global};
use std::sync::Wait;

/// The writer of the two copies. Its drop waits for readers.
pub struct Shelf<S: Absorb<O> + Protocol<S, ()> + Drop, O: Drop, R: Wait + Drop> {
    writer: Writer<S, O, (), S>,
    rt: R,
}

impl<S: Absorb<O> + Protocol<S, ()> + Drop, O: Drop, R: Wait + Drop> Shelf<S, O, R> {
    pub(crate) fn new(
        alloc: Global,
        rt: R,
        first: S,
        second: S,
        readers: usize,
    ) -> Result<Shelf<S, O, R>, AllocError>
        requires readers { (0 < readers) × (readers < 2 ^ 32) }
        requires alike { S.state first ≡ S.state second }
        requires rule { S.holds first (S.first ∷ []) }
        ensures { IfOk result (λ s. (s.writer.desk.shown.value ≡ first) × (drop s.writer.behind s.writer.log.items ≡ [])) }
    {
        let writer = Writer::new(alloc, first, second, readers)?;
        Ok(Shelf { writer, rt })
    }

    /// Returns the copy that readers are shown.
    pub(crate) fn published(&self) -> &S
        ensures { result.now ≡ self.now.writer.desk.shown.value }
    {
        self.writer.published()
    }

    /// Appends an operation to the pending ones. If memory is refused, it is given back.
    pub(crate) fn append(&mut self, op: O) -> Result<(), O>
        ensures published { self.new.writer.desk.shown.value ≡ self.old.writer.desk.shown.value }
        ensures pending { MatchResult result
            (λ _. drop self.new.writer.behind self.new.writer.log.items ≡ drop self.old.writer.behind self.old.writer.log.items ++ op ∷ [])
            (λ x. (x ≡ op) × (drop self.new.writer.behind self.new.writer.log.items ≡ drop self.old.writer.behind self.old.writer.log.items)) }
    {
        self.writer.append(op)
    }

    /// Shows readers all pending operations. The only error is out of memory; readers then see what
    /// they saw.
    pub(crate) fn publish(&mut self) -> Result<(), AllocError>
        requires { (next : S) (views : List (Unit {0}))
            → S.state next ≡ fold S.applied (S.state self.old.writer.desk.shown.value) (drop self.old.writer.behind self.old.writer.log.items)
            → S.holds next views }
        ensures values { MatchResult result
            (λ _. (S.state self.new.writer.desk.shown.value ≡ fold S.applied (S.state self.old.writer.desk.shown.value) (drop self.old.writer.behind self.old.writer.log.items)) × (drop self.new.writer.behind self.new.writer.log.items ≡ []))
            (λ _. (self.new.writer.desk.shown.value ≡ self.old.writer.desk.shown.value) × (drop self.new.writer.behind self.new.writer.log.items ≡ drop self.old.writer.behind self.old.writer.log.items)) }
    {
        replace_with(&mut self.writer, &self.rt, |writer, rt| {
            writer.publish_as::<Unruled, R>(rt)
        })
    }

    /// Shows readers all pending operations, waiting for memory if needed.
    pub(crate) fn publish_at_last(&mut self)
        requires { (next : S) (views : List (Unit {0}))
            → S.state next ≡ fold S.applied (S.state self.old.writer.desk.shown.value) (drop self.old.writer.behind self.old.writer.log.items)
            → S.holds next views }
        ensures { (S.state self.new.writer.desk.shown.value ≡ fold S.applied (S.state self.old.writer.desk.shown.value) (drop self.old.writer.behind self.old.writer.log.items)) × (drop self.new.writer.behind self.new.writer.log.items ≡ []) }
    {
        for _ in self.rt.forever() {
            let shown = replace_with(&mut self.writer, &self.rt, |writer, rt| {
                writer.publish_as::<Unruled, R>(rt)
            });
            if shown.is_ok() {
                return;
            }
        }
        unreachable!()
    }

    /// Makes a reader. Fails if each place for one is found in use.
    pub(crate) fn reader(&self) -> Result<Reader<S, (), S>, AllocError>
        requires { (x : S) (views more : List (Unit {0})) → S.holds x views → S.holds x more }
    {
        self.writer.factory().reader()
    }
}

impl<S: Absorb<O> + Protocol<S, ()> + Drop, O: Drop, R: Wait + Drop> Drop for Shelf<S, O, R> {
    fn drop(self) {
        let Self { writer, rt } = self;
        drop(writer.take(&rt));
    }
}
