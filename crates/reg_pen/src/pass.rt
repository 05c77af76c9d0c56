// The right to submit, with a count.
ghost use Rattle.std.specs.Prelude.{◌≡◌};
ghost use Rattle.reg_pen.specs.Pen.{counted};

use std::marker::PhantomData;

/// The right to submit commands to the pen of a feed. It counts the submits that it was used for.
#[derive(Drop)]
pub struct Pass<N> {
    pub(crate) submits: u64,
    of: PhantomData<N>,
}

impl<N> Pass<N> {
    pub(crate) fn new() -> Pass<N>
        ensures { result.submits ≡ 0 }
    {
        Pass {
            submits: 0,
            of: PhantomData,
        }
    }

    /// Returns how many submits it was used for, refused ones too; up to `u64::MAX`.
    pub fn submits(&self) -> u64
        ensures { result ≡ self.now.submits }
    {
        self.submits
    }

    pub(crate) fn count(&mut self)
        ensures { self.new.submits ≡ counted self.old.submits }
    {
        self.submits = self.submits.saturating_add(1);
    }
}
