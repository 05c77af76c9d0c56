// What was read of a head, in the form in which a connection keeps it.
ghost use Rattle.std.specs.Prelude.{◌≡◌};
ghost use Rattle.std.specs.Borrow.{ftrue};

use crate::head_read::HeadRead;
use reg_refusals::Refusal;
use std::marker::Model;

/// What was read of a head, and is kept. That it may go to another thread is proved here once, so
/// that the proof for a type that holds a connection needn't go through every refusal.
pub(crate) struct KeptRead {
    pub(crate) read: Result<HeadRead, Refusal>,
}

// It owns nothing beside its field. A struct that says what it owns is `Send` by a proof of its own.
impl Model for KeptRead {
    ghost also_owns = { λ _. ftrue };
}

unsafe impl Send for KeptRead {}

impl KeptRead {
    pub(crate) fn of(read: Result<HeadRead, Refusal>) -> KeptRead
        ensures { result.read ≡ read }
    {
        KeptRead { read }
    }

    pub(crate) fn into_read(self) -> Result<HeadRead, Refusal>
        ensures { result ≡ self.read }
    {
        let KeptRead { read } = self;
        read
    }
}

impl Drop for KeptRead {
    fn drop(self) {
        let _read = self.into_read();
    }
}
