// A file whose bytes are replaced whole.
ghost use Rattle.std.specs.Prelude.{◌≡◌, ◌⊎◌, List, ℕ, IfErr, OnOk};
ghost use Rattle.reg_journal.specs.Disk.{Only, Elapses};
ghost use Rattle.reg_journal.specs.Renewal.{LeavesDisk};

use crate::disk::{Disk, DiskError};
use std::alloc::{AllocError, AllocFailed};

/// An error of [`Renewable::renew`].
#[derive(Clone, Copy, Debug, PartialEq, Eq)]
pub enum RenewError {
    /// The new file wasn't finished. The old one is as it was.
    Kept(DiskError),
    /// The new file may be in place or not. Nothing is known of the disk any more.
    Lost,
}

impl From<AllocError> for RenewError {
    ghost use Rattle.std.specs.Prelude.{◌≡◌};
    ghost use Rattle.reg_journal.specs.Renewal.{no_memory};

    ghost from_gives = { λ _ e. e ≡ no_memory };

    fn from(_refused: AllocError) -> RenewError {
        RenewError::Kept(DiskError::OutOfMemory)
    }
}

/// A disk whose file can be replaced by a new one as a whole.
pub trait Renewable: Disk {
    ghost use Rattle.reg_journal.specs.declared.renewal.RenewError.{RenewError};

    /// The disk before a renewal, the error that it returned, and the disk after, like `faults` of
    /// a disk.
    ghost renewals: { Self → RenewError → Self → Type 0 } = { λ _ _ _. Unit {0} };

    /// Replaces the file by a new one of these bytes. After `Ok` a crash leaves those bytes; a
    /// crash during the call leaves what it might have left before, or those bytes.
    fn renew(&mut self, bytes: &[u8]) -> Result<(), RenewError>
        ensures seen { Self.known self.old → OnOk result (Self.known self.new × (Self.seen self.new ≡ bytes.now)) }
        ensures durable { Self.known self.old → OnOk result (Only bytes.now (Self.may_leave self.new)) }
        ensures crash { Self.known self.old → (c : List ℕ) → Self.may_leave self.new c → Self.may_leave self.old c ⊎ (c ≡ bytes.now) }
        ensures kept { Self.known self.old → IfErr result (LeavesDisk Self.known Self.seen Self.may_leave self.old self.new) }
        ensures time { Self.known self.old → Elapses (Self.moment self.old) (Self.moment self.new) (Self.left_since self.old) (Self.left_since self.new) (Self.may_leave self.new) }
        ensures fault { IfErr result (λ e. renewals self.old e self.new) };
}
