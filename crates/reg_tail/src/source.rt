// A file that another process writes, as its reader sees it.
ghost use Rattle.std.specs.Prelude.{◌≡◌, ◌↔◌, List, ℕ, drop, IfOk, IsTrue, OnOk};
ghost use Rattle.reg_tail.specs.Source.{Stand};

use reg_journal::DiskError;
use std::alloc::Global;

/// A file under a name, as its reader sees it: another process appends to it, and may put another
/// file in its place. Its clauses hold for a file that is `known`.
///
/// They assume three things of the writer: lines before the file's empty line never change; a read
/// returns the file, up to its empty line, as it was at one moment; and nothing is appended to a
/// file once another one has its name. A `Journal` writes so: the lines of a batch are behind the
/// empty line until one byte in that line's place opens them.
pub trait Source {
    /// Says whether the clauses hold for this file: its writer keeps its lines, and no sync of it
    /// has failed since the machine started. For a file of the system they don't: no contract can
    /// say what it holds.
    ghost known: { Self → Type 0 };

    /// The bytes of the file when it was read last.
    ghost seen: { Self → List ℕ };

    /// The contents that a crash at this moment may leave.
    ghost may_leave: { Self → List ℕ → Type 0 };

    /// The bytes that it has once another file takes its name, from then on.
    ghost left: { Self → List ℕ };

    /// Another file was found under its name.
    ghost is_left: { Self → Type 0 };

    /// Reads the file from a place, in bytes, to its end. Returns none if the file ends before that
    /// place.
    fn read_from(&mut self, alloc: Global, place: usize) -> Result<Vec<u8>, DiskError>
        ensures bytes { known self.old → IfOk result (λ bytes. bytes.items ≡ drop place (seen self.new)) }
        ensures stand { known self.old → known self.new × Stand (seen self.old) (seen self.new) }
        ensures left { known self.old → left self.new ≡ left self.old }
        ensures last { known self.old → is_left self.old → OnOk result (seen self.new ≡ left self.old) };

    /// Syncs the file: after `Ok`, a crash leaves a file that has the lines which were read.
    fn sync(&mut self) -> Result<(), DiskError>
        ensures synced { known self.old → OnOk result ((c : List ℕ) → may_leave self.new c → Stand (seen self.old) c) }
        ensures seen { known self.old → OnOk result (known self.new × (seen self.new ≡ seen self.old)) }
        ensures left { known self.old → OnOk result (left self.new ≡ left self.old) };

    /// Returns whether another file has its name now.
    fn is_replaced(&mut self) -> Result<bool, DiskError>
        ensures seen { known self.old → known self.new × (seen self.new ≡ seen self.old) }
        ensures left { known self.old → left self.new ≡ left self.old }
        ensures found { known self.old → IfOk result (λ is. IsTrue is ↔ is_left self.new) };

    /// Opens the file that has the name now, and goes on with it.
    fn reopen(&mut self) -> Result<(), DiskError>
        ensures { known self.old → OnOk result (known self.new) };

    /// A file in which the lines stand that were read may be left.
    ghost seen_counts: { (file : Self) → known file → (c : List ℕ) × may_leave file c × Stand (seen file) c };
}
