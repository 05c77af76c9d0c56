// Versions as requests name them.

/// A version of a subject, as requests name it.
#[derive(Clone, Copy, Debug, PartialEq, Eq)]
pub enum VersionRef {
    /// The greatest version among those that are looked at.
    Latest,
    /// The version with this number, from 1 to 2,147,483,647.
    Number(u32),
}
