// The entries of a registry.
use base_text::Text;

/// An entry of a registry: a version of a subject, with its id and its schema.
#[derive(Debug, Drop, Clone, PartialEq, Eq)]
pub struct Entry {
    pub subject: Text,
    /// From 1 to 2,147,483,647.
    pub version: u32,
    /// The id of its schema, from 1 to 2,147,483,647.
    pub id: u32,
    /// The schema's text, as the record holds it.
    pub text: Text,
    /// The schema's normal text: two schemas are the same exactly if these are equal.
    pub normal: Text,
    /// The offset of its record, from 0 to 9,223,372,036,854,775,807.
    pub offset: u64,
    /// Whether it is soft-deleted: by its own value, or by a later delete of its subject.
    pub soft: bool,
}

/// A version, with whether it is soft-deleted.
#[derive(Clone, Copy, Debug)]
pub struct Flag {
    pub version: u32,
    pub soft: bool,
}
