// Trails: the hops from the roots to a clash.
ghost use Rattle.std.specs.Prelude.{◌≡◌};

use base_text::{Listed, Text};
use std::alloc::AllocError;
use std::fmt;

/// A step from a pair of types to another pair that has to resolve for it.
#[derive(Debug, Drop, PartialEq, Eq)]
pub enum Hop {
    /// Into the reader's field of that name and the writer's field that it is paired with.
    Field(Text),
    /// Into the items of two arrays.
    Items,
    /// Into the values of two maps.
    Values,
    /// To a branch of the writer's union, counted from 0.
    Writer(usize),
    /// To a branch of the reader's union, counted from 0.
    Reader(usize),
}

/// The kind of a clash: why a reader's type can't read a writer's.
#[derive(Debug, Drop, PartialEq, Eq)]
pub enum ClashKind {
    /// No branch of the reader's union matches.
    MissingUnionBranch,
    /// The names of two named types don't match.
    NameMismatch,
    /// The reader's field of that name has no partner among the writer's fields and no default.
    ReaderFieldMissingDefaultValue(Text),
    /// The reader's enum lacks that symbol and has no default.
    MissingEnumSymbols(Text),
    /// Two fixed types differ in size.
    FixedSizeMismatch,
    /// The types are of different kinds, or primitives of which the writer's isn't promoted to the
    /// reader's.
    TypeMismatch,
}

/// A trail: the hops from the pair of roots to a pair that clashes, and the kind of the clash.
#[derive(Debug, Drop)]
pub struct Trail {
    pub hops: Listed<Hop>,
    pub kind: ClashKind,
}

impl Clone for Hop {
    ghost is_clone = { λ hop copy. copy ≡ hop };

    fn clone(&self) -> Result<Hop, AllocError> {
        match self {
            Hop::Field(name) => Ok(Hop::Field(name.clone()?)),
            Hop::Items => Ok(Hop::Items),
            Hop::Values => Ok(Hop::Values),
            Hop::Writer(k) => Ok(Hop::Writer(*k)),
            Hop::Reader(k) => Ok(Hop::Reader(*k)),
        }
    }
}

impl Clone for ClashKind {
    ghost is_clone = { λ kind copy. copy ≡ kind };

    fn clone(&self) -> Result<ClashKind, AllocError> {
        match self {
            ClashKind::MissingUnionBranch => Ok(ClashKind::MissingUnionBranch),
            ClashKind::NameMismatch => Ok(ClashKind::NameMismatch),
            ClashKind::ReaderFieldMissingDefaultValue(name) => {
                Ok(ClashKind::ReaderFieldMissingDefaultValue(name.clone()?))
            }
            ClashKind::MissingEnumSymbols(symbol) => {
                Ok(ClashKind::MissingEnumSymbols(symbol.clone()?))
            }
            ClashKind::FixedSizeMismatch => Ok(ClashKind::FixedSizeMismatch),
            ClashKind::TypeMismatch => Ok(ClashKind::TypeMismatch),
        }
    }
}

impl Clone for Trail {
    ghost is_clone = { λ trail copy. copy ≡ trail };

    fn clone(&self) -> Result<Trail, AllocError> {
        let hops = self.hops.clone()?;
        let kind = self.kind.clone()?;
        Ok(Trail { hops, kind })
    }
}

impl fmt::Display for Hop {
    ghost use Rattle.std.specs.Prelude.{Some};
    ghost use Rattle.avro_resolve.specs.Texts.{hop_text};

    ghost output = { λ hop. Some (hop_text hop) };

    fn fmt<W: fmt::Write>(&self, f: &mut fmt::Formatter<W>) -> fmt::Result {
        match self {
            Hop::Field(name) => write!(f, "field:{}", name.as_str()),
            Hop::Items => f.write_str("items"),
            Hop::Values => f.write_str("values"),
            Hop::Writer(k) => write!(f, "writer:{k}"),
            Hop::Reader(k) => write!(f, "reader:{k}"),
        }
    }
}

impl fmt::Display for ClashKind {
    ghost use Rattle.std.specs.Prelude.{Some};
    ghost use Rattle.avro_resolve.specs.Texts.{clash_text};

    ghost output = { λ kind. Some (clash_text kind) };

    fn fmt<W: fmt::Write>(&self, f: &mut fmt::Formatter<W>) -> fmt::Result {
        match self {
            ClashKind::MissingUnionBranch => f.write_str("MISSING_UNION_BRANCH"),
            ClashKind::NameMismatch => f.write_str("NAME_MISMATCH"),
            ClashKind::ReaderFieldMissingDefaultValue(name) => {
                write!(f, "READER_FIELD_MISSING_DEFAULT_VALUE {}", name.as_str())
            }
            ClashKind::MissingEnumSymbols(symbol) => {
                write!(f, "MISSING_ENUM_SYMBOLS {}", symbol.as_str())
            }
            ClashKind::FixedSizeMismatch => f.write_str("FIXED_SIZE_MISMATCH"),
            ClashKind::TypeMismatch => f.write_str("TYPE_MISMATCH"),
        }
    }
}

/// Writes the hops, each after a `/`; without hops, a `/`. The kind isn't written.
impl fmt::Display for Trail {
    ghost use Rattle.std.specs.Prelude.{Some};
    ghost use Rattle.avro_resolve.specs.Texts.{trail_text};

    ghost output = { λ trail. Some (trail_text trail.hops) };

    fn fmt<W: fmt::Write>(&self, f: &mut fmt::Formatter<W>) -> fmt::Result {
        let hops = self.hops.as_slice();
        if hops.is_empty() {
            return f.write_str("/");
        }
        for hop in hops {
            write!(f, "/{hop}")?;
        }
        Ok(())
    }
}
