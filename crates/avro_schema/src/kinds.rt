// The kinds of branches that a union may have once.
ghost use Rattle.std.specs.Prelude.{◌≡◌, List, [], ◌∷◌, ◌++◌, IfOk};

use crate::Primitive;
use std::alloc::{AllocError, Global};
use std::collections::BTreeSet;

/// A kind of branch that a union may have once (Avro 1.11, "Unions"). A use of a name has the kind
/// of the type that it names.
#[derive(Clone, Copy)]
pub(crate) enum BranchKind {
    Primitive(Primitive),
    Array,
    Map,
    /// The record, enum or fixed type that is the node of that index.
    Named(usize),
    Union,
}

/// The kinds of the branches read so far.
#[derive(Drop)]
pub(crate) struct Kinds {
    primitives: Vec<Primitive>,
    has_array: bool,
    has_map: bool,
    named: BTreeSet<usize>,
}

impl Kinds {
    ghost use Rattle.avro_schema.specs.declared.kinds.BranchKind.{BranchKind};
    ghost use Rattle.avro_schema.specs.Branches.{HoldsKinds, may_stand};

    pub(crate) fn new(alloc: Global) -> Kinds
        ensures { HoldsKinds result [] }
    {
        Kinds {
            primitives: Vec::new(alloc),
            has_array: false,
            has_map: false,
            named: BTreeSet::new(alloc),
        }
    }

    /// Adds a branch's kind and returns whether it is allowed beside those before it.
    pub(crate) fn add(&mut self, kind: BranchKind) -> Result<bool, AllocError>
        ensures { IfOk result (λ fits. (ks : List BranchKind) → HoldsKinds self.old ks
            → HoldsKinds self.new (ks ++ kind ∷ []) × (fits ≡ may_stand kind ks)) }
    {
        match kind {
            BranchKind::Primitive(primitive) => {
                let fits = !self.primitives.contains(&primitive);
                self.primitives.push(primitive)?;
                Ok(fits)
            }
            BranchKind::Array => {
                let fits = !self.has_array;
                self.has_array = true;
                Ok(fits)
            }
            BranchKind::Map => {
                let fits = !self.has_map;
                self.has_map = true;
                Ok(fits)
            }
            BranchKind::Named(node) => Ok(self.named.insert(node)?),
            BranchKind::Union => Ok(false),
        }
    }
}
