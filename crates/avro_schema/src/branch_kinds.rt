// The kind of a union's branch, once it is read.
ghost use Rattle.std.specs.Prelude.{◌≡◌};

use crate::builder::Builder;
use crate::kinds::BranchKind;
use crate::{Node, NodeId};

impl Builder {
    ghost use Rattle.avro_schema.specs.Building.{nodes_of};
    ghost use Rattle.avro_schema.specs.Branches.{branch_kind};

    /// Returns the kind of a branch that was read after `before` nodes were opened. An id below
    /// `before` is a use of a named type, which may still be open.
    pub(crate) fn branch_kind(&self, branch: NodeId, before: usize) -> BranchKind
        ensures { result ≡ branch_kind before (nodes_of self.now) branch }
    {
        if branch.index < before {
            return BranchKind::Named(branch.index);
        }
        match self.nodes.get(branch.index) {
            Some(Node::Primitive(primitive)) => BranchKind::Primitive(*primitive),
            Some(Node::Array(_)) => BranchKind::Array,
            Some(Node::Map(_)) => BranchKind::Map,
            Some(Node::Union(_)) => BranchKind::Union,
            _ => BranchKind::Named(branch.index),
        }
    }
}
