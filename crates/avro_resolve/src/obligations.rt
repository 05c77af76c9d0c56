// Obligations: the pairs of types that have to resolve for another pair to resolve.

use crate::trail::Hop;
use avro_schema::NodeId;

/// A reader's type and a writer's type.
#[derive(Clone, Copy)]
pub struct Pair {
    pub reader: NodeId,
    pub writer: NodeId,
}

/// An obligation of a pair: another pair that has to resolve for it, and the hop that leads there.
#[derive(Drop)]
pub struct Obligation {
    pub hop: Hop,
    pub pair: Pair,
}
