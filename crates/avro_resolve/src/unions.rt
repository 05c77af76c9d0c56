// Indexes of the reader's unions, which find the first branch that matches without a linear search.
ghost use Rattle.std.specs.Prelude.{◌≡◌, ◌≢◌, ◌<◌, ◌++◌, [], ◌∷◌, List, None, Some, All, cond, length, find, slice_get, IfOk, IfSome, OnOk};
ghost use Rattle.std.specs.BTreeMap.{get, is_at};
ghost use Rattle.std.specs.List.{enumerate_from};
ghost use Rattle.std.specs.Option.{option_or};
ghost use Rattle.avro_schema.specs.declared.node.Node.{Node as SpecNode};
ghost use Rattle.avro_schema.specs.declared.node.Node.TheVariants as kind;
ghost use Rattle.avro_schema.specs.declared.node.NodeId.{NodeId as SpecId};
ghost use Rattle.avro_resolve.specs.declared.labels.Label.{Label as SpecLabel};
ghost use Rattle.avro_resolve.specs.Labels.{has_alias, has_label, is_labelled, is_unnamed, label_cmp, read_heading};
ghost use Rattle.avro_resolve.specs.Match as matching;
ghost use Rattle.avro_resolve.specs.Unions as spec;

use crate::labels::{Heading, Label, full_label, head_of, last_label};
use crate::matching::matches;
use avro_schema::{Node, NodeId, Schema};
use std::alloc::{AllocError, Global};
use std::collections::BTreeMap;

/// The most branches, and aliases of each, of a union without an index.
const FEW: usize = 16;

/// The most entries of all indexes together. A type of many aliases can be a branch of many unions,
/// and each index would have them all. Beyond this bound a union is searched branch by branch.
const MANY: usize = 1_048_576;

/// The indexes of the reader's unions, by the numbers of their nodes.
#[derive(Drop)]
pub struct Unions<'a> {
    memory: Global,
    /// The number of entries that may still be made.
    left: usize,
    pub of: BTreeMap<usize, Branches<'a>>,
}

/// The index of a union: for each label the first branch that has it, and the branches without a
/// name. Each branch has its number, from 0.
#[derive(Drop)]
pub struct Branches<'a> {
    pub labelled: BTreeMap<Label<'a>, (usize, NodeId)>,
    pub unnamed: Vec<(usize, NodeId)>,
}

impl<'a> Unions<'a> {
    /// Makes an empty set of indexes.
    pub fn none(memory: Global) -> Unions<'a>
        ensures { (r : List SpecNode) → spec.AreIndexes r result.of }
    {
        Unions {
            memory,
            left: MANY,
            of: BTreeMap::new(memory),
        }
    }

    /// Returns the index of the reader's type of that id, if one was made.
    pub fn of_union(&self, _r: &Schema, id: NodeId) -> Option<&Branches<'a>>
        requires { spec.AreIndexes _r.now.nodes self.now.of }
        ensures { IfSome result (λ index. spec.IsIndex _r.now.nodes (spec.branches_in (slice_get _r.now.nodes id.index)) index.now) }
    {
        self.of.get(&id.index)
    }

    /// Makes the index of the reader's type of that id, if it is a long union without one and
    /// enough entries are left. The only error is out of memory.
    #[inline(always)]
    pub fn look_at(&mut self, r: &'a Schema, id: NodeId) -> Result<(), AllocError>
        requires within { id.index < length r.now.nodes }
        requires made { spec.AreIndexes r.now.nodes self.old.of }
        ensures { OnOk result (spec.AreIndexes r.now.nodes self.new.of) }
    {
        if let Node::Union(branches) = r.node(id) {
            let branches = branches.as_slice();
            if is_long(r, branches) && !self.of.contains_key(&id.index) {
                let many = entries_of(r, branches);
                if many <= self.left {
                    let index = index_of(self.memory, r, branches)?;
                    self.of.insert(id.index, index)?;
                    self.left = self.left.saturating_sub(many);
                }
            }
        }
        Ok(())
    }
}

/// Returns whether there are many branches, or one of them has many aliases.
fn is_long(r: &Schema, branches: &[NodeId]) -> bool
    requires { All (λ b. b.index < length r.now.nodes) branches.now }
{
    if branches.len() > FEW {
        return true;
    }
    for b in branches {
        if has_many_aliases(r.node(*b)) {
            return true;
        }
    }
    false
}

fn has_many_aliases(node: &Node) -> bool {
    match head_of(node) {
        Some(head) => head.aliases.len() > FEW,
        None => false,
    }
}

/// Returns the most entries that the index of these branches can have.
fn entries_of(r: &Schema, branches: &[NodeId]) -> usize
    requires { All (λ b. b.index < length r.now.nodes) branches.now }
{
    let mut many = branches.len();
    for b in branches {
        if let Some(head) = head_of(r.node(*b)) {
            many = many.saturating_add(head.aliases.len());
        }
    }
    many
}

/// Makes the index of these branches.
fn index_of<'a>(
    alloc: Global,
    r: &'a Schema,
    branches: &[NodeId],
) -> Result<Branches<'a>, AllocError>
    requires { All (λ b. b.index < length r.now.nodes) branches.now }
    ensures { IfOk result (spec.IsIndex r.now.nodes branches.now) }
{
    let mut index = Branches {
        labelled: BTreeMap::new(alloc),
        unnamed: Vec::new(alloc),
    };
    for (k, b) in branches.iter().enumerate() {
        index.add(r.node(*b), (k, *b))?;
    }
    Ok(index)
}

impl<'a> Branches<'a> {
    /// Adds a branch after the others.
    fn add(&mut self, node: &'a Node, branch: (usize, NodeId)) -> Result<(), AllocError>
        ensures labelled { OnOk result ((l : SpecLabel) → get label_cmp self.new.labelled l ≡ option_or (get label_cmp self.old.labelled l) (cond (has_label (Some node.now) l) (Some branch) None)) }
        ensures unnamed { OnOk result (self.new.unnamed.items ≡ cond (is_unnamed (Some node.now)) (self.old.unnamed.items ++ branch ∷ []) self.old.unnamed.items) }
    {
        match head_of(node) {
            Some(head) => add_labels(&mut self.labelled, head, branch),
            None => Ok(self.unnamed.push(branch)?),
        }
    }

    /// Returns the first branch that has a label.
    fn with_label(&self, label: Label<'a>) -> Option<(usize, NodeId)>
        ensures { result ≡ get label_cmp self.now.labelled label.entry }
    {
        self.labelled.get(&label).copied()
    }
}

/// Adds the labels of a branch, after those of the others.
fn add_labels<'a>(
    labelled: &mut BTreeMap<Label<'a>, (usize, NodeId)>,
    head: Heading<'a>,
    branch: (usize, NodeId),
) -> Result<(), AllocError>
    ensures { OnOk result ((l : SpecLabel) → get label_cmp labelled.new l ≡ option_or (get label_cmp labelled.old l) (cond (is_labelled (read_heading head.entry) l) (Some branch) None)) }
{
    add_label(labelled, last_label(head.shape, head.name), branch)?;
    add_aliases(labelled, head, branch)?;
    Ok(())
}

/// Adds the labels of the aliases of a branch.
fn add_aliases<'a>(
    labelled: &mut BTreeMap<Label<'a>, (usize, NodeId)>,
    head: Heading<'a>,
    branch: (usize, NodeId),
) -> Result<(), AllocError>
    ensures { OnOk result ((l : SpecLabel) → get label_cmp labelled.new l ≡ option_or (get label_cmp labelled.old l) (cond (has_alias (read_heading head.entry) l) (Some branch) None)) }
{
    for alias in head.aliases {
        add_label(labelled, full_label(head.shape, alias), branch)?;
    }
    Ok(())
}

/// Adds a label, unless an earlier branch has it.
fn add_label<'a>(
    labelled: &mut BTreeMap<Label<'a>, (usize, NodeId)>,
    label: Label<'a>,
    branch: (usize, NodeId),
) -> Result<(), AllocError>
    ensures { OnOk result ((l : SpecLabel) → get label_cmp labelled.new l ≡ option_or (get label_cmp labelled.old l) (cond (is_at (label_cmp label.entry) l) (Some branch) None)) }
{
    if !labelled.contains_key(&label) {
        labelled.insert(label, branch)?;
    }
    Ok(())
}

/// Returns the first branch of the reader's union `i` that matches the writer's type `j`, by the
/// union's index. `j` must not be a union.
pub fn first_by_index<'a>(
    r: &'a Schema,
    i: NodeId,
    index: &Branches<'a>,
    w: &'a Schema,
    j: NodeId,
) -> Option<(usize, NodeId)>
    requires writer { j.index < length w.now.nodes }
    requires plain { (cs : List SpecId) → slice_get w.now.nodes j.index ≢ Some (kind.Union cs) }
    requires index { spec.IsIndex r.now.nodes (spec.branches_in (slice_get r.now.nodes i.index)) index.now }
    ensures { result ≡ find (λ b. matching.matches r.now.nodes w.now.nodes b.1 j) (enumerate_from 0 (spec.branches_in (slice_get r.now.nodes i.index))) }
{
    // Counting the nodes tells that they are sound.
    let _sound = r.node_count();
    match head_of(w.node(j)) {
        Some(head) => {
            let last = index.with_label(last_label(head.shape, head.name));
            let full = index.with_label(full_label(head.shape, head.name));
            earlier(last, full)
        }
        None => first_among(r, index.unnamed.as_slice(), w, j),
    }
}

/// Returns the first of these branches that matches.
fn first_among(
    r: &Schema,
    branches: &[(usize, NodeId)],
    w: &Schema,
    j: NodeId,
) -> Option<(usize, NodeId)>
    requires reader { All (λ b. b.1.index < length r.now.nodes) branches.now }
    requires writer { j.index < length w.now.nodes }
    ensures { result ≡ find (λ b. matching.matches r.now.nodes w.now.nodes b.1 j) branches.now }
{
    for b in branches {
        if matches(r, b.1, w, j) {
            return Some(*b);
        }
    }
    None
}

/// Returns the branch with the lower number.
fn earlier(one: Option<(usize, NodeId)>, other: Option<(usize, NodeId)>) -> Option<(usize, NodeId)>
    ensures { result ≡ spec.earlier one other }
{
    match one {
        None => other,
        Some(a) => match other {
            None => Some(a),
            Some(b) => { if a.0 <= b.0 { Some(a) } else { Some(b) } }
        },
    }
}
