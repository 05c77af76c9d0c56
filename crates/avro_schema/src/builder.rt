// The nodes that were read so far, and the names that some of them have.
ghost use Rattle.std.specs.Prelude.{◌≡◌, ◌<◌, ◌+◌, set, List, [], ◌∷◌, ◌++◌, IfOk, IfErr, ℕ, false, Some, None, option_map, is_none};

use crate::defined_names::{DefinedNames, Namespace};
use crate::limits::SCHEMA_NODES_LIMIT;
use crate::{Node, Primitive, SchemaError};
use base_text::Text;
use std::alloc::{AllocError, Global};
use std::mem;

/// The nodes read so far, and the names defined so far.
#[derive(Drop)]
pub(crate) struct Builder {
    pub(crate) nodes: Vec<Node>,
    names: DefinedNames,
}

impl Builder {
    ghost use Rattle.avro_schema.specs.declared.error.SchemaError.TheVariants as fault;
    ghost use Rattle.avro_schema.specs.declared.node.Node.TheVariants as kind;
    ghost use Rattle.avro_schema.specs.declared.node.Primitive.TheVariants as simple;
    ghost use Rattle.avro_schema.specs.Names.{has_dot, joined};
    ghost use Rattle.avro_schema.specs.Places.{Definition, definition_used, defined};
    ghost use Rattle.avro_schema.specs.Faults.{unless};
    ghost use Rattle.avro_schema.specs.Schema.{IsRefusalBy};
    ghost use Rattle.avro_schema.specs.DefinedNames.{node_named, number_of, IsNumbered};
    ghost use Rattle.avro_schema.specs.Building.{HasMet, Keeps, opened, nodes_of, too_many};

    pub(crate) fn new(alloc: Global) -> Builder
        ensures met { HasMet result [] }
        ensures empty { nodes_of result ≡ [] }
    {
        Builder {
            nodes: Vec::new(alloc),
            names: DefinedNames::new(alloc),
        }
    }

    /// Adds a node and returns its index. Errors: too many nodes, or out of memory.
    pub(crate) fn open(&mut self, node: Node) -> Result<usize, SchemaError>
        ensures ok { IfOk result (λ i. (i ≡ opened self.old) × (nodes_of self.new ≡ nodes_of self.old ++ node ∷ [])) }
        ensures met { IfOk result (λ _. (ds : List Definition) → HasMet self.old ds → HasMet self.new ds) }
        ensures names { self.new.names ≡ self.old.names }
        ensures err { IfErr result (IsRefusalBy (too_many (opened self.old + 1))) }
    {
        let index = self.nodes.len();
        if index >= SCHEMA_NODES_LIMIT {
            drop(node);
            return Err(SchemaError::TooManyNodes);
        }
        self.nodes.push(node)?;
        Ok(index)
    }

    /// Adds a placeholder, which `close` replaces once the node's parts are read.
    pub(crate) fn reserve(&mut self) -> Result<usize, SchemaError>
        ensures ok { IfOk result (λ i. (i ≡ opened self.old) × (nodes_of self.new ≡ nodes_of self.old ++ kind.Primitive simple.Null ∷ [])) }
        ensures met { IfOk result (λ _. (ds : List Definition) → HasMet self.old ds → HasMet self.new ds) }
        ensures names { self.new.names ≡ self.old.names }
        ensures err { IfErr result (IsRefusalBy (too_many (opened self.old + 1))) }
    {
        self.open(Node::Primitive(Primitive::Null))
    }

    /// Replaces the placeholder at `index` with its node.
    pub(crate) fn close(&mut self, index: usize, node: Node)
        requires { index < opened self.old }
        ensures nodes { nodes_of self.new ≡ set (nodes_of self.old) index node }
        ensures names { self.new.names ≡ self.old.names }
    {
        let open = mem::replace(&mut self.nodes[index], node);
        drop(open);
    }

    /// Returns the namespace of that text, with its number. `known` is the number if the caller has
    /// it.
    pub(crate) fn numbered(
        &mut self,
        alloc: Global,
        text: &Text,
        known: Option<usize>,
    ) -> Result<Namespace, AllocError>
        requires { (i : ℕ) → known ≡ Some i → number_of self.old.names text.now ≡ Some i }
        ensures nodes { self.new.nodes ≡ self.old.nodes }
        ensures ok { IfOk result (λ ns. (ns.text ≡ text.now) × IsNumbered self.new.names ns) }
        ensures kept { IfOk result (λ _. Keeps self.old self.new) }
        ensures met { IfOk result (λ _. (ds : List Definition) → HasMet self.old ds → HasMet self.new ds) }
    {
        let number = match known {
            Some(number) => number,
            None => self.names.number_of(alloc, text.as_str())?,
        };
        Ok(Namespace {
            text: text.clone()?,
            number,
        })
    }

    /// Adds a placeholder and defines `last`, a name without a dot, in the namespace as its name.
    pub(crate) fn open_named(
        &mut self,
        alloc: Global,
        namespace: &Namespace,
        last: &str,
    ) -> Result<usize, SchemaError>
        requires numbered { IsNumbered self.old.names namespace.now }
        requires last { has_dot last.now ≡ false }
        ensures ok { IfOk result (λ i. (i ≡ opened self.old) × (nodes_of self.new ≡ nodes_of self.old ++ kind.Primitive simple.Null ∷ [])) }
        ensures kept { IfOk result (λ _. Keeps self.old self.new) }
        ensures met { IfOk result (λ i. (ds : List Definition) → HasMet self.old ds
            → HasMet self.new (ds ++ record { name = joined namespace.now.text last.now; node = i } ∷ [])
            × (defined ds i (joined namespace.now.text last.now) ≡ None)) }
        ensures err { IfErr result (λ e. (ds : List Definition) → HasMet self.old ds
            → IsRefusalBy (unless (is_none (defined ds (opened self.old) (joined namespace.now.text last.now))) fault.Redefined ++ too_many (opened self.old + 1)) e) }
    {
        if self.names.node_in(namespace.number, last).is_some() {
            return Err(SchemaError::Redefined);
        }
        let index = self.reserve()?;
        self.names.define(alloc, namespace.number, last, index)?;
        Ok(index)
    }

    /// Returns the node that a name refers to. A name with a dot is looked up as written; another
    /// in the enclosing namespace, then in the null namespace.
    pub(crate) fn find(&self, name: &str, namespace: &Namespace) -> Option<usize>
        requires { IsNumbered self.now.names namespace.now }
        ensures { (ds : List Definition) → HasMet self.now ds
            → result ≡ option_map (λ d. d.node) (definition_used ds (opened self.now) namespace.now.text name.now) }
    {
        match name.rsplit_once('.') {
            Some((before, last)) => self.find_in(before, last),
            None => match self.names.node_in(namespace.number, name) {
                Some(node) => Some(node),
                None => self.names.node_of("", name),
            },
        }
    }

    /// Returns the node of the full name `before.last`. `None` if `before` is empty, since no full
    /// name starts with a dot.
    fn find_in(&self, before: &str, last: &str) -> Option<usize>
        requires { has_dot last.now ≡ false }
        ensures { (ds : List Definition) → HasMet self.now ds → result ≡ node_named ds (before.now ++ 46 ∷ last.now) }
    {
        if before.is_empty() {
            return None;
        }
        self.names.node_of(before, last)
    }
}
