// The full names that were defined so far.
ghost use Rattle.std.specs.Prelude.{◌≡◌, ◌<◌, ◌==◌, ◌&&◌, if◌then◌else◌, ℕ, List, [], length, Some, bytes_eq, IfOk};
ghost use Rattle.avro_schema.specs.Places.{Definition};
ghost use Rattle.avro_schema.specs.DefinedNames as spec;

use base_text::Text;
use std::alloc::{AllocError, Global};
use std::collections::BTreeMap;

/// A namespace and its number. Equal namespaces have the same number.
#[derive(Drop)]
pub(crate) struct Namespace {
    pub(crate) text: Text,
    pub(crate) number: usize,
}

/// The full names defined so far, and the node of each.
///
/// A namespace is compared with others only if the text writes it out. A name is kept by the number
/// of its namespace, so the time to define or find a name without a dot doesn't depend on the
/// length of the namespace.
#[derive(Drop)]
pub(crate) struct DefinedNames {
    numbers: BTreeMap<String, usize>,
    /// For each namespace, the last parts of its names and their nodes.
    nodes: Vec<BTreeMap<String, usize>>,
}

impl DefinedNames {
    pub(crate) fn new(alloc: Global) -> DefinedNames
        ensures { spec.AreDefined result [] }
    {
        DefinedNames {
            numbers: BTreeMap::new(alloc),
            nodes: Vec::new(alloc),
        }
    }

    /// Returns the node of the name `last` in the namespace of that number.
    pub(crate) fn node_in(&self, number: usize, last: &str) -> Option<usize>
        ensures { result ≡ spec.node_in self.now number last.now }
    {
        match self.nodes.get(number) {
            Some(names) => names.get(last).copied(),
            None => None,
        }
    }

    /// Returns the node of the name `last` in a namespace.
    pub(crate) fn node_of(&self, namespace: &str, last: &str) -> Option<usize>
        ensures { result ≡ spec.node_of self.now namespace.now last.now }
    {
        match self.numbers.get(namespace) {
            Some(number) => self.node_in(*number, last),
            None => None,
        }
    }

    /// Returns the number of a namespace, a new one if it has none.
    pub(crate) fn number_of(&mut self, alloc: Global, namespace: &str) -> Result<usize, AllocError>
        ensures numbered { IfOk result (λ i. spec.number_of self.new namespace.now ≡ Some i) }
        ensures kept { IfOk result (λ _. spec.KeepsNumbers self.old self.new) }
        ensures defined { IfOk result (λ _. (ds : List Definition) → spec.AreDefined self.old ds → spec.AreDefined self.new ds) }
    {
        if let Some(number) = self.numbers.get(namespace) {
            return Ok(*number);
        }
        let number = self.nodes.len();
        self.nodes.push(BTreeMap::new(alloc))?;
        self.numbers
            .insert(String::from_str(alloc, namespace)?, number)?;
        Ok(number)
    }

    /// Defines the name `last` in the namespace of that number.
    pub(crate) fn define(
        &mut self,
        alloc: Global,
        number: usize,
        last: &str,
        node: usize,
    ) -> Result<(), AllocError>
        ensures numbers { self.new.numbers ≡ self.old.numbers }
        ensures count { length self.new.nodes.items ≡ length self.old.nodes.items }
        ensures put { IfOk result (λ _. number < length self.old.nodes.items → (i : ℕ) (s : List ℕ)
            → spec.node_in self.new i s ≡ (if (i == number) && bytes_eq last.now s then Some node else spec.node_in self.old i s)) }
    {
        let key = String::from_str(alloc, last)?;
        if let Some(names) = self.nodes.get_mut(number) {
            names.insert(key, node)?;
        }
        Ok(())
    }
}
