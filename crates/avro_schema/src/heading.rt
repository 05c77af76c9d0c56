// The names of a type.
ghost use Rattle.std.specs.Prelude.{◌≡◌, ◌&&◌, IfOk, IfErr, ℕ, false, Some, None, map, option_map, unwrap_or};
ghost use Rattle.std.specs.List.{list_all};
ghost use Rattle.json_tree.specs.View.{view};
ghost use Rattle.avro_schema.specs.Form.{heading_of};
ghost use Rattle.avro_schema.specs.Faults.{written_faults};
ghost use Rattle.avro_schema.specs.Names as spec;
ghost use Rattle.avro_schema.specs.Building.{HasNames, IsNumberedAs};
ghost use Rattle.avro_schema.specs.Schema.{IsRefusalBy};

use crate::defined_names::Namespace;
use crate::members::{aliases_of, string_at};
use crate::names::{full_name, has_dot, is_full_name, is_type_name};
use crate::{FullName, SchemaError};
use base_text::Text;
use json_tree::Json;
use std::alloc::{AllocError, Global};

/// The names of a type: its full name and its aliases.
#[derive(Drop)]
pub(crate) struct TypeNames {
    pub(crate) name: FullName,
    pub(crate) aliases: Vec<FullName>,
    /// The number of its namespace, if it is that of the enclosing type.
    pub(crate) number: Option<usize>,
}

/// Reads the names of a type. `enclosing` is the namespace of the type around it.
pub(crate) fn read_type_names(
    alloc: Global,
    value: &Json<'_>,
    enclosing: &Namespace,
) -> Result<TypeNames, SchemaError>
    ensures ok { IfOk result (HasNames enclosing.now.text (heading_of (view value.now))) }
    ensures number { IfOk result (IsNumberedAs enclosing.now) }
    ensures err { IfErr result (IsRefusalBy (written_faults (heading_of (view value.now)))) }
{
    let Some(name) = string_at(value, "name") else {
        return Err(SchemaError::BadForm);
    };
    let Some(aliases) = aliases_of(alloc, value)? else {
        return Err(SchemaError::BadForm);
    };
    if !may_name(name, aliases.as_slice()) {
        return Err(SchemaError::BadName);
    }
    let written = string_at(value, "namespace");
    let number = inherited(written, name, enclosing);
    let namespace = own_namespace(alloc, written, enclosing)?;
    let name = full_name(alloc, &namespace, name)?;
    let aliases = type_aliases(alloc, &name.namespace, aliases.as_slice())?;
    Ok(TypeNames {
        name,
        aliases,
        number,
    })
}

/// Returns the number of the enclosing namespace, if the name is in it.
fn inherited(written: Option<&str>, name: &str, enclosing: &Namespace) -> Option<usize>
    ensures { (i : ℕ) → result ≡ Some i → (i ≡ enclosing.now.number) × (option_map (λ s. s.now) written.entry ≡ None) × (spec.has_dot name.now ≡ false) }
{
    if written.is_some() || has_dot(name) {
        return None;
    }
    Some(enclosing.number)
}

/// Returns the namespace of a type's own name: the one written, else the enclosing one.
fn own_namespace(
    alloc: Global,
    written: Option<&str>,
    enclosing: &Namespace,
) -> Result<Text, AllocError>
    ensures { IfOk result (λ t. t ≡ unwrap_or (option_map (λ s. s.now) written.entry) enclosing.now.text) }
{
    match written {
        Some(text) => Text::copy_of(alloc, text),
        None => enclosing.text.clone(),
    }
}

/// Returns whether a type's name and aliases are valid.
fn may_name(name: &str, aliases: &[Text]) -> bool
    ensures { result ≡ (spec.is_type_name name.now && list_all spec.is_full_name aliases.now) }
{
    is_type_name(name) && are_full_names(aliases)
}

fn are_full_names(texts: &[Text]) -> bool
    ensures { result ≡ list_all spec.is_full_name texts.now }
{
    texts.iter().all(|text| is_full_name(text.as_str()))
}

/// Returns the full names of a type's aliases.
fn type_aliases(
    alloc: Global,
    namespace: &Text,
    aliases: &[Text],
) -> Result<Vec<FullName>, AllocError>
    ensures { IfOk result (λ v. v.items ≡ map (spec.full_name namespace.now) aliases.now) }
{
    let mut names = Vec::new(alloc);
    for alias in aliases {
        names.push(full_name(alloc, namespace, alias.as_str())?)?;
    }
    Ok(names)
}
