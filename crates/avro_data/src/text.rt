// The text of a value, in pieces.
ghost use Rattle.std.specs.Prelude.{◌≡◌, ◌++◌, OnOk, true, codes};
ghost use Rattle.avro_data.specs.Text.{value_text, values_text, members_text, comma_before};
ghost use Rattle.avro_data.specs.View.{view, values_view, members_view};

use crate::{Data, PiecedText};
use base_text::Text;
use std::alloc::AllocError;
use std::collections::BTreeMap;

impl Data {
    /// Appends the value's text: `leaf`, a symbol, `[a,b]`, `{KEY=a}` in byte order of the keys,
    /// `#k a` for branch `k`, `(NAME=a,NAME=b)`, `default`. Keys and symbols aren't quoted, so it
    /// is a text for people. The only error is out of memory.
    pub fn push_text(&self, out: &mut PiecedText) -> Result<(), AllocError>
        ensures { OnOk result (out.new ≡ out.old ++ value_text (view self.now)) }
    {
        push_value(out, self)
    }
}

#[cycle(text)]
fn push_value(out: &mut PiecedText, given: &Data) -> Result<(), AllocError>
    ensures { OnOk result (out.new ≡ out.old ++ value_text (view given.now)) }
{
    match given {
        Data::Leaf => out.push_fixed("leaf"),
        Data::Symbol(symbol) => out.push_shared(symbol),
        Data::List(items) => {
            out.push_fixed("[")?;
            push_items(out, items)?;
            out.push_fixed("]")
        }
        Data::Map(members) => {
            out.push_fixed("{")?;
            push_values(out, members)?;
            out.push_fixed("}")
        }
        Data::Branch(k, inner) => {
            out.push_fixed("#")?;
            out.push_number(*k)?;
            out.push_fixed(" ")?;
            push_value(out, inner)
        }
        Data::Fields(members) => {
            out.push_fixed("(")?;
            push_fields(out, members)?;
            out.push_fixed(")")
        }
        Data::Default => out.push_fixed("default"),
    }
}

/// Appends the items, with commas between them.
#[cycle(text)]
fn push_items(out: &mut PiecedText, items: &Vec<Data>) -> Result<(), AllocError>
    ensures { OnOk result (out.new ≡ out.old ++ values_text true (values_view items.now.items)) }
{
    let mut is_first = true;
    for item in items {
        push_comma(out, is_first)?;
        push_value(out, item)?;
        is_first = false;
    }
    Ok(())
}

/// Appends the keys and their values, with commas between them.
#[cycle(text)]
fn push_values(out: &mut PiecedText, members: &BTreeMap<Text, Data>) -> Result<(), AllocError>
    ensures { OnOk result (out.new ≡ out.old ++ members_text true (members_view members.now.entries)) }
{
    let mut is_first = true;
    for (key, value) in members.iter() {
        push_name(out, is_first, key)?;
        push_value(out, value)?;
        is_first = false;
    }
    Ok(())
}

/// Appends the names and their values, with commas between them.
#[cycle(text)]
fn push_fields(out: &mut PiecedText, members: &Vec<(Text, Data)>) -> Result<(), AllocError>
    ensures { OnOk result (out.new ≡ out.old ++ members_text true (members_view members.now.items)) }
{
    let mut is_first = true;
    for member in members {
        push_name(out, is_first, &member.0)?;
        push_value(out, &member.1)?;
        is_first = false;
    }
    Ok(())
}

/// Appends a comma, unless this is the first.
fn push_comma(out: &mut PiecedText, is_first: bool) -> Result<(), AllocError>
    ensures { OnOk result (out.new ≡ out.old ++ comma_before is_first) }
{
    if is_first {
        return Ok(());
    }
    out.push_fixed(",")
}

fn push_name(out: &mut PiecedText, is_first: bool, name: &Text) -> Result<(), AllocError>
    ensures { OnOk result (out.new ≡ out.old ++ (comma_before is_first ++ name.now ++ codes "=")) }
{
    push_comma(out, is_first)?;
    out.push_shared(name)?;
    out.push_fixed("=")
}
