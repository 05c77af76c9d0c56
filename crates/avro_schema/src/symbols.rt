// Symbols of enums, and sizes of fixed types.
ghost use Rattle.std.specs.Prelude.{◌≡◌, ◌&&◌, IfOk, IfErr, MatchOption, true, false, codes, bytes_eq, option_and_then};
ghost use Rattle.std.specs.List.{list_all};
ghost use Rattle.std.specs.Option.{option_map_or};
ghost use Rattle.json_tree.specs.View.{view};
ghost use Rattle.serde_json.specs.Find.{get, as_str};
ghost use Rattle.avro_schema.specs.Names.{is_name, all_distinct, has_text};
ghost use Rattle.avro_schema.specs.Form.{strings_in};
ghost use Rattle.avro_schema.specs.Faults.{symbols_faults, size_faults, if_written, unless};
ghost use Rattle.avro_schema.specs.Schema.{IsRefusalBy};
ghost use Rattle.avro_schema.specs.Building.{HasSymbols, HasSize, number_at};

use crate::SchemaError;
use crate::fields::are_names;
use crate::limits::SIZE_LIMIT;
use crate::members::strings_at;
use base_text::Text;
use json_tree::Json;
use named_list::NamedList;
use std::alloc::{AllocError, Global};

/// The symbols of an enum, and its default.
#[derive(Drop)]
pub(crate) struct Symbols {
    pub(crate) symbols: NamedList<Text>,
    pub(crate) default: Option<Text>,
}

/// Reads an enum's symbols and its default.
pub(crate) fn read_symbols(alloc: Global, value: &Json<'_>) -> Result<Symbols, SchemaError>
    ensures ok { IfOk result (HasSymbols (option_and_then strings_in (get (codes "symbols") (view value.now))) (get (codes "default") (view value.now))) }
    ensures err { IfErr result (IsRefusalBy (symbols_faults (option_and_then strings_in (get (codes "symbols") (view value.now))) (get (codes "default") (view value.now)))) }
{
    let Some(written) = strings_at(alloc, value, "symbols")? else {
        return Err(SchemaError::BadForm);
    };
    let symbols = symbol_list(alloc, written)?;
    let default = default_symbol(alloc, value, symbols.as_slice())?;
    Ok(Symbols { symbols, default })
}

/// Makes the list of an enum's symbols. They must be distinct names, else `BadEnum`.
fn symbol_list(alloc: Global, written: Vec<Text>) -> Result<NamedList<Text>, SchemaError>
    ensures ok { IfOk result (λ list. (list ≡ written.items) × (list_all is_name written.items && all_distinct bytes_eq written.items ≡ true)) }
    ensures err { IfErr result (IsRefusalBy (unless (list_all is_name written.items && all_distinct bytes_eq written.items) SchemaError.BadEnum)) }
{
    if !are_names(written.as_slice()) {
        return Err(SchemaError::BadEnum);
    }
    match distinct_symbols(alloc, written)? {
        Some(symbols) => Ok(symbols),
        None => Err(SchemaError::BadEnum),
    }
}

/// Reads an enum's default, if it has one.
fn default_symbol(
    alloc: Global,
    value: &Json<'_>,
    symbols: &[Text],
) -> Result<Option<Text>, SchemaError>
    ensures ok { IfOk result (λ o. (option_and_then as_str (get (codes "default") (view value.now)) ≡ o)
        × (if_written (λ e. option_map_or (has_text symbols.now) (as_str e) false) (get (codes "default") (view value.now)) ≡ true)) }
    ensures err { IfErr result (IsRefusalBy (unless (if_written (λ e. option_map_or (has_text symbols.now) (as_str e) false) (get (codes "default") (view value.now))) SchemaError.BadEnum)) }
{
    match value.get("default") {
        Some(member) => Ok(Some(read_symbol(alloc, member, symbols)?)),
        None => Ok(None),
    }
}

/// Makes the list of symbols. `None` if two of them are the same.
fn distinct_symbols(
    alloc: Global,
    symbols: Vec<Text>,
) -> Result<Option<NamedList<Text>>, AllocError>
    ensures { IfOk result (λ found. MatchOption found
        (all_distinct bytes_eq symbols.items ≡ false)
        (λ list. (list ≡ symbols.items) × (all_distinct bytes_eq symbols.items ≡ true))) }
{
    NamedList::of(alloc, symbols)
}

/// Reads an enum's default, which must be one of its symbols.
fn read_symbol(alloc: Global, value: &Json<'_>, symbols: &[Text]) -> Result<Text, SchemaError>
    ensures ok { IfOk result (λ t. (as_str (view value.now) ≡ Some t) × (option_map_or (has_text symbols.now) (as_str (view value.now)) false ≡ true)) }
    ensures err { IfErr result (IsRefusalBy (unless (option_map_or (has_text symbols.now) (as_str (view value.now)) false) SchemaError.BadEnum)) }
{
    let Some(text) = value.as_str() else {
        return Err(SchemaError::BadEnum);
    };
    let symbol = Text::copy_of(alloc, text)?;
    if !has_symbol(symbols, &symbol) {
        return Err(SchemaError::BadEnum);
    }
    Ok(symbol)
}

fn has_symbol(symbols: &[Text], symbol: &Text) -> bool
    ensures { result ≡ has_text symbols.now symbol.now }
{
    symbols.iter().any(|other| symbol == other)
}

/// Reads the size of a fixed type, in bytes.
pub(crate) fn read_size(value: &Json<'_>) -> Result<u32, SchemaError>
    ensures ok { IfOk result (HasSize (number_at (codes "size") (view value.now))) }
    ensures err { IfErr result (IsRefusalBy (size_faults (number_at (codes "size") (view value.now)))) }
{
    let Some(Json::Number(number)) = value.get("size") else {
        return Err(SchemaError::BadForm);
    };
    match number.as_u64() {
        Some(size) if size <= u64::from(SIZE_LIMIT) => Ok(size as u32),
        _ => Err(SchemaError::BadFixed),
    }
}
