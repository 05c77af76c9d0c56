// Which fields of two records are paired.
ghost use Rattle.std.specs.Prelude.{◌≡◌, true, find, filter, filter_map, map, slice_get, option_copied, is_some, bytes_eq, Some, IfSome};
ghost use Rattle.avro_schema.specs.Sound.{HaveDistinctNames};
ghost use Rattle.avro_schema.specs.Defaults.{field_named as spec_field_named};
ghost use Rattle.avro_resolve.specs.Pairing as spec;
ghost use Rattle.avro_resolve.specs.FieldIndex.{AreFound};

use crate::field_index::FoundField;
use avro_schema::Field;
use base_text::Text;
use named_list::NamedList;

/// Returns the field of that name.
fn field_named<'a>(fields: &'a NamedList<Field>, name: &Text) -> Option<&'a Field>
    ensures { option_copied result ≡ spec_field_named fields.now name.now }
{
    fields.get(name)
}

/// Returns the field of the first of these names that has one.
fn first_field<'a>(fields: &'a NamedList<Field>, names: &[Text]) -> Option<&'a Field>
    ensures { option_copied result ≡ slice_get (filter_map (spec_field_named fields.now) names.now) 0 }
{
    for name in names {
        let found = field_named(fields, name);
        if found.is_some() {
            return found;
        }
    }
    None
}

/// Returns the writer's field that a reader's field is paired with: the one of its name, else of
/// its first alias that the writer has (Avro 1.11, "Aliases").
pub fn partner<'a>(writer: &'a NamedList<Field>, field: &Field) -> Option<&'a Field>
    ensures { option_copied result ≡ spec.partner writer.now field.now }
{
    let found = field_named(writer, &field.name);
    if found.is_some() {
        return found;
    }
    first_field(writer, field.aliases.as_slice())
}

/// Returns the field at a position, if there is one.
pub fn field_at(fields: &[Field], k: usize) -> Option<&Field>
    ensures { option_copied result ≡ slice_get fields.now k }
{
    fields.get(k)
}

/// Returns the partner of a reader's field, and a position to try first for the next field. `near`
/// is such a position; a field of the same name is looked up there before the whole list.
#[inline(always)]
pub fn partner_near<'a>(
    writer: &'a NamedList<Field>,
    field: &Field,
    near: usize,
) -> (usize, Option<&'a Field>)
    requires { HaveDistinctNames writer.now }
    ensures { option_copied result.1 ≡ spec.partner writer.now field.now }
{
    if let Some(found) = nearby(writer.as_slice(), field, near) {
        return found;
    }
    match writer.place(&field.name) {
        Some(k) => (k.saturating_add(1), field_at(writer.as_slice(), k)),
        None => (near, first_field(writer, field.aliases.as_slice())),
    }
}

/// Returns the field of the same name at `near` or two positions before it, and the position after
/// it. `None` if neither has the name.
fn nearby<'a>(writer: &'a [Field], field: &Field, near: usize) -> Option<(usize, Option<&'a Field>)>
    requires { HaveDistinctNames writer.now }
    ensures { IfSome result (λ found. option_copied found.1 ≡ spec.partner writer.now field.now) }
{
    if let Some(g) = named_at(writer, field, near) {
        return Some((near.saturating_add(1), Some(g)));
    }
    let before = near.saturating_sub(2);
    if let Some(g) = named_at(writer, field, before) {
        return Some((before.saturating_add(1), Some(g)));
    }
    None
}

/// Returns the field at a position if it has the field's name.
fn named_at<'a>(writer: &'a [Field], field: &Field, k: usize) -> Option<&'a Field>
    requires { HaveDistinctNames writer.now }
    ensures { IfSome result (λ g. Some g.now ≡ spec.partner writer.now field.now) }
{
    match field_at(writer, k) {
        Some(g) => { if g.name == field.name { Some(g) } else { None } }
        None => None,
    }
}

/// Returns the first of the reader's fields that has no partner and no default.
pub fn first_lacking<'a>(reader: &'a [Field], writer: &NamedList<Field>) -> Option<&'a Field>
    ensures { option_copied result ≡ find (spec.lacks_value writer.now) reader.now }
{
    for f in reader {
        if partner(writer, f).is_none() && f.default.is_none() {
            return Some(f);
        }
    }
    None
}

/// Returns the reader's field of that number, counting only fields with a partner, from 0.
pub fn paired_at<'a>(
    reader: &'a [Field],
    writer: &NamedList<Field>,
    number: usize,
) -> Option<&'a Field>
    ensures { option_copied result ≡ slice_get (filter (λ f. is_some (spec.partner writer.now f)) reader.now) number }
{
    let mut left = number;
    for f in reader {
        if partner(writer, f).is_some() {
            if left == 0 {
                return Some(f);
            }
            left -= 1;
        }
    }
    None
}

/// Returns the reader's field of that number, counting only fields with a partner. Looks only at
/// the fields in `found`.
pub fn paired_among<'a>(
    reader: &'a [Field],
    writer: &[Field],
    found: &[FoundField],
    number: usize,
) -> Option<&'a Field>
    requires distinct { HaveDistinctNames writer.now }
    requires found { AreFound reader.now writer.now found.now }
    ensures { option_copied result ≡ slice_get (filter (λ f. is_some (spec.partner writer.now f)) reader.now) number }
{
    let mut left = number;
    let mut next = 0;
    for x in found {
        if x.holder.field >= next {
            let f = &reader[x.holder.field];
            next = x.holder.field + 1;
            if field_at(writer, x.place).is_some() {
                if left == 0 {
                    return Some(f);
                }
                left -= 1;
            }
        }
    }
    None
}
