// The members of a record, by the names of its fields. Nothing here takes memory.
ghost use Rattle.std.specs.Prelude.{◌≡◌, ◌<◌, true, map, length, position, bytes_eq, IsTrue, IfSome};
ghost use Rattle.avro_resolve.specs.avro_schema.declared.node.Field.{Field};

use avro_data::Data;
use avro_resolve::avro_schema::Field;
use avro_resolve::base_text::Text;
use avro_resolve::named_list::NamedList;

/// Returns whether the members have the names of these fields, in their order.
pub fn are_named(fields: &[Field], members: &[(Text, Data)]) -> bool
    ensures { IsTrue result → map (λ (f : Field). f.name) fields.now ≡ map (λ m. m.0) members.now }
{
    if fields.len() != members.len() {
        return false;
    }
    for (k, member) in members.iter().enumerate() {
        if !is_named(&fields[k], member) {
            return false;
        }
    }
    true
}

fn is_named(field: &Field, member: &(Text, Data)) -> bool
    ensures { result ≡ bytes_eq field.now.name member.now.0 }
{
    field.name == member.0
}

/// Returns the place of the first member of that name. If `are_fields` says that the members have
/// the fields' names, it is the place of the field.
pub fn place_named(
    fields: &NamedList<Field>,
    members: &[(Text, Data)],
    are_fields: bool,
    name: &Text,
) -> Option<usize>
    requires { are_fields ≡ true → map (λ (f : Field). f.name) fields.now ≡ map (λ m. m.0) members.now }
    ensures place { result ≡ position (λ m. bytes_eq m.0 name.now) members.now }
    ensures within { IfSome result (λ k. k < length members.now) }
{
    if are_fields {
        fields.place(name)
    } else {
        members.iter().position(|member| member.0 == *name)
    }
}
