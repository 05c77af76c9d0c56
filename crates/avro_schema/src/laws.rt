// The laws of schemas. What is proved here costs nothing at run time: a function that needs a law
// calls it.
ghost use Rattle.std.specs.Prelude.{◌≡◌, ℕ, List, Some};
ghost use Rattle.avro_schema.specs.Schema.{Meaning, schema_of};
ghost use Rattle.avro_schema.specs.Sound.{IsSound};

use compact_length::compact_texts_are_no_longer;

/// States that the nodes of every schema are sound: ids lead to nodes of the same schema, field
/// names are distinct, and no branch of a union is a union.
pub fn schemas_are_sound()
    ensures { (text : List ℕ) (m : Meaning) → schema_of text ≡ Some m → IsSound m.nodes }
{}

/// States that every schema's normal text reads back as the same schema.
pub fn normal_texts_read_back()
    ensures { (text : List ℕ) (m : Meaning) → schema_of text ≡ Some m → schema_of m.normal_text ≡ Some m }
{
    compact_texts_are_no_longer();
}
