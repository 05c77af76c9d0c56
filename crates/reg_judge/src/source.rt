// A schema with the text that it was read from.
use avro_resolve::avro_schema::Schema;
use std::marker::Model;

/// A schema with the text that it was read from. Contracts see the text, which determines it.
#[derive(Drop)]
pub(crate) struct Source {
    pub(crate) text: String,
    pub(crate) schema: Schema,
}

impl Model for Source {
    ghost use Rattle.std.specs.Prelude.{◌≡◌, ℕ, List, Some, string_bytes};
    ghost use Rattle.avro_resolve.specs.avro_schema.Schema.{schema_of};

    ghost Value = { List ℕ };

    ghost view = { λ s. string_bytes s.text };

    ghost invariant = { λ s. schema_of (string_bytes s.text) ≡ Some s.schema };
}
