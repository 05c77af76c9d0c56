// What the text of an object's `type` says.
ghost use Rattle.std.specs.Prelude.{◌≡◌};

/// The kinds of object that a schema is written with (Avro 1.11, "Complex Types").
#[derive(Clone, Copy, Debug, PartialEq, Eq)]
pub(crate) enum TypeWord {
    Record,
    Enum,
    Fixed,
    Array,
    Map,
    /// The record of a protocol's error, which no schema here has.
    Error,
    /// A name: a primitive's or a defined type's.
    Other,
}

impl TypeWord {
    ghost use Rattle.avro_schema.specs.Form.{type_word};

    pub(crate) fn of(text: &str) -> TypeWord
        ensures { result ≡ type_word text.now }
    {
        match text {
            "record" => TypeWord::Record,
            "enum" => TypeWord::Enum,
            "fixed" => TypeWord::Fixed,
            "array" => TypeWord::Array,
            "map" => TypeWord::Map,
            "error" => TypeWord::Error,
            _ => TypeWord::Other,
        }
    }
}
