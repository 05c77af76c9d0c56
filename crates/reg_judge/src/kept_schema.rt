// A schema in the form in which a judge keeps it.
ghost use Rattle.std.specs.Prelude.{◌≡◌};
ghost use Rattle.std.specs.Borrow.{ftrue};

use avro_resolve::avro_schema::Schema;
use std::marker::Model;

/// A schema that is kept. That it may go to another thread is proved here once, so that the proof
/// for a type that holds a judge needn't go through the schema's nodes and their JSON.
pub(crate) struct KeptSchema {
    pub(crate) schema: Schema,
}

// It owns nothing beside its field. A struct that says what it owns is `Send` by a proof of its own.
impl Model for KeptSchema {
    ghost also_owns = { λ _. ftrue };
}

unsafe impl Send for KeptSchema {}

impl KeptSchema {
    pub(crate) fn of(schema: Schema) -> KeptSchema
        ensures { result.schema ≡ schema }
    {
        KeptSchema { schema }
    }

    pub(crate) fn into_schema(self) -> Schema
        ensures { result ≡ self.schema }
    {
        let KeptSchema { schema } = self;
        schema
    }
}

impl Drop for KeptSchema {
    fn drop(self) {
        let _schema = self.into_schema();
    }
}
