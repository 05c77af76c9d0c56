// What the rules of schemas say of texts.
use crate::Answer;
use avro_schema::{Schema, SchemaError};
use std::alloc::Global;

pub(crate) const NO_SCHEMA: &str = "no schema";

/// The number of nodes, or the field whose default isn't valid.
fn count_of(alloc: Global, schema: &Schema) -> Answer {
    match schema.check_defaults() {
        Ok(()) => format!(in alloc; "{}", schema.node_count()),
        Err(bad) => format!(in alloc; "BadDefault {}", bad.field.as_str()),
    }
}

fn read_answer(alloc: Global, text: &str) -> Answer {
    match &Schema::read(alloc, text) {
        Ok(schema) => count_of(alloc, schema),
        Err(SchemaError::Unknown(name)) => format!(in alloc; "Unknown \"{}\"", name.as_str()),
        Err(error) => format!(in alloc; "{error}"),
    }
}

/// The number of nodes, the bad default or the fault, which both ways to read a text must have.
pub(crate) fn schema_answer(alloc: Global, asked: &str) -> Answer {
    let is_read = Schema::read(alloc, asked).is_ok();
    if is_read == Schema::read_if_any(alloc, asked)?.is_some() {
        read_answer(alloc, asked)
    } else {
        String::from_str(alloc, "a schema by one way to read it")
    }
}

/// Whether the defaults of a record of one field `x` are valid.
fn validity(schema: &Schema) -> &'static str {
    match schema.check_defaults() {
        Ok(()) => "valid",
        Err(bad) if bad.field.as_str() == "x" => "not valid",
        Err(_) => "not valid in another field",
    }
}

/// Whether a default is valid for the type before it.
pub(crate) fn default_answer(alloc: Global, asked: &str) -> Answer {
    let (kind, default) = asked.split_once(" default ").unwrap_or((asked, ""));
    let text = format!(in alloc;
        r#"{{"type":"record","name":"R","fields":[{{"name":"x","type":{kind},"default":{default}}}]}}"#
    )?;
    match &Schema::read_if_any(alloc, text.as_str())? {
        Some(schema) => String::from_str(alloc, validity(schema)),
        None => String::from_str(alloc, NO_SCHEMA),
    }
}

fn normal_text(alloc: Global, text: &str) -> Answer {
    match &Schema::read_if_any(alloc, text)? {
        Some(schema) => schema.normal_text(),
        None => String::from_str(alloc, NO_SCHEMA),
    }
}

/// A text's normal text, which is its own normal text.
pub(crate) fn normal_answer(alloc: Global, asked: &str) -> Answer {
    let normal = normal_text(alloc, asked)?;
    let again = normal_text(alloc, normal.as_str())?;
    if again.as_str() == normal.as_str() {
        Ok(normal)
    } else {
        format!(in alloc; "{normal}, whose normal text is {again}")
    }
}
