// Values: their texts, which types have them, and the samples of schemas.
use crate::Answer;
use crate::reading::value_of;
use crate::schemas::NO_SCHEMA;
use avro_data::{Data, Piece, PiecedText, sample};
use avro_schema::{NodeId, Schema};
use std::alloc::Global;

const FRONT: &str = "value ";

/// The text that pieces make.
fn joined(alloc: Global, pieces: &PiecedText) -> Answer {
    let mut text = String::new(alloc);
    for piece in pieces.as_slice() {
        match piece {
            Piece::Fixed(part) => text.push_str(part)?,
            Piece::Shared(part) => text.push_str(part.as_str())?,
            Piece::Number(number) => write!(text, "{number}")?,
        }
    }
    Ok(text)
}

/// A value's text behind another.
fn text_behind(alloc: Global, front: &'static str, value: &Data) -> Answer {
    let mut pieces = PiecedText::new(alloc);
    pieces.push_fixed(front)?;
    value.push_text(&mut pieces)?;
    joined(alloc, &pieces)
}

/// The text of a value.
pub(crate) fn value_answer(alloc: Global, asked: &str) -> Answer {
    let text = asked.strip_prefix(FRONT).unwrap_or(asked);
    match &value_of(alloc, text)? {
        Some(value) => text_behind(alloc, FRONT, value),
        None => String::from_str(alloc, "no value"),
    }
}

/// Whether the schema has a value. An id that the schema lacks has none.
fn fit(schema: &Schema, value: &Data) -> &'static str {
    let index = schema.node_count();
    if value.fits(schema, NodeId { index }) {
        "fits a missing type"
    } else if value.fits(schema, schema.root()) {
        "fits"
    } else {
        "does not fit"
    }
}

/// Whether a schema has the value of that text.
pub(crate) fn fit_answer(alloc: Global, schema: &str, asked: &str) -> Answer {
    let shown = value_answer(alloc, asked)?;
    if shown.as_str() != asked {
        return Ok(shown);
    }
    let schema = Schema::read_if_any(alloc, schema)?;
    let value = value_of(alloc, asked.strip_prefix(FRONT).unwrap_or(asked))?;
    match (&schema, &value) {
        (Some(schema), Some(value)) => String::from_str(alloc, fit(schema, value)),
        _ => String::from_str(alloc, NO_SCHEMA),
    }
}

/// The text of a schema's sample, `none`, or why none is given.
fn sampled(alloc: Global, schema: &Schema, is_shown: bool) -> Answer {
    match &sample(alloc, schema) {
        Ok(Some(value)) if is_shown => text_behind(alloc, "", value),
        Ok(Some(_)) => String::from_str(alloc, "given"),
        Ok(None) => String::from_str(alloc, "none"),
        Err(error) => format!(in alloc; "{error}"),
    }
}

/// What is said of a schema's sample, whose text is shown or not.
pub(crate) fn sample_answer(alloc: Global, asked: &str, is_shown: bool) -> Answer {
    match &Schema::read_if_any(alloc, asked)? {
        Some(schema) => sampled(alloc, schema, is_shown),
        None => String::from_str(alloc, NO_SCHEMA),
    }
}

/// How many bytes the text of a sample has, and its FNV-1a hash of 64 bits.
pub(crate) fn hash_answer(alloc: Global, asked: &str) -> Answer {
    let text = sample_answer(alloc, asked, true)?;
    let mut hash: u64 = 0xcbf2_9ce4_8422_2325;
    for byte in text.as_bytes() {
        hash = (hash ^ u64::from(*byte)).wrapping_mul(0x0100_0000_01b3);
    }
    format!(in alloc; "{} bytes, hash {hash}", text.len())
}
