//! Avro schemas: what a schema's text says, as a list of nodes (Avro 1.11, "Schema Declaration").
//!
//! [`Schema::read`] reads a text. Each type that is written out is a node; a use of a
//! name is the id of the node that defines it. So a recursive schema is a finite list, and readers
//! follow ids.
//!
//! One idea: a schema is its normal text. That is its JSON without spaces, the members of each
//! object in byte order of their names. It reads back as the same schema, so equal normal texts
//! mean equal schemas. It isn't the standard's Parsing Canonical Form: it keeps documentation,
//! aliases and defaults.
//!
//! [`SchemaText`] is a text that may be a schema's. Once read, it keeps the normal text and whether
//! the defaults are valid.
//!
//! Not done here: logical types and JSON members that the standard doesn't define are ignored,
//! numbers with a fraction or an exponent are refused anywhere in the text, and reading doesn't
//! check defaults ([`Schema::check_defaults`] does). A text has at most 1,048,576 bytes and 65,535
//! nodes.
//!
//! The main contract is that of [`Schema::read`]: its clause `ok` says that the nodes are what the
//! text means, and `err` that each refusal is a fault of the text. The laws are
//! [`normal_texts_read_back`] and [`schemas_are_sound`].
//!
//! Tests: `avro_cases`.
#![tactic(auto)]

mod branch_kinds;
mod builder;
mod default_value;
mod defaults;
mod defined_names;
mod error;
mod fields;
mod heading;
mod kinds;
mod laws;
mod limits;
mod members;
mod named_types;
mod names;
mod node;
mod normal;
mod read_types;
mod required;
mod schema;
mod schema_text;
mod symbols;
mod word;

pub use default_value::DefaultValue;
pub use error::{BadDefault, SchemaError};
pub use laws::{normal_texts_read_back, schemas_are_sound};
pub use limits::{SCHEMA_NODES_LIMIT, SIZE_LIMIT, TEXT_LIMIT, schema_limits_are_as_written};
pub use node::{Field, FullName, Node, NodeId, Primitive};
pub use schema::Schema;
pub use schema_text::{KnownNormal, SchemaReading, SchemaText};
