//! Resolution of a reader's schema against a writer's (Avro 1.11, "Schema Resolution"): whether the
//! two are compatible, and if not, a shortest trail to a clash.
//!
//! The unit of work is a pair of a reader's type and a writer's type. A pair clashes, or it has
//! *obligations*: the pairs that have to resolve for it to resolve. Two schemas are compatible if
//! no clash can be reached from the pair of their roots.
//!
//! One idea: resolution is a breadth-first search over pairs, each of which is looked up once. So
//! recursive schemas end, and the first clash found is at the end of a shortest trail. The trail is
//! a list of *hops*, one for each obligation on the way.
//!
//! If a search grows large, a cheaper one first asks whether any clash can be reached: it needs two
//! bits for each pair and keeps no trails. Unions with many branches and records with many fields
//! are looked up by indexes.
//!
//! Not done here: values aren't converted or read (`avro_readings` does that), and defaults aren't
//! checked, only whether a field has one. Levels over several versions are in `reg_levels`.
//!
//! The main contract is that of [`resolve`]: its clause `verdict` says that the result is the
//! verdict of the definition, and `one_verdict` that two schemas have only one. The laws are
//! [`schemas_have_one_verdict`] and [`obligations_are_compatible`].
//!
//! Tests: `avro_cases`; `test_service` has slow pairs of schemas.
#![tactic(auto)]

mod any_clash;
mod field_index;
mod fields;
mod firsts;
mod follow;
mod grid;
mod labels;
mod laws;
mod matching;
mod names;
mod numbers;
mod obligations;
mod owed;
mod resolving;
mod search;
mod seen;
mod table;
mod trail;
mod unions;
mod worklist;

pub use avro_schema;
pub use base_text;
pub use fields::{first_lacking, partner};
pub use laws::{obligations_are_compatible, schemas_have_one_verdict};
pub use matching::matches;
pub use named_list;
pub use obligations::Pair;
pub use resolving::{Counted, Verdict, resolve, resolve_counted};
pub use table::{Cause, Part, Row, row_at};
pub use trail::{ClashKind, Hop, Trail};
