//! Tries the cases that lie in `data/` on schemas, their resolution, and values, and prints for each file how many there are.
//!
//! A case that goes otherwise is printed with what was wanted and what came, so that the output is no longer the stored one. Each
//! case is a line `ASKED => WANTED`; in some files it stands in a paragraph below the schemas that it asks about. A line that begins
//! with `#` is a remark. `<3*text>` is a text three times, in which `@` is 0, 1 and 2, `#` is 1, 2 and 3, and `%` is 3, 2 and 1. The
//! ending of a file's name says what its cases are:
//!
//! - `.schemas`: a text, and the number of its nodes, `BadDefault` and the field whose default isn't valid, or why it is no schema.
//! - `.defaults`: `TYPE default VALUE`, and whether that is `valid`.
//! - `.normals`: a schema's text, and its normal text, which is its own normal text too.
//! - `.nodes`: a schema's text, and its nodes: the kind, `NAMESPACE|NAME`, the aliases, and the numbers of the nodes that it leads to.
//! - `.samples`: a schema's text, and its sample, or `none`; in `.sizes` whether one is given, and in `.hashes` how long it is.
//! - `.values`: `value` and a value, and the same by its text; in `.fits`, below a schema, whether the value `fits`.
//! - `.finds`: `NAME in [NAMES]`, and where that list has the name.
//! - `.pairs`: below a reader's schema, a writer's, and the verdict, which the plain search must give too; in `.counts` the verdict, and
//!   how many pairs of types were looked up.
//! - `.trails`: below a reader's schema and a writer's, hops and a clash, and whether they are `a trail`.
//! - `.matches`: below a reader's schema and a writer's, a node of the reader's, and whether it `matches` the writer's root.
//! - `.draws`: a kind of schemas, a seed, and how many pairs of which size are drawn; and of how many both searches say the same.
#![tactic(auto)]

mod cases;
mod draft;
mod draws;
mod lists;
mod nodes;
mod pairs;
mod plain;
mod reading;
mod schemas;
mod values;

use std::io;
use test_tools::{Made, print_cases};

/// What is said of a case, or that memory was refused.
type Answer = Made<String>;

/// That something is done, or that memory was refused.
type Done = Made<()>;

static KINDS: [&str; 15] = [
    "schemas", "defaults", "normals", "nodes", "samples", "sizes", "hashes", "values", "fits",
    "finds", "pairs", "counts", "trails", "matches", "draws",
];

fn main(rt: HostRuntime) -> io::Result<()> {
    print_cases(&rt, &KINDS, cases::try_cases)
}
