//! The program `registryd`: a registry of Avro schemas.
//!
//! `registryd fold` reads a log, and the requests after its empty line, from standard input, and
//! writes the responses to standard output. `registryd sketch` reads a reader's schema and a
//! writer's, one a line, and writes how the reader sees the writer's data. `registryd serve PORT
//! NODES WORKERS` serves an empty topic in memory until it is stopped.
//!
//! This crate only ties together what the program gets from its system; `reg_program` reads the
//! arguments, and `reg_node_service` serves.
#![tactic(auto)]

mod serving;

use crate::serving::serve_ports;
use reg_program::{Finished, SystemInvocation, start};

fn main(rt: HostRuntime) -> Finished {
    let alloc = rt.alloc();
    let mut serve = |port, nodes, workers| serve_ports(&rt, alloc, port, nodes, workers);
    start(alloc, &SystemInvocation::new(&rt, rt.stderr()), &mut serve)
}
