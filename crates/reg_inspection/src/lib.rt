//! Inspection of a log: what it holds, in numbers, and what keeps it from being served.
//!
//! [`inspect`] is a filter: it reads a log to its end and writes one line for each fact: the
//! counts, the mark of ids that is due (a record of the highest id ever given), the lines of kinds
//! unknown here, and the obstacles. [`inspected`] returns them as a value, [`Inspection`].
//!
//! One idea: the list of obstacles is complete. A log can be taken over by a server exactly if the
//! list is empty.
//!
//! An [`Obstacle`] is a version whose record can't be read (with its first cause, [`OpaqueCause`]),
//! an id that names two schemas, or a mark of ids that is due when no offset is left.
//!
//! This crate changes no log and repairs nothing.
//!
//! [`obstacles`] is the contract: its clause `none` says that nothing is found exactly if the log
//! may begin a topic. [`no_obstacle_is_open`] is the law behind it; [`causes_are_of_opaque`] says
//! that a record has a cause exactly if it can't be read.
//!
//! Tests: `log_cases`, `run_cases` and `test_log`.
#![tactic(auto)]

mod cause;
mod counts;
mod foreign;
mod ids;
mod inspecting;
mod inspection;
mod laws;
mod obstacle;

pub use cause::{OpaqueCause, cause_of};
pub use counts::Counts;
pub use inspecting::inspect;
pub use inspection::{Inspection, inspected};
pub use laws::{
    causes_are_of_opaque, no_obstacle_is_open, shared_ids_name_two, tallies_have_each_keytype,
};
pub use obstacle::{Obstacle, obstacles};
