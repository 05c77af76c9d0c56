//! A read-only registry that follows the lines of a log which another process writes.
//!
//! One thread takes the lines as they come ([`follow_lines`]) and publishes their records to one
//! list; the desks of all ports answer from it and refuse commands. [`serve_lines`] starts the
//! thread and the ports.
//!
//! One idea: an answer is always that of the log's first n lines. Lines are published up to 1,000
//! at once, so a port may lag, but it never skips a line, and n never falls for a connection. A
//! faulty line ends the taking and then the program; the end of the input doesn't: the ports go on
//! with what they have.
//!
//! It doesn't open or watch files (its caller gives a reader), and it doesn't check that the
//! records are those that a registry's commands write.
//!
//! [`answers_are_of_first_lines`] is the theorem about answers, and [`follow_lines`] says in its
//! clause `followed` which lines were taken.
//!
//! Tests: `test_service`.
#![tactic(auto)]

mod course;
mod ended;
mod intake;
mod laws;
mod reading;
mod serving;

pub use course::Course;
pub use ended::{FollowError, LinesEnd};
pub use intake::{Intake, Stop};
pub use laws::answers_are_of_first_lines;
pub use reading::follow_lines;
pub use serving::{FollowDesk, serve_lines};
