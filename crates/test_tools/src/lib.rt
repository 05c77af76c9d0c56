//! What several test crates use: numbers that look drawn, readers and writers that fail, logs in words, large schemas, and what the
//! programs share that try the cases of data files.
#![tactic(auto)]

mod draws;
mod faults;
mod files;
mod grammar;
mod logs;
mod notation;
mod schemas;
mod tally;

pub use draws::Draws;
pub use faults::{Fault, NO_FAULT, PiecedBytes, Taking};
pub use files::print_cases;
pub use grammar::{Grammar, drawn_line, drawn_part, write_drawn, write_word};
pub use logs::{log_text, sorted_rows};
pub use notation::{bytes_of, numbered_text, push_bytes, text_in};
pub use schemas::{chain, doubling};
pub use tally::{
    CaseError, Made, Said, Tally, cut, deed_of, halves, is_remark, number_of, paragraphs_of,
    parted, rows_of, small_of,
};
