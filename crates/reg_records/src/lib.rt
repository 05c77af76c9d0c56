//! The records of the registry's topic: their keys and values, and the lines that hold them.
//!
//! A line is `offset TAB key TAB value LF` in UTF-8: the key and the value are JSON (RFC 8259), and
//! `null` is no value. A log is a list of lines, up to an empty line or the end of the input. Its
//! first line may be `floor TAB offset` instead, the low-water mark of a compacted log.
//!
//! One idea: writing and reading are inverse. A line that was written is read back as its record,
//! whatever follows it; a line that isn't of the grammar is refused. A key of an unknown kind is no
//! error: its line counts as foreign.
//!
//! Keys are parsed here. A value stays a text ([`ValueText`]), which `reg_values` decodes.
//!
//! Everything is bounded: the bytes ([`LINE_LIMIT`]) and the reads ([`LINE_READS`]) of a line, and
//! the lines of a log ([`LOG_LINES`]). [`Device`] counts the faults and reads of a reader or
//! writer.
//!
//! This crate opens no file and doesn't compact (`reg_set` and `reg_compaction` do).
//!
//! The main contract is [`write_line`]'s clause `reads_back`; that of [`read_log`] is `read`.
//!
//! Tests: `record_cases` and `test_records`.
#![tactic(auto)]

mod device;
mod floor;
mod key;
mod limits;
mod line;
mod line_reader;
mod log;
mod log_reader;
mod members;
mod output;
mod pieces;
mod record;
mod text_line;
mod value;
mod value_text;
mod write;

pub use device::Device;
pub use floor::{floors_are_of_the_grammar, is_floor_line, read_floor, write_floor};
pub use key::{Key, written_keys_are_apart};
pub use limits::{
    LINE_LIMIT, LINE_READS, LOG_LINES, NUMBER_LIMIT, OFFSET_LIMIT, record_limits_are_as_written,
};
pub use line::{
    LineError, ReadLineError, has_only_digits, line_len, lines_are_of_the_grammar, offset_of,
    read_line,
};
pub use log::{Log, LogError, LogFault};
pub use log_reader::read_log;
pub use members::{
    compact_texts_read_back, has_number_at, has_text_at, number_at, parse, quoted, text_at,
};
pub use output::Output;
pub use record::{Read, Record};
pub use text_line::{TextLineError, read_text_line};
pub use value::{Value, values_have_lines};
pub use value_text::ValueText;
pub use write::{WriteLineError, has_line, write_line};
