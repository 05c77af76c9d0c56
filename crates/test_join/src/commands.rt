// Commands that are drawn.
use reg_leader::Command;
use std::alloc::{AllocError, Global};
use test_tools::{Draws, Made, drawn_line};
use test_words::command_in_words;

/// A line is drawn, and of each of its words, whose alternatives stand between bars, one. The third schema isn't normal, and the last one
/// is none.
static COMMANDS: &str =
    r#"register s|t|a^20b int|long|={^20"type"^20:^20"string"^20}|={"type":"record","name":"R","fields":[{"name":"a","type":"int"}]}|={"type":"record","name":"R","fields":[{"name":"a","type":"int"},{"name":"b","type":"long","default":0}]}|={"type":"no^20such"}
import s|t|a^20b 0|1|2|3|4|5|6|7 -|1|2|3 int|long|={^20"type"^20:^20"string"^20}|={"type":"record","name":"R","fields":[{"name":"a","type":"int"}]}|={"type":"record","name":"R","fields":[{"name":"a","type":"int"},{"name":"b","type":"long","default":0}]}|={"type":"no^20such"}
delete|delete+ s|t|a^20b latest|1|2|3
delete_all|delete_all+ s|t|a^20b"#;

static SETTINGS: &str = r#"set_level *|*|*|s|s|t|t|a^20b|a^20b NONE|FULL|BACKWARD|FORWARD
set_level *|*|*|s|s|t|t|a^20b|a^20b NONE|FULL|BACKWARD|FORWARD
clear_level s|t|a^20b
set_mode|set_mode+ *|*|*|s|s|t|t|a^20b|a^20b READONLY|IMPORT|IMPORT|READWRITE|READWRITE|READWRITE
set_mode|set_mode+ *|*|*|s|s|t|t|a^20b|a^20b READONLY|IMPORT|IMPORT|READWRITE|READWRITE|READWRITE
set_mode|set_mode+ *|*|*|s|s|t|t|a^20b|a^20b READONLY|IMPORT|IMPORT|READWRITE|READWRITE|READWRITE
clear_mode s|t|a^20b
noop"#;

/// The command that this number stands for.
pub(crate) fn drawn_command(alloc: Global, number: u64) -> Made<Command> {
    let mut draws = Draws::new(number);
    let mut lines = COMMANDS.lines();
    let line = match draws.below(16) {
        0..=5 => lines.next(),
        6 | 7 => lines.nth(1),
        8 | 9 => lines.nth(2),
        10 | 11 => lines.nth(3),
        _ => Some(SETTINGS),
    };
    let words = drawn_line(alloc, &mut draws, line.unwrap_or(""))?;
    command_in_words(alloc, words.as_str())
        .ok()
        .ok_or(AllocError)
}
