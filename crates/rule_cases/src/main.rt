//! Tries the cases that lie in `data/` on the rules of a registry: commands, queries, adoptions, levels, judgements, modes and names. It
//! prints for each file how many cases there are, and each case that goes otherwise, with what was wanted and what came.
//!
//! In every file a line that begins with `#` is a remark, and behind ` => ` stands what is wanted. Commands, queries and schemas are in the
//! words of `test_words`. In the lines of logs a `|` stands for each TAB. The ending of a file's name says what its cases are:
//!
//! - `.sessions`: paragraphs. First `log before N`, where N is the next offset, and the lines of the log; or `log read`, and a log as a file
//!   has it: a floor may stand in front, and lines of other kinds among the others, and the next offset is the one that these lines give.
//!   Then rows, each of which is a case: `> COMMAND => REPLY`, and below it the lines that are written, which the rows after it find, and
//!   which have to tell that command again; or `> ask QUESTION => ANSWER`. A line `judged JUDGEMENT` below the log hands that judgement in
//!   with each command too, which is a case of its own: the command comes to the same with it as without. Questions are the queries, which
//!   are answered by a status and a body; `may_import SUBJECT`, with a `+` if it is forced, whether the subject may be set to IMPORT;
//!   `adoption`, whether a topic can begin with the log's records; and `due`, what it then begins with beside them.
//! - `.verdicts`: rows `JUDGEMENT => VERDICT`, where a judgement is `LEVEL; NEW; VERSION OLD; VERSION OLD`, with the new text and the old
//!   ones by ascending version, and its verdict `ok`, the first clash, or which text is no schema. It is told by a check of schemas, by a
//!   judgement of texts, and by judges that keep one, two or a hundred verdicts, each of which is asked all rows twice. Or rows
//!   `JUDGEMENT fits JUDGEMENT => yes` or `no`. `<3*text>` is a text three times, in which `@` is 0, 1 and 2, `#` is 1, 2 and 3, and `%` is
//!   3, 2 and 1.
//! - `.judges`: paragraphs. First `judge SCHEMAS VERDICTS => made`, or why no judge keeps so many, and then judgements, with their verdicts,
//!   told by a check, or behind `make` by a judgement; and `has READER; WRITER`, whether the judge keeps the verdict of these texts.
//! - `.words`: rows `level TEXT` and `mode TEXT` tell the name that a text gives, or `none`; `register MODE`, `import MODE` and `write MODE`
//!   tell what a mode permits. In TEXT `^` and two hexadecimal digits stand for any byte.
#![tactic(auto)]

mod judgements;
mod sessions;
mod verdicts;
mod words;

use crate::sessions::try_sessions;
use crate::verdicts::{try_judges, try_verdicts};
use crate::words::try_words;
use std::hash::RandomState;
use std::io;
use test_tools::print_cases;

/// What the names of files end in.
static KINDS: [&str; 4] = ["judges", "sessions", "verdicts", "words"];

/// Judges find texts by hashes under keys that are made here.
fn main(rt: HostRuntime) -> io::Result<()> {
    let keys = RandomState::new(&rt)?;
    print_cases(&rt, &KINDS, |tally, kind, text| match kind {
        "judges" => try_judges(tally, keys, text),
        "sessions" => try_sessions(tally, text),
        "verdicts" => try_verdicts(tally, keys, text),
        _ => try_words(tally, text),
    })
}
