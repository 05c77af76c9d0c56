// Runs the command that the words ask for, and reports how it ended.
ghost use Rattle.std.specs.Prelude.{map, string_bytes};
ghost use Rattle.reg_program.specs.Running.{EndsAs, FoldGives, Runs, SketchGives};
ghost use Rattle.reg_program.specs.Words.{command_of};

use crate::ended::Ended;
use crate::folding::fold;
use crate::sketching::sketch;
use crate::telling::tell;
use crate::words::{ProgramCommand, command_of};
use reg_records::{Device, Output};
use std::alloc::Global;
use std::io::{BufRead, Write};

/// Does what the words ask for, reports on `errors` how that ended, and returns the exit status.
///
/// If the words aren't a command, nothing is read, and only `errors` is written to. `serve` is
/// called if the words ask to serve, with the first port, the number of nodes and the number of
/// workers of a node; its result is the status then, and it reports its end itself. A fault of
/// `errors` doesn't change the status.
pub fn run<R: BufRead, W: Output, E: Write, S: FnMut(u64, u64, u64) -> u8>(
    alloc: Global,
    words: &[String],
    reader: &mut Device<R>,
    writer: &mut Device<W>,
    errors: &mut Device<E>,
    serve: &mut S,
) -> u8
    requires { S.IsAlwaysCallable serve.old }
    ensures { Runs R.remaining W.contents W.writes W.flushes E.contents S.step reader.old reader.new writer.old writer.new
        errors.old errors.new serve.old serve.new result (command_of (map string_bytes words.now)) }
{
    match command_of(words) {
        ProgramCommand::Usage => end(errors, &Ended::Usage),
        ProgramCommand::Fold => {
            let ended = fold_end(alloc, reader, writer);
            end(errors, &ended)
        }
        ProgramCommand::Sketch => {
            let ended = sketch_end(alloc, reader, writer);
            end(errors, &ended)
        }
        ProgramCommand::Serve {
            port,
            nodes,
            workers,
        } => serve(port, nodes, workers),
    }
}

/// Folds, and returns how that ended.
fn fold_end<R: BufRead, W: Output>(
    alloc: Global,
    reader: &mut Device<R>,
    writer: &mut Device<W>,
) -> Ended
    ensures { FoldGives R.remaining W.contents W.writes W.flushes reader.old reader.new writer.old writer.new result }
{
    match fold(alloc, reader, writer) {
        Ok(folded) => Ended::Folded(folded),
        Err(error) => Ended::Failed(error),
    }
}

/// Sketches, and returns how that ended.
fn sketch_end<R: BufRead, W: Write>(
    alloc: Global,
    reader: &mut Device<R>,
    writer: &mut Device<W>,
) -> Ended
    ensures { SketchGives R.remaining W.contents reader.old reader.new writer.old writer.new result }
{
    match sketch(alloc, reader, writer) {
        Ok(()) => Ended::Sketched,
        Err(error) => Ended::Unsketched(error),
    }
}

/// Reports how the program ends, and returns its exit status.
pub(crate) fn end<E: Write>(errors: &mut Device<E>, ended: &Ended) -> u8
    ensures { EndsAs E.contents errors.old errors.new result ended.now }
{
    let _told = tell(errors, ended);
    ended.status()
}
