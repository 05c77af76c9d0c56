// The start of the program.
ghost use Rattle.std.specs.Prelude.{◌≡◌, IfErr, IfOk, map, string_bytes};
ghost use Rattle.std.specs.Process.{exit_status};
ghost use Rattle.reg_program.specs.Running.{Runs};
ghost use Rattle.reg_program.specs.Starting.{Begins, IsOpened, IsUnopened, Starts};
ghost use Rattle.reg_program.specs.Words.{command_of};

use crate::ended::Ended;
use crate::folding::FoldError;
use crate::invocation::Invocation;
use crate::running::{end, run};
use reg_records::{Device, Output};
use std::alloc::{AllocError, Global};
use std::io::{BufRead, Eprint, Write};
use std::process::{ExitCode, Termination};

/// How the program ended. Only [`start`] makes one, so a `main` that returns one can't end
/// otherwise. None can be dropped: it is returned or turned into an exit status.
#[derive(Debug)]
pub struct Finished {
    status: u8,
}

impl Termination for Finished {
    /// Returns the exit status.
    fn report<R: Eprint>(self, _rt: &R) -> ExitCode
        ensures { exit_status result ≡ self.status }
    {
        let Finished { status } = self;
        ExitCode::from(status)
    }
}

/// Does what the words of an invocation ask for, over its streams, and returns the exit status. If
/// memory for the words or for a stream is refused, it only reports that.
///
/// `serve` is called if the words ask to serve, as [`crate::run`] calls it.
pub fn start<I: Invocation, S: FnMut(u64, u64, u64) -> u8>(
    alloc: Global,
    invocation: &I,
    serve: &mut S,
) -> Finished
    requires { S.IsAlwaysCallable serve.old }
    ensures { Starts I.has_words I.has_input I.has_output I.has_errors I.Reader.remaining I.Writer.contents I.Writer.writes
        I.Writer.flushes I.Errors.contents S.step invocation.now serve.old serve.new result.status }
{
    let mut errors = Device::new(invocation.errors());
    Finished {
        status: begin(alloc, invocation, &mut errors, serve),
    }
}

/// Does what the words ask for, and returns the exit status.
fn begin<I: Invocation, S: FnMut(u64, u64, u64) -> u8>(
    alloc: Global,
    invocation: &I,
    errors: &mut Device<I::Errors>,
    serve: &mut S,
) -> u8
    requires { S.IsAlwaysCallable serve.old }
    ensures { Begins I.has_words I.has_input I.has_output I.Reader.remaining I.Writer.contents I.Writer.writes
        I.Writer.flushes I.Errors.contents S.step invocation.now errors.old errors.new serve.old serve.new result }
{
    match open(alloc, invocation) {
        Ok(mut opened) => opened.run(alloc, errors, serve),
        Err(AllocError) => end(errors, &Ended::Failed(FoldError::OutOfMemory)),
    }
}

/// The words, and the two streams that a command reads and writes.
#[derive(Drop)]
struct Opened<R, W> {
    words: Vec<String>,
    reader: Device<R>,
    writer: Device<W>,
}

impl<R: BufRead, W: Output> Opened<R, W> {
    /// Does what the words ask for.
    fn run<E: Write, S: FnMut(u64, u64, u64) -> u8>(
        &mut self,
        alloc: Global,
        errors: &mut Device<E>,
        serve: &mut S,
    ) -> u8
        requires { S.IsAlwaysCallable serve.old }
        ensures { Runs R.remaining W.contents W.writes W.flushes E.contents S.step self.old.reader self.new.reader
            self.old.writer self.new.writer errors.old errors.new serve.old serve.new result
            (command_of (map string_bytes self.old.words.items)) }
    {
        run(
            alloc,
            &self.words,
            &mut self.reader,
            &mut self.writer,
            errors,
            serve,
        )
    }
}

/// Asks for the words, and opens the streams. The only error is out of memory.
fn open<I: Invocation>(
    alloc: Global,
    invocation: &I,
) -> Result<Opened<I::Reader, I::Writer>, AllocError>
    ensures opened { IfOk result (λ opened. IsOpened I.has_words I.has_input I.has_output invocation.now
        opened.words opened.reader opened.writer) }
    ensures refused { IfErr result (λ _. IsUnopened I.has_words I.has_input I.has_output invocation.now) }
{
    let words = invocation.words(alloc)?;
    let reader = Device::new(invocation.input(alloc)?);
    let writer = Device::new(invocation.output(alloc)?);
    Ok(Opened {
        words,
        reader,
        writer,
    })
}
