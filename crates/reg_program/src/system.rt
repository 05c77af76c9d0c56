// The words and the streams that the system gives.
use crate::invocation::Invocation;
use std::alloc::{AllocError, Global};
use std::env::{self, Env};
use std::io::{self, BufReader, BufWriter, ErrorKind, Input, Print, Printer, Stderr};

/// The words and the streams with which the system started the program. Contracts know nothing of
/// the words, nor of what the streams give and take.
#[derive(Drop)]
pub struct SystemInvocation<'a, R> {
    rt: &'a R,
    errors: Stderr,
}

impl<'a, R> SystemInvocation<'a, R> {
    /// Makes one with the words, the standard input and the standard output of `rt`, and with
    /// standard error.
    pub fn new(rt: &'a R, errors: Stderr) -> SystemInvocation<'a, R> {
        SystemInvocation { rt, errors }
    }
}

impl<'a, R: Env + Input + Print + Alloc<A = Global>> Invocation for SystemInvocation<'a, R> {
    type Reader = BufReader<R::Reader>;

    type Writer = BufWriter<Printer<'a, R>>;

    type Errors = Stderr;

    ghost use Rattle.std.specs.Prelude.{⊤};

    ghost has_words = { λ _ _. ⊤ };

    ghost has_input = { λ _ _. ⊤ };

    ghost has_output = { λ _ _. ⊤ };

    ghost has_errors = { λ _ _. ⊤ };

    /// Returns the words. If one isn't UTF-8 it returns none, which isn't a command.
    fn words(&self, alloc: Global) -> Result<Vec<String>, AllocError> {
        match env::args(self.rt) {
            Ok(words) => words.collect(alloc),
            Err(error) => {
                if error.kind() == ErrorKind::InvalidData {
                    Ok(Vec::new(alloc))
                } else {
                    Err(AllocError)
                }
            }
        }
    }

    fn input(&self, alloc: Global) -> Result<BufReader<R::Reader>, AllocError> {
        match BufReader::new(alloc, self.rt.reader()) {
            Ok(reader) => Ok(reader),
            Err(_refused) => Err(AllocError),
        }
    }

    fn output(&self, alloc: Global) -> Result<BufWriter<Printer<'a, R>>, AllocError> {
        match BufWriter::new(alloc, io::writer(self.rt)) {
            Ok(writer) => Ok(writer),
            Err(_refused) => Err(AllocError),
        }
    }

    fn errors(&self) -> Stderr {
        self.errors
    }
}
