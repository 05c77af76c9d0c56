// What a program is started with.
use reg_records::Output;
use std::alloc::{AllocError, Global};
use std::io::{BufRead, Write};

/// What a program is started with: its words, and its three standard streams.
///
/// Each call's result is described by a relation that functions over any invocation know nothing
/// about. So if a contract speaks of the words or of a stream, the function has to make that call,
/// and can't use another stream instead. The same holds of what a stream gives and takes.
pub trait Invocation {
    type Reader: BufRead + Drop;

    type Writer: Output + Drop;

    type Errors: Write + Drop;

    ghost use Rattle.std.specs.Prelude.{Result};
    ghost use Rattle.std.specs.Global.{Vec, Global};
    ghost use Rattle.std.specs.declared.alloc.AllocError.{AllocError};
    ghost use Rattle.std.specs.declared.string.String.{String};

    ghost has_words: { Self → Result (Vec (String Global)) AllocError → Type 0 };

    ghost has_input: { Self → Result Self.Reader AllocError → Type 0 };

    ghost has_output: { Self → Result Self.Writer AllocError → Type 0 };

    ghost has_errors: { Self → Self.Errors → Type 0 };

    /// Returns the words of the command line; the first is the program's name. The only error is
    /// out of memory.
    fn words(&self, alloc: Global) -> Result<Vec<String>, AllocError>
        ensures { has_words self.now result };

    /// Opens standard input. The only error is out of memory.
    fn input(&self, alloc: Global) -> Result<Self::Reader, AllocError>
        ensures { has_input self.now result };

    /// Opens standard output. The only error is out of memory.
    fn output(&self, alloc: Global) -> Result<Self::Writer, AllocError>
        ensures { has_output self.now result };

    /// Returns standard error.
    fn errors(&self) -> Self::Errors
        ensures { has_errors self.now result };
}
