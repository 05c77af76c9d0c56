// What a command line asks for.
use std::net::SocketAddr;

/// The version of the programs, the same as in the file `VERSION` at the top of the project.
pub const VERSION: &str = "1.0.0";

/// What a command line asks for.
#[derive(Clone, Copy, Debug, PartialEq, Eq)]
pub enum LogCommand<'a> {
    /// Serve the log of a file.
    Keep {
        file: &'a str,
        /// Where the first node listens; each other node listens at the next port.
        listen: SocketAddr,
        /// How many nodes there are, 1 to 3.
        nodes: usize,
        /// How many workers each node has, 1 to 16.
        workers: u32,
        /// Where metrics are served, if anywhere.
        metrics: Option<SocketAddr>,
        /// Don't report how far the reading of the log is.
        quiet: bool,
        /// Make a new log; without this the log must exist.
        is_new: bool,
    },
    /// Serve the lines of the input by nodes that only read. Values are as those of `Keep`.
    Follow {
        listen: SocketAddr,
        nodes: usize,
        workers: u32,
        metrics: Option<SocketAddr>,
    },
    /// Serve a log that other processes write too, through the adapter at standard input and
    /// output. Values are as those of `Keep`, but there are 2 to 16 workers.
    Join {
        listen: SocketAddr,
        nodes: usize,
        workers: u32,
        metrics: Option<SocketAddr>,
        /// How many seconds may pass without a check of the store, 1 to 3,600; 0 for no check that nobody asks for.
        check_every: u64,
    },
    /// Write the number of the registry's rules.
    Rules,
    /// Write the lines of a kept log once they are acknowledged, from that offset on or all of
    /// them.
    Tail {
        file: &'a str,
        from: Option<u64>,
    },
    /// Write what a log holds, that of a file or of the input.
    Check {
        file: Option<&'a str>,
        quiet: bool,
    },
    /// Compact a log, that of a file or of the input, to a floor (`to`) if there is one, into a
    /// file or the output.
    Compact {
        file: Option<&'a str>,
        to: Option<u64>,
        output: Option<&'a str>,
        quiet: bool,
        /// Write a line after the log that says where it ends.
        whole: bool,
    },
    /// Write the start of a log that goes on at the offset `below`: a compaction of the records
    /// below it, from a file or the input.
    Base {
        file: Option<&'a str>,
        below: u64,
        quiet: bool,
        whole: bool,
    },
}
