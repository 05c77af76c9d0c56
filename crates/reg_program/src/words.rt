// What the arguments ask for.
ghost use Rattle.std.specs.Prelude.{◌≡◌, ◌≤◌, ◌&&◌, map, nat_le, string_bytes};
ghost use Rattle.reg_program.specs.Words.{command_named, command_of, is_plain, number_in, serving};

use reg_messages::digits_value;
use reg_records::has_only_digits;

/// The least and the greatest port.
const PORTS: (u64, u64) = (1, 65_535);

/// The least and the greatest number of nodes.
const NODES: (u64, u64) = (1, 3);

/// The least and the greatest number of workers of a node.
const WORKERS: (u64, u64) = (1, 16);

/// What the arguments ask for.
#[derive(Clone, Copy, Debug, PartialEq, Eq)]
pub enum ProgramCommand {
    /// Read a log, and answer the requests after it.
    Fold,
    /// Compare two schemas.
    Sketch,
    /// Serve by `nodes` nodes with `workers` workers each: node k, from 0, listens at `port` plus
    /// k.
    Serve { port: u64, nodes: u64, workers: u64 },
    /// The words aren't a command; the usage is to be shown.
    Usage,
}

/// Returns what the words ask for; the first is the program's name.
pub fn command_of(words: &[String]) -> ProgramCommand
    ensures { result ≡ command_of (map string_bytes words.now) }
{
    match words {
        [_, word] => command_named(word.as_str()),
        [_, word, port, nodes, workers] => {
            if word.as_str() == "serve" {
                serving(
                    number_in(PORTS, port.as_bytes()),
                    number_in(NODES, nodes.as_bytes()),
                    number_in(WORKERS, workers.as_bytes()),
                )
            } else {
                ProgramCommand::Usage
            }
        }
        _ => ProgramCommand::Usage,
    }
}

/// Returns the command that a single word asks for.
fn command_named(word: &str) -> ProgramCommand
    ensures { result ≡ command_named word.now }
{
    if word == "fold" {
        ProgramCommand::Fold
    } else if word == "sketch" {
        ProgramCommand::Sketch
    } else {
        ProgramCommand::Usage
    }
}

/// Returns the command to serve if all three are numbers within their limits and each node has a
/// port.
fn serving(port: Option<u64>, nodes: Option<u64>, workers: Option<u64>) -> ProgramCommand
    ensures { result ≡ serving port nodes workers }
{
    match (port, nodes, workers) {
        (Some(port), Some(nodes), Some(workers)) => {
            if port.saturating_add(nodes) <= PORTS.1 + 1 {
                ProgramCommand::Serve {
                    port,
                    nodes,
                    workers,
                }
            } else {
                ProgramCommand::Usage
            }
        }
        _ => ProgramCommand::Usage,
    }
}

/// Returns the number that a word spells, if it is within the limits.
fn number_in(limits: (u64, u64), word: &[u8]) -> Option<u64>
    ensures { result ≡ number_in limits word.now }
{
    if !is_plain(word) {
        return None;
    }
    let number = digits_value(word);
    if limits.0 <= number && number <= limits.1 {
        Some(number)
    } else {
        None
    }
}

/// Returns whether a word is one to five decimal digits and doesn't begin with 0.
fn is_plain(word: &[u8]) -> bool
    ensures { result ≡ is_plain word.now }
{
    match word.first() {
        Some(first) => *first != b'0' && word.len() <= 5 && has_only_digits(word),
        None => false,
    }
}
