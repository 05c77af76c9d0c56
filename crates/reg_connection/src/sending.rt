// Sending what a client takes.
ghost use Rattle.std.specs.Prelude.{◌≡◌, ◌-◌, ◌<◌, ◌≤◌, ◌↔◌, true, IfOk, OnErr, drop, length, take};
ghost use Rattle.reg_connection.specs.Sending.{TakesBytes};

use crate::stream::Stream;
use std::io::{self, ErrorKind};

/// The result of one call of the system.
#[derive(Clone, Copy, Debug, PartialEq, Eq)]
enum Step {
    /// Some bytes were sent, or the call was interrupted.
    Goes,
    /// The client takes nothing now.
    Waits,
}

/// Writes the bytes from `sent` on, as far as the client takes them now, and returns whether none
/// is left. `sent` counts what the client took, in order, also at an error.
pub fn send_some<S: Stream>(stream: &mut S, bytes: &[u8], sent: &mut usize) -> io::Result<bool>
    ensures onwards { sent.old ≤ sent.new }
    ensures fits { sent.old ≤ length bytes.now → sent.new ≤ length bytes.now }
    ensures taken { TakesBytes S.took stream.old (take (sent.new - sent.old) (drop sent.old bytes.now)) stream.new }
    ensures all { IfOk result (λ all. (all ≡ true) ↔ (length bytes.now ≤ sent.new)) }
    ensures broke { OnErr result (S.broke stream.new) }
{
    'pieces: for _ in 0..bytes.len() + 1 {
        if *sent >= bytes.len() {
            return Ok(true);
        }
        match send_once(stream, bytes, sent) {
            Ok(Step::Goes) => {}
            Ok(Step::Waits) => return Ok(false),
            Err(e) => return Err(e),
        }
    }
    Ok(*sent >= bytes.len())
}

/// Writes some of the bytes that are left.
fn send_once<S: Stream>(stream: &mut S, bytes: &[u8], sent: &mut usize) -> io::Result<Step>
    requires { sent.old < length bytes.now }
    ensures onwards { sent.old ≤ sent.new }
    ensures fits { sent.new ≤ length bytes.now }
    ensures taken { S.took stream.old (take (sent.new - sent.old) (drop sent.old bytes.now)) stream.new }
    ensures waits { IfOk result (λ step. step ≡ Step.Waits → sent.new ≡ sent.old) }
    ensures broke { OnErr result (S.broke stream.new) }
{
    match stream.send(&bytes[*sent..]) {
        Ok(0) => Err(io::Error::from(ErrorKind::WriteZero)),
        Ok(n) => {
            *sent += n;
            Ok(Step::Goes)
        }
        Err(e) => match e.kind() {
            ErrorKind::WouldBlock => Ok(Step::Waits),
            ErrorKind::Interrupted => Ok(Step::Goes),
            _ => Err(e),
        },
    }
}
