// Requests as a writer takes them.
use crate::end::LineEnd;
use crate::line::AdapterLine;
use crate::overhearing::{Overhear, asked_by};
use std::io::{self, Write};
use std::sync::Wait;
use std::time::Clock;

/// Writes each request whole, one at a time, until the line is over. Each is passed to `overhear`
/// before it is written. A fault of the writer ends the line.
pub fn send_requests<W: Write, R: Wait + Clock, H: Overhear>(
    rt: &R,
    writer: &mut W,
    line: &AdapterLine,
    overhear: &H,
) {
    for _ in rt.forever() {
        let Some(bytes) = line.wait_for_request(rt) else {
            break;
        };
        overhear.asked(asked_by(&bytes));
        line.stalls.begin_request(rt);
        if let Err(error) = send(writer, &bytes) {
            line.end_with(rt, LineEnd::Output(error.kind()));
        }
        line.stalls.end_request(rt);
    }
}

/// Writes a request, and hands it over.
fn send<W: Write>(writer: &mut W, bytes: &[u8]) -> io::Result<()> {
    writer.write_all(bytes)?;
    writer.flush()
}
