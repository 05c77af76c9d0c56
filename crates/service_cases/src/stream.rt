// Streams by a script.
use reg_connection::Stream;
use std::alloc::Global;
use std::cell::Cell;
use std::io::{self, ErrorKind};
use test_tools::{CaseError, Said, bytes_of};

/// What a read of a fake stream meets.
#[derive(Drop)]
pub(crate) enum Step {
    Gives(Vec<u8>),
    /// Nothing is there yet.
    Nothing,
    Interrupted,
    /// The client has ended its side.
    Ended,
    /// The connection is reset.
    Reset,
}

/// The steps of a text, with ` & ` between two.
pub(crate) fn steps_of(alloc: Global, text: &str) -> Said<Vec<Step>> {
    let mut steps = Vec::new(alloc);
    for part in text.split(" & ") {
        let step = match part {
            "(nothing)" => Step::Nothing,
            "(interrupted)" => Step::Interrupted,
            "(ended)" => Step::Ended,
            "(reset)" => Step::Reset,
            _ if part.is_empty() || part.starts_with("(") => return Err(CaseError::NotUnderstood),
            _ => Step::Gives(bytes_of(alloc, part)?),
        };
        steps.push(step)?;
    }
    Ok(steps)
}

/// What a client takes.
#[derive(Drop)]
pub(crate) struct Taker {
    /// How many bytes it still takes.
    pub(crate) room: Cell<usize>,
    /// How many bytes it took.
    pub(crate) taken: Cell<usize>,
    /// Whether it was told that nothing more will be written.
    pub(crate) is_told: Cell<bool>,
}

impl Taker {
    /// A client that has taken nothing, and takes nothing yet.
    pub(crate) fn new() -> Taker {
        Taker {
            room: Cell::new(0),
            taken: Cell::new(0),
            is_told: Cell::new(false),
        }
    }
}

/// A client that does these steps, the last one again and again.
#[derive(Clone, Copy)]
pub(crate) struct Client<'a> {
    pub(crate) steps: &'a [Step],
    pub(crate) taker: &'a Taker,
}

/// A client's connection.
#[derive(Drop)]
pub(crate) struct FakeStream<'a> {
    client: Client<'a>,
    at: Cell<usize>,
}

impl<'a> FakeStream<'a> {
    pub(crate) fn new(client: Client<'a>) -> FakeStream<'a> {
        FakeStream {
            client,
            at: Cell::new(0),
        }
    }
}

impl Stream for FakeStream<'_> {
    ghost use Rattle.std.specs.Prelude.{⊤};

    ghost took = { λ _ _ _. ⊤ };

    ghost broke = { λ _. ⊤ };

    fn receive(&self, buf: &mut [u8]) -> io::Result<usize> {
        let at = self.at.get();
        let next = at.saturating_add(1);
        if next < self.client.steps.len() {
            self.at.set(next);
        }
        match self.client.steps.get(at) {
            Some(Step::Gives(bytes)) => {
                let n = bytes.len().min(buf.len());
                buf[..n].copy_from_slice(&bytes[..n]);
                Ok(n)
            }
            Some(Step::Interrupted) => Err(io::Error::from(ErrorKind::Interrupted)),
            Some(Step::Ended) => Ok(0),
            Some(Step::Reset) => Err(io::Error::from(ErrorKind::ConnectionReset)),
            Some(Step::Nothing) | None => Err(io::Error::from(ErrorKind::WouldBlock)),
        }
    }

    fn send(&mut self, buf: &[u8]) -> io::Result<usize> {
        let taker = self.client.taker;
        let n = taker.room.get().min(buf.len());
        if n == 0 {
            return Err(io::Error::from(ErrorKind::WouldBlock));
        }
        taker.room.set(taker.room.get().saturating_sub(n));
        taker.taken.set(taker.taken.get().saturating_add(n));
        Ok(n)
    }

    fn end_writing(&self) -> io::Result<()> {
        self.client.taker.is_told.set(true);
        Ok(())
    }

    fn set_patient(&self, _patient: bool) -> io::Result<()> {
        Ok(())
    }
}
