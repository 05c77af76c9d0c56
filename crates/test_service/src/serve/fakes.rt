// Desks that tell what they know.
use crate::asking::await_number;
use base_text::Text;
use reg_conversation::SharedDesk;
use reg_http::Desk;
use reg_leader::{Command, Reply};
use reg_lookup::{Answer, Query};
use std::alloc::Global;
use std::sync::atomic::{AtomicBool, AtomicU64, Ordering};
use std::time::Clock;
use test_tools::Made;

/// What the desks of a test share: how many commands there were, and what is let go.
#[derive(Drop)]
pub(crate) struct Ledger {
    pub(crate) commands: AtomicU64,
    /// Whether commands, and checks, are let go: 1, or 0 while they are held up.
    pub(crate) go_commands: AtomicU64,
    pub(crate) go_checks: AtomicU64,
    /// Whether the node is to end.
    pub(crate) over: AtomicBool,
}

impl Ledger {
    /// Nothing is held up.
    pub(crate) fn new() -> Ledger {
        Ledger {
            commands: AtomicU64::new(0),
            go_commands: AtomicU64::new(1),
            go_checks: AtomicU64::new(1),
            over: AtomicBool::new(false),
        }
    }
}

/// A desk that answers the schema of an id by that number, the mode by a million bytes, and any other query
/// by the greatest number that it knows: each command is numbered. Commands and checks wait while they are held up.
#[derive(Drop)]
pub(crate) struct EchoDesk<'a, R: Clock> {
    rt: &'a R,
    known: u64,
    ledger: &'a Ledger,
}

impl<'a, R: Clock> EchoDesk<'a, R> {
    /// A desk that knows no command yet.
    pub(crate) fn new(rt: &'a R, ledger: &'a Ledger) -> EchoDesk<'a, R> {
        EchoDesk {
            rt,
            known: 0,
            ledger,
        }
    }
}

fn answer_of(alloc: Global, text: &str) -> Made<Answer> {
    Ok(Answer {
        status: 200,
        body: Text::copy_of(alloc, text)?,
    })
}

fn number_answer(alloc: Global, number: u64) -> Made<Answer> {
    let text = format!(in alloc; "[{number}]")?;
    answer_of(alloc, text.as_str())
}

fn long_answer(alloc: Global) -> Made<Answer> {
    answer_of(alloc, "xxxxxxxxxx".repeat(alloc, 100_000)?.as_str())
}

impl<R: Clock> Desk for EchoDesk<'_, R> {
    ghost use Rattle.std.specs.Prelude.{⊤};

    ghost asks = { λ _ _ _ _. ⊤ };

    ghost commands = { λ _ _ _ _. ⊤ };

    fn ask(&mut self, alloc: Global, query: &Query) -> Made<Answer> {
        match query {
            Query::SchemaById { id } => number_answer(alloc, u64::from(*id)),
            Query::Mode { .. } => long_answer(alloc),
            Query::Check { .. } => {
                await_number(self.rt, &self.ledger.go_checks, 1);
                number_answer(alloc, self.known)
            }
            _ => number_answer(alloc, self.known),
        }
    }

    fn command(&mut self, _command: &Command) -> Reply {
        await_number(self.rt, &self.ledger.go_commands, 1);
        let before = self.ledger.commands.fetch_add(1, Ordering::SeqCst);
        self.known = before.saturating_add(1);
        Reply::Nothing
    }
}

impl<R: Clock> SharedDesk for EchoDesk<'_, R> {
    ghost use Rattle.std.specs.Prelude.{⊤};

    type Standing = u64;

    ghost stands = { λ _ _. ⊤ };

    ghost learns = { λ _ _ _. ⊤ };

    fn standing(&self) -> u64 {
        self.known
    }

    fn learn(&mut self, standing: &u64) {
        self.known = self.known.max(*standing);
    }
}
