// Processes over one chain, whatever their feeds are named.
use crate::chains::Handle;
use reg_feed::{Copies, FeedName, Seen};
use reg_join::{JoinKeep, JoinOutcome, JoinSubmitted, Patience, TakenIn, submit_joined, take_in};
use reg_leader::Command;
use reg_pen::{Keep, Pass, Pen};
use reg_records::Record;
use reg_shared::Shared;
use reg_topic::Item;
use std::alloc::{AllocError, Global};
use std::sync::Wait;
use test_tools::Made;

/// What tests do with processes.
pub(crate) trait Processes {
    /// What a command comes to at the process of that number; `Stopped` where there is none.
    fn do_by(&mut self, alloc: Global, number: u64, command: &Command) -> JoinOutcome;

    /// Whether each keeps exactly these records, once it took in all that was told.
    fn all_keep(&mut self, alloc: Global, records: &[Record]) -> bool;
}

/// No process.
#[derive(Drop)]
pub(crate) struct Nobody;

impl Processes for Nobody {
    fn do_by(&mut self, _alloc: Global, _number: u64, _command: &Command) -> JoinOutcome {
        JoinOutcome::Stopped
    }

    fn all_keep(&mut self, _alloc: Global, _records: &[Record]) -> bool {
        true
    }
}

/// A pen, with the pass to submit to it.
#[derive(Drop)]
pub(crate) struct Process<
    N: FeedName<Item, Shared>,
    S: Copies<Item, Shared, N>,
    K: Keep + Drop,
    R: Wait + Drop,
> {
    // In a `Box`, since a struct that holds a `Pen` over a keep of a type parameter itself gets no generated drop.
    pub(crate) pen: Box<Pen<N, S, K, R>>,
    pub(crate) pass: Pass<N>,
}

/// A process, and others. The first has the number 0.
#[derive(Drop)]
pub(crate) struct With<
    'x,
    'y,
    N: FeedName<Item, Shared>,
    S: Copies<Item, Shared, N>,
    R: Wait + Drop,
    P: Processes,
> {
    pub(crate) first: &'x mut Process<N, S, JoinKeep<Handle>, R>,
    pub(crate) others: &'y mut P,
}

impl<
    'x,
    'y,
    N: FeedName<Item, Shared>,
    S: Copies<Item, Shared, N>,
    R: Wait + Drop,
    P: Processes,
> Processes for With<'x, 'y, N, S, R, P> {
    fn do_by(&mut self, alloc: Global, number: u64, command: &Command) -> JoinOutcome {
        match number {
            0 => do_command(alloc, self.first, command),
            _ => self.others.do_by(alloc, number - 1, command),
        }
    }

    fn all_keep(&mut self, alloc: Global, records: &[Record]) -> bool {
        takes_all(alloc, self.first)
            && keeps(&mut self.first.pen, records)
            && self.others.all_keep(alloc, records)
    }
}

/// Patience without an end.
#[derive(Drop)]
struct Endless;

impl Patience for Endless {
    fn is_over(&self) -> bool {
        false
    }
}

/// What the command comes to there.
fn do_command<N: FeedName<Item, Shared>, S: Copies<Item, Shared, N>, R: Wait + Drop>(
    alloc: Global,
    process: &mut Process<N, S, JoinKeep<Handle>, R>,
    command: &Command,
) -> JoinOutcome {
    let unseen: Option<Seen<Item, Shared, N>> = None;
    let pass = &mut process.pass;
    let JoinSubmitted { outcome, seen: _ } = submit_joined(
        alloc,
        &mut process.pen,
        pass,
        unseen.as_ref(),
        command,
        None,
        &Endless,
    );
    outcome
}

/// Takes in all that was told; whether it did.
fn takes_all<N: FeedName<Item, Shared>, S: Copies<Item, Shared, N>, R: Wait + Drop>(
    alloc: Global,
    process: &mut Process<N, S, JoinKeep<Handle>, R>,
) -> bool {
    for _batch in 0..1_000_000 {
        match take_in(alloc, &mut process.pen, &mut process.pass) {
            Ok(TakenIn::Batch) => {}
            Ok(TakenIn::All) => return true,
            _ => return false,
        }
    }
    false
}

/// Whether exactly these records are kept.
fn keeps<N: FeedName<Item, Shared>, S: Copies<Item, Shared, N>, K: Keep + Drop, R: Wait + Drop>(
    pen: &mut Pen<N, S, K, R>,
    records: &[Record],
) -> bool {
    match kept_records(pen) {
        Ok(kept) => kept.as_slice() == records,
        Err(AllocError) => false,
    }
}

/// What the topic keeps, in its order.
pub(crate) fn kept_records<
    N: FeedName<Item, Shared>,
    S: Copies<Item, Shared, N>,
    K: Keep + Drop,
    R: Wait + Drop,
>(pen: &mut Pen<N, S, K, R>) -> Made<Vec<Record>> {
    let Ok(mut topic) = pen.reader() else {
        return Err(AllocError);
    };
    match topic.read(|shared| shared.since(0)) {
        Some(records) => records,
        None => Err(AllocError),
    }
}
