// A command over a chain.
ghost use Rattle.std.specs.Prelude.{◌≡◌, [], IfOk, MatchOption, None};
ghost use mathlib.Core.List.{IsPrefix};
ghost use Rattle.reg_shared.specs.Held.{base_of};
ghost use Rattle.reg_join.specs.Ending.{ComesTo, Concludes, Ends, batch_outcome, check_outcome, forgotten, live_outcome, settled_outcome, unchecked_outcome};
ghost use Rattle.reg_join.specs.Joined.{IsJoined};
ghost use Rattle.reg_join.specs.Taking.{GoesOn, IsAtEnd, StopsAtNobodys};
ghost use Rattle.reg_join.specs.declared.join_keep.Stand.TheVariants.{Level};

use crate::checking::check_chain;
use crate::join_keep::JoinKeep;
use crate::memory::is_no_memory;
use crate::taking::{TakenIn, take_in};
use reg_chain::{Chain, ChainAnswer};
use reg_feed::{Copies, FeedName, Seen};
use reg_leader::{Command, Reply};
use reg_levels::Judged;
use reg_pen::{Pass, Pen, Submitted, WithKeep};
use reg_shared::Shared;
use reg_topic::Item;
use std::alloc::{AllocError, Global};
use std::sync::Wait;

/// How often a command is decided at most.
const TRIES: u32 = 64;

/// How many batches of others are taken in at most before a command is decided. If there are more,
/// the command counts as overtaken once.
const TAKEN_AT_ONCE: u32 = 1_024;

/// The outcome of a command.
#[derive(Debug, Drop)]
pub enum JoinOutcome {
    /// The reply to the command, decided on all that the chain had. What it wrote is right behind
    /// that; if it wrote nothing, the chain was asked and had nothing more.
    Replied(Reply),
    /// The command wrote a batch that begins at this offset and isn't published yet: the chain has
    /// it and memory was refused, or it can't be known now whether the chain has it. If it does, it
    /// will be told like anybody's batch.
    Unsettled(u64),
    /// A registration of a schema that is live here with this id. The chain can't be reached, so
    /// writes that weren't told may come before this answer; the id names this schema for good.
    Live(u32),
    /// Memory was refused, and no part of the command's batch is kept.
    NoMemory,
    /// Batches of others came first each time.
    Overtaken,
    /// The store declined the batch, or can't be reached.
    Declined,
    /// The chain told a batch that no command writes, so nothing is taken any more, for good.
    Stopped,
}

/// The outcome of a command, with the prefix of the list that shows it.
#[derive(Drop)]
pub struct JoinSubmitted<N: FeedName<Item, Shared>> {
    /// The outcome.
    pub outcome: JoinOutcome,
    /// The published list after the submit, with what the command wrote if that is published;
    /// `None` if it wasn't submitted.
    pub seen: Option<Seen<Item, Shared, N>>,
}

/// How long a command is tried.
pub trait Patience {
    /// Returns whether a command that others overtook shall not be decided once more.
    fn is_over(&self) -> bool;
}

/// Carries out a command over a chain: takes in all that was told, submits the command, and asks
/// the chain for a check if the command wrote nothing. If batches of others came first, the command
/// is decided again, 64 times at most and as long as `patience` lasts. At most 1,024 batches of
/// others are taken in before each try, so the call ends however much is told. `since` is the
/// prefix that the caller saw last.
pub fn submit_joined<
    N: FeedName<Item, Shared>,
    S: Copies<Item, Shared, N>,
    C: Chain + Drop,
    R: Wait + Drop,
    P: Patience,
>(
    alloc: Global,
    pen: &mut Pen<N, S, JoinKeep<C>, R>,
    pass: &mut Pass<N>,
    since: Option<&Seen<Item, Shared, N>>,
    command: &Command,
    judged: Option<&Judged>,
    patience: &P,
) -> JoinSubmitted<N>
    ensures joined { IsJoined C.told pen.old → IsJoined C.told pen.new }
    ensures grows { IsPrefix pen.old.published pen.new.published }
    ensures ends { IsJoined C.told pen.old → Ends C.told C.answers (base_of N.first) pen.old command.now result.outcome result.seen pen.new }
    ensures stops { IsJoined C.told pen.old → StopsAtNobodys C.told (base_of N.first) pen.old → StopsAtNobodys C.told (base_of N.first) pen.new }
{
    for _again in 0..TRIES {
        match try_once(alloc, pen, pass, since, command, judged) {
            Some(ended) => return ended,
            None => {}
        }
        if patience.is_over() {
            return without_front(JoinOutcome::Overtaken);
        }
    }
    without_front(JoinOutcome::Overtaken)
}

/// Takes in what was told, and decides the command once; `None` if batches of others came first.
fn try_once<N: FeedName<Item, Shared>, S: Copies<Item, Shared, N>, C: Chain + Drop, R: Wait + Drop>(
    alloc: Global,
    pen: &mut Pen<N, S, JoinKeep<C>, R>,
    pass: &mut Pass<N>,
    since: Option<&Seen<Item, Shared, N>>,
    command: &Command,
    judged: Option<&Judged>,
) -> Option<JoinSubmitted<N>>
    ensures joined { IsJoined C.told pen.old → IsJoined C.told pen.new }
    ensures grows { IsPrefix pen.old.published pen.new.published }
    ensures ends { IsJoined C.told pen.old → MatchOption result (pen.new.keep.kept ≡ pen.old.keep.kept) (λ ended. Ends C.told C.answers (base_of N.first) pen.old command.now ended.outcome ended.seen pen.new) }
    ensures stops { IsJoined C.told pen.old → StopsAtNobodys C.told (base_of N.first) pen.old → StopsAtNobodys C.told (base_of N.first) pen.new }
{
    match take_all(alloc, pen, pass) {
        Ok(TakenIn::All) => submit_once(pen, pass, since, command, judged),
        Ok(TakenIn::Batch) => None,
        Ok(TakenIn::Stopped) => Some(without_front(JoinOutcome::Stopped)),
        Err(AllocError) => Some(without_front(JoinOutcome::NoMemory)),
    }
}

fn without_front<N: FeedName<Item, Shared>>(outcome: JoinOutcome) -> JoinSubmitted<N>
    ensures outcome { result.outcome ≡ outcome }
    ensures seen { result.seen ≡ None }
{
    JoinSubmitted {
        outcome,
        seen: None,
    }
}

/// Takes in what was told, at most 1,024 batches. Returns `Batch` if there may be more. The only
/// error is out of memory.
#[tactic(auto, using(crate::proofs::TakingIn::goes_on_itself, crate::proofs::TakingIn::goes_on_then, crate::proofs::Trying::at_end))]
fn take_all<N: FeedName<Item, Shared>, S: Copies<Item, Shared, N>, C: Chain + Drop, R: Wait + Drop>(
    alloc: Global,
    pen: &mut Pen<N, S, JoinKeep<C>, R>,
    pass: &mut Pass<N>,
) -> Result<TakenIn, AllocError>
    ensures goes_on { GoesOn C.told pen.old pen.new }
    ensures ends { IfOk result (λ taken. IsAtEnd taken pen.new) }
    ensures stops { IsJoined C.told pen.old → StopsAtNobodys C.told (base_of N.first) pen.old → StopsAtNobodys C.told (base_of N.first) pen.new }
{
    for _batch in 0..TAKEN_AT_ONCE {
        let taken = take_in(alloc, pen, pass)?;
        if taken != TakenIn::Batch {
            return Ok(taken);
        }
    }
    Ok(TakenIn::Batch)
}

/// Submits the command; all that was told is taken in. If the command wrote nothing, the chain is
/// asked for a check. `None` if batches of others came first.
fn submit_once<
    N: FeedName<Item, Shared>,
    S: Copies<Item, Shared, N>,
    C: Chain + Drop,
    R: Wait + Drop,
>(
    pen: &mut Pen<N, S, JoinKeep<C>, R>,
    pass: &mut Pass<N>,
    since: Option<&Seen<Item, Shared, N>>,
    command: &Command,
    judged: Option<&Judged>,
) -> Option<JoinSubmitted<N>>
    requires level { pen.old.keep.stand ≡ Level }
    requires clear { pen.old.pending ≡ [] }
    ensures joined { IsJoined C.told pen.old → IsJoined C.told pen.new }
    ensures grows { IsPrefix pen.old.published pen.new.published }
    ensures ends { IsJoined C.told pen.old → MatchOption result (pen.new.keep.kept ≡ pen.old.keep.kept) (λ ended. ComesTo C.told C.answers (base_of N.first) ended.outcome (forgotten pen.old) command.now ended.seen pen.new.keep) }
    ensures level { pen.new.keep.stand ≡ Level }
{
    pen.lend_keep(&mut Forgetting);
    let Submitted { reply, seen } = pen.submit_and_compact(pass, since, command, judged);
    match conclude(pen, command, reply) {
        Some(outcome) => Some(JoinSubmitted {
            outcome,
            seen: Some(seen),
        }),
        None => None,
    }
}

/// Returns the outcome of a submit by the chain's answer to its batch. If it wrote none and memory
/// wasn't refused, the chain is asked for a check.
fn conclude<N: FeedName<Item, Shared>, S: Copies<Item, Shared, N>, C: Chain + Drop, R: Wait + Drop>(
    pen: &mut Pen<N, S, JoinKeep<C>, R>,
    command: &Command,
    reply: Reply,
) -> Option<JoinOutcome>
    ensures concludes { Concludes C.told C.answers (base_of N.first) pen.old.keep.last pen.old.keep command.now reply result pen.new.keep }
    ensures joined { IsJoined C.told pen.old → IsJoined C.told pen.new }
    ensures grows { IsPrefix pen.old.published pen.new.published }
{
    match pen.keep().last() {
        Some(answer) => batch_outcome(answer, reply),
        None => conclude_alone(pen, command, reply),
    }
}

/// Returns the outcome of a submit that wrote nothing.
fn conclude_alone<
    N: FeedName<Item, Shared>,
    S: Copies<Item, Shared, N>,
    C: Chain + Drop,
    R: Wait + Drop,
>(pen: &mut Pen<N, S, JoinKeep<C>, R>, command: &Command, reply: Reply) -> Option<JoinOutcome>
    ensures concludes { Concludes C.told C.answers (base_of N.first) None pen.old.keep command.now reply result pen.new.keep }
    ensures joined { IsJoined C.told pen.old → IsJoined C.told pen.new }
    ensures grows { IsPrefix pen.old.published pen.new.published }
{
    if is_no_memory(&reply) {
        return Some(JoinOutcome::NoMemory);
    }
    let answer = check_chain(pen);
    check_outcome(answer, command, reply)
}

fn batch_outcome(answer: ChainAnswer, reply: Reply) -> Option<JoinOutcome>
    ensures { result ≡ batch_outcome answer reply }
{
    match answer {
        ChainAnswer::Kept | ChainAnswer::Unknown => Some(settled_outcome(reply)),
        ChainAnswer::Behind => None,
        ChainAnswer::Declined => Some(JoinOutcome::Declined),
    }
}

fn settled_outcome(reply: Reply) -> JoinOutcome
    ensures { result ≡ settled_outcome reply }
{
    match reply {
        Reply::Unsettled(offset) => JoinOutcome::Unsettled(offset),
        reply => JoinOutcome::Replied(reply),
    }
}

fn check_outcome(answer: ChainAnswer, command: &Command, reply: Reply) -> Option<JoinOutcome>
    ensures { result ≡ check_outcome answer command.now reply }
{
    match answer {
        ChainAnswer::Kept => Some(JoinOutcome::Replied(reply)),
        ChainAnswer::Behind => None,
        ChainAnswer::Declined | ChainAnswer::Unknown => Some(unchecked_outcome(command, &reply)),
    }
}

/// Returns the outcome if a check is declined: the id, for a registration of a schema that is live
/// here.
fn unchecked_outcome(command: &Command, reply: &Reply) -> JoinOutcome
    ensures { result ≡ unchecked_outcome command.now reply.now }
{
    match command {
        Command::Register { .. } => live_outcome(reply),
        _ => JoinOutcome::Declined,
    }
}

fn live_outcome(reply: &Reply) -> JoinOutcome
    ensures { result ≡ live_outcome reply.now }
{
    match reply {
        Reply::Id(id) => JoinOutcome::Live(*id),
        _ => JoinOutcome::Declined,
    }
}

/// Makes a keep forget the chain's last answer.
#[derive(Drop)]
struct Forgetting;

impl<C: Chain + Drop> WithKeep<JoinKeep<C>> for Forgetting {
    ghost does = { λ _ old _ new. new ≡ record old { last = None } };

    fn with_keep(&mut self, keep: &mut JoinKeep<C>) {
        keep.forget();
    }
}
