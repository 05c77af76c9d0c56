// Taking in what others wrote.
ghost use Rattle.std.specs.Prelude.{◌≡◌, ◌++◌, [], List, IfOk, OnOk};
ghost use Rattle.reg_records.specs.declared.record.Record.{Record};
ghost use Rattle.reg_shared.specs.Held.{base_of};
ghost use Rattle.reg_join.specs.Joined.{IsJoined, batches_of};
ghost use Rattle.reg_join.specs.Joining.{IsNotAsked, KeepsTaken};
ghost use Rattle.reg_join.specs.Memory.{is_no_memory};
ghost use Rattle.reg_join.specs.Taking.{GoesOn, IsCandidate, StopsAtNobodys, Takes, Tells, TellsTaken};
ghost use Rattle.reg_join.specs.declared.join_keep.Stand.TheVariants.{Due, Stopped};

use crate::join_keep::{JoinKeep, Stand};
use crate::memory::is_no_memory;
use reg_chain::Chain;
use reg_feed::{Copies, FeedName, Seen};
use reg_leader::{Command, steps_are_single};
use reg_pen::{Pass, Pen, WithKeep};
use reg_replay::{batches_are_of_candidates, candidate};
use reg_shared::Shared;
use reg_topic::Item;
use std::alloc::{AllocError, Global};
use std::sync::Wait;

/// The result of taking in what was told next.
#[derive(Clone, Copy, Debug, PartialEq, Eq)]
pub enum TakenIn {
    /// One batch was taken.
    Batch,
    /// All that was told is taken.
    All,
    /// The chain told a batch that no command writes: nothing is taken any more.
    Stopped,
}

/// What was told next.
#[derive(Drop)]
enum Next {
    /// Nothing.
    Nothing,
    /// A batch; if any command wrote it, this one did.
    Command(Command),
    /// A batch that no command wrote, or the keep has stopped.
    NoCommand,
}

/// Takes in the next batch that others wrote, if one is told: submits the command that may have
/// written it, and the keep takes exactly that batch. If the command writes another batch or none,
/// no command wrote the told one, and nothing is taken any more.
///
/// The only error is out of memory; the next call tries the same batch again, and nothing behind it
/// is taken before.
#[tactic(auto, using(crate::proofs::TakingIn::goes_on_then, crate::proofs::TakingIn::takes_after, crate::proofs::TakingIn::tells_taken))]
pub fn take_in<
    N: FeedName<Item, Shared>,
    S: Copies<Item, Shared, N>,
    C: Chain + Drop,
    R: Wait + Drop,
>(
    alloc: Global,
    pen: &mut Pen<N, S, JoinKeep<C>, R>,
    pass: &mut Pass<N>,
) -> Result<TakenIn, AllocError>
    ensures goes_on { GoesOn C.told pen.old pen.new }
    ensures taken { IfOk result (λ taken. Takes taken pen.old pen.new) }
    ensures told { IfOk result (λ taken. IsJoined C.told pen.old → TellsTaken C.told taken pen.old pen.new) }
    ensures stops { IsJoined C.told pen.old → StopsAtNobodys C.told (base_of N.first) pen.old → StopsAtNobodys C.told (base_of N.first) pen.new }
{
    learn_next(pen)?;
    match next_command(alloc, pen)? {
        Next::Nothing => Ok(TakenIn::All),
        Next::NoCommand => {
            stop(pen);
            Ok(TakenIn::Stopped)
        }
        Next::Command(command) => take(pen, pass, &command),
    }
}

/// Publishes what is pending, and learns of what was told next. The only error is out of memory.
fn learn_next<
    N: FeedName<Item, Shared>,
    S: Copies<Item, Shared, N>,
    C: Chain + Drop,
    R: Wait + Drop,
>(pen: &mut Pen<N, S, JoinKeep<C>, R>) -> Result<(), AllocError>
    ensures goes_on { GoesOn C.told pen.old pen.new }
    ensures same { batches_of pen.new ≡ batches_of pen.old }
    ensures clear { OnOk result (pen.new.pending ≡ []) }
    ensures stops { StopsAtNobodys C.told (base_of N.first) pen.old → StopsAtNobodys C.told (base_of N.first) pen.new }
{
    if !pen.settle() {
        return Err(AllocError);
    }
    let mut learning = Learning { is_refused: false };
    pen.lend_keep(&mut learning);
    if learning.is_refused {
        return Err(AllocError);
    }
    Ok(())
}

/// Returns the command that may have written what was told next. The only error is out of memory.
fn next_command<
    N: FeedName<Item, Shared>,
    S: Copies<Item, Shared, N>,
    C: Chain + Drop,
    R: Wait + Drop,
>(alloc: Global, pen: &Pen<N, S, JoinKeep<C>, R>) -> Result<Next, AllocError>
    requires { pen.now.pending ≡ [] }
    ensures { IfOk result (λ next. Tells (base_of N.first) next pen.now) }
{
    batches_are_of_candidates();
    match pen.keep().stand() {
        Stand::Level => Ok(Next::Nothing),
        Stand::Stopped => Ok(Next::NoCommand),
        Stand::Due(batch) => match candidate(alloc, pen.registry(), batch.as_slice())? {
            Some(command) => Ok(Next::Command(command)),
            None => Ok(Next::NoCommand),
        },
    }
}

/// Submits the command that may have written the batch that is due. The only error is out of
/// memory.
fn take<N: FeedName<Item, Shared>, S: Copies<Item, Shared, N>, C: Chain + Drop, R: Wait + Drop>(
    pen: &mut Pen<N, S, JoinKeep<C>, R>,
    pass: &mut Pass<N>,
    command: &Command,
) -> Result<TakenIn, AllocError>
    requires due { (due : List Record) × (pen.old.keep.stand ≡ Due due) × IsCandidate (base_of N.first) (pen.old.published ++ pen.old.pending) command.now due }
    requires clear { pen.old.pending ≡ [] }
    ensures goes_on { GoesOn C.told pen.old pen.new }
    ensures taken { IfOk result (λ taken. Takes taken pen.old pen.new) }
    ensures stops { IsJoined C.told pen.old → StopsAtNobodys C.told (base_of N.first) pen.new }
{
    steps_are_single();
    let unseen: Option<Seen<Item, Shared, N>> = None;
    let submitted = pen.submit_and_compact(pass, unseen.as_ref(), command, None);
    match pen.keep().stand() {
        Stand::Level => Ok(TakenIn::Batch),
        Stand::Stopped => Ok(TakenIn::Stopped),
        Stand::Due(_) => {
            if is_no_memory(&submitted.reply) {
                return Err(AllocError);
            }
            // The command wrote nothing here.
            stop(pen);
            Ok(TakenIn::Stopped)
        }
    }
}

/// Stops the pen's keep for good.
fn stop<N: FeedName<Item, Shared>, S: Copies<Item, Shared, N>, C: Chain + Drop, R: Wait + Drop>(
    pen: &mut Pen<N, S, JoinKeep<C>, R>,
)
    ensures goes_on { GoesOn C.told pen.old pen.new }
    ensures same { batches_of pen.new ≡ batches_of pen.old }
    ensures stopped { pen.new.keep ≡ record pen.old.keep { stand = Stopped } }
{
    pen.lend_keep(&mut Stopping);
}

/// Makes a keep learn of what was told next.
#[derive(Drop)]
struct Learning {
    is_refused: bool,
}

impl<C: Chain + Drop> WithKeep<JoinKeep<C>> for Learning {
    ghost does = { λ _ old _ new. KeepsTaken C.told old new × IsNotAsked old new × (new.stand ≡ Stopped → new ≡ old) };

    fn with_keep(&mut self, keep: &mut JoinKeep<C>) {
        self.is_refused = keep.learn().is_err();
    }
}

/// Stops a keep.
#[derive(Drop)]
struct Stopping;

impl<C: Chain + Drop> WithKeep<JoinKeep<C>> for Stopping {
    ghost does = { λ _ old _ new. KeepsTaken C.told old new × IsNotAsked old new × (new ≡ record old { stand = Stopped }) };

    fn with_keep(&mut self, keep: &mut JoinKeep<C>) {
        keep.stop();
    }
}
