// Who has a turn of a node's workers, and who waits for one.
ghost use Rattle.std.specs.Prelude.{◌≡◌, ◌<◌, false};
ghost use Rattle.std.specs.VecDeque.{deque_len};
ghost use Rattle.reg_connection.specs.declared.turn_kinds.TurnKind.TheVariants as kinds;
ghost use Rattle.reg_serve.specs.Turns.{is_free};
ghost use Rattle.reg_serve.specs.Waiting.{TakesUp};

use crate::taken::TurnCounts;
use reg_connection::TurnKind;
use std::alloc::{AllocError, AllocFailed, Global};
use std::collections::VecDeque;

/// The turns of a node, and who waits for one of each kind, in the order in which they came. None waits for a turn
/// that is free.
#[derive(Drop)]
pub struct Queues<C: Drop> {
    taken: TurnCounts,
    commands: VecDeque<C>,
    checks: VecDeque<C>,
    ghost commands_wait: { 0 < deque_len commands → is_free kinds.Command taken ≡ false },
    ghost checks_wait: { 0 < deque_len checks → is_free kinds.Check taken ≡ false },
}

impl<C: Drop> Queues<C> {
    ghost use Rattle.std.specs.Prelude.{◌≡◌, false, IfOk, OnOk, ◌++◌, ◌∷◌, []};
    ghost use Rattle.std.specs.Bool.{OnFalse, OnTrue};
    ghost use Rattle.reg_serve.specs.Turns.{is_free, none_taken, with_one_more};
    ghost use Rattle.reg_serve.specs.Queues.{EndsTurn, waiting_of};

    /// No turn is taken, and nobody waits. There is room for so many to wait for each.
    pub fn new(alloc: Global, workers: usize, room: usize) -> Result<Queues<C>, AllocError>
        ensures { IfOk result (λ made. made.taken ≡ none_taken workers) }
    {
        Ok(Queues {
            taken: TurnCounts::none(workers),
            commands: VecDeque::with_capacity(alloc, room)?,
            checks: VecDeque::with_capacity(alloc, room)?,
        })
    }

    /// Takes a turn, if one is free.
    pub fn begin(&mut self, kind: TurnKind) -> bool
        ensures free { result ≡ is_free kind self.old.taken }
        ensures begun { OnTrue result (self.new.taken ≡ with_one_more kind self.old.taken) }
        ensures refused { OnFalse result (self.new.taken ≡ self.old.taken) }
        ensures commands { self.new.commands.items ≡ self.old.commands.items }
        ensures checks { self.new.checks.items ≡ self.old.checks.items }
    {
        if self.taken.is_free(kind) {
            self.taken.begin(kind);
            true
        } else {
            false
        }
    }

    /// Has one wait behind those that wait for such a turn, of which none is free.
    pub fn wait(&mut self, kind: TurnKind, next: C) -> Result<(), AllocFailed<C>>
        requires { is_free kind self.old.taken ≡ false }
        ensures taken { self.new.taken ≡ self.old.taken }
        ensures waits { OnOk result (waiting_of kind self.new ≡ waiting_of kind self.old ++ next ∷ []) }
    {
        match kind {
            TurnKind::Command => self.commands.push_back(next),
            TurnKind::Check => self.checks.push_back(next),
        }
    }

    /// A turn is taken no longer. Gives who goes on with a turn, and of which kind: who has waited longest for one of the
    /// same kind, or else for one of the other, if that is free now.
    pub fn end(&mut self, kind: TurnKind) -> Option<(TurnKind, C)>
        ensures { EndsTurn kind self.old self.new result }
    {
        match kind {
            TurnKind::Command => match self.commands.pop_front() {
                Some(next) => Some((TurnKind::Command, next)),
                None => {
                    self.taken.end(TurnKind::Command);
                    take_up(&mut self.taken, TurnKind::Check, &mut self.checks)
                }
            },
            TurnKind::Check => match self.checks.pop_front() {
                Some(next) => Some((TurnKind::Check, next)),
                None => {
                    self.taken.end(TurnKind::Check);
                    take_up(&mut self.taken, TurnKind::Command, &mut self.commands)
                }
            },
        }
    }
}

/// Gives a turn, if it is free, to who has waited longest for it.
fn take_up<C: Drop>(
    taken: &mut TurnCounts,
    kind: TurnKind,
    waiting: &mut VecDeque<C>,
) -> Option<(TurnKind, C)>
    ensures { TakesUp kind taken.old taken.new waiting.old.items waiting.new.items result }
{
    if !taken.is_free(kind) {
        return None;
    }
    match waiting.pop_front() {
        Some(next) => {
            taken.begin(kind);
            Some((kind, next))
        }
        None => None,
    }
}
