// How many turns of each kind are taken.
ghost use Rattle.std.specs.Prelude.{◌≡◌, ℕ, ◌+◌, ◌<◌, ◌≤◌, true};
ghost use Rattle.reg_connection.specs.declared.turn_kinds.TurnKind.{TurnKind};
ghost use Rattle.reg_serve.specs.Turns.{Counts, IsWithin, is_free, most_at_both, most_at_one, none_taken, taken_of, with_one_less, with_one_more};

use reg_connection::TurnKind;
use std::marker::Model;

/// How many workers a node has, and how many of them have a turn of each kind.
#[derive(Debug, Drop)]
pub struct TurnCounts {
    workers: usize,
    commands: usize,
    checks: usize,
}

impl Model for TurnCounts {
    ghost use Rattle.reg_serve.specs.Turns.{Counts, IsWithin};

    ghost Value = { Counts };

    ghost view = { λ t. record { workers = t.workers; commands = t.commands; checks = t.checks } };

    ghost invariant = { λ t. IsWithin (record { workers = t.workers; commands = t.commands; checks = t.checks }) };
}

impl TurnCounts {
    /// None is taken.
    pub fn none(workers: usize) -> TurnCounts
        ensures { result ≡ none_taken workers }
    {
        TurnCounts {
            workers,
            commands: 0,
            checks: 0,
        }
    }

    /// Whether a turn of that kind is free.
    pub fn is_free(&self, kind: TurnKind) -> bool
        ensures free { result ≡ is_free kind self.now }
        ensures within { IsWithin self.now }
    {
        let taken = match kind {
            TurnKind::Command => self.commands,
            TurnKind::Check => self.checks,
        };
        taken < most_at_one(self.workers)
            && self.commands + self.checks < most_at_both(self.workers)
    }

    /// A turn is taken, which is free.
    pub fn begin(&mut self, kind: TurnKind)
        requires { is_free kind self.old ≡ true }
        ensures { self.new ≡ with_one_more kind self.old }
    {
        match kind {
            TurnKind::Command => self.commands += 1,
            TurnKind::Check => self.checks += 1,
        }
    }

    /// A turn is taken no longer.
    pub fn end(&mut self, kind: TurnKind)
        ensures { self.new ≡ with_one_less kind self.old }
    {
        match kind {
            TurnKind::Command => self.commands = self.commands.saturating_sub(1),
            TurnKind::Check => self.checks = self.checks.saturating_sub(1),
        }
    }
}

/// The most workers, of so many, that are at requests of one kind.
fn most_at_one(workers: usize) -> usize
    ensures { result ≡ most_at_one workers }
{
    workers.saturating_sub(2).max(1)
}

/// The most that are at requests of both kinds.
fn most_at_both(workers: usize) -> usize
    ensures { result ≡ most_at_both workers }
{
    workers.saturating_sub(1).max(2)
}

/// Of three workers or more one has no turn, and a turn is free of a kind of which none is taken, however many of the other are.
pub fn turns_leave_a_worker()
    ensures left { (taken : Counts) → IsWithin taken → 3 ≤ taken.workers → taken.commands + taken.checks < taken.workers }
    ensures apart { (kind : TurnKind) (taken : Counts) → IsWithin taken → taken_of kind taken ≡ 0 → is_free kind taken ≡ true }
{}
