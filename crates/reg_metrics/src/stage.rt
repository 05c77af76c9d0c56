// How far a process is.
ghost use Rattle.std.specs.Prelude.{◌≡◌, ◌↔◌, true, false};
ghost use Rattle.reg_metrics.specs.Stages.{IsClear};

use reg_meters::Mark;

/// How far a process is with its log.
#[derive(Clone, Copy, Debug, PartialEq, Eq)]
pub enum Stage {
    /// Nodes don't listen yet.
    Starting,
    /// Nodes listen.
    Ready,
    /// It isn't known whether a batch is kept: commands are refused until the process is restarted.
    Lost,
    /// Every command is declined until the process is restarted: at its start the disk had no room
    /// for what had to be written.
    Declined,
    /// The log has no line left for a batch, so commands are declined.
    Full,
    /// The next part of the log comes from no command: nothing more is taken in, and commands are
    /// declined.
    Unlawful,
    /// The store of the log can't be reached.
    Unreachable,
    /// The lines of the followed log have ended: nodes go on with what they have.
    Ended,
}

impl Stage {
    /// Returns the stage in one word.
    pub fn word(self) -> &'static str {
        match self {
            Stage::Starting => "starting",
            Stage::Ready => "ready",
            Stage::Lost => "lost",
            Stage::Declined => "declined",
            Stage::Full => "full",
            Stage::Unlawful => "unlawful",
            Stage::Unreachable => "unreachable",
            Stage::Ended => "ended",
        }
    }
}

/// What is known of a process and its log.
#[derive(Clone, Copy, Debug, PartialEq, Eq)]
pub struct Condition {
    /// Nodes listen.
    pub listens: bool,
    /// It isn't known whether a batch is kept.
    pub is_lost: bool,
    /// Every command is declined until the process is restarted.
    pub is_declined: bool,
    /// The log has no line left for a batch.
    pub is_full: bool,
    /// The next part of the log comes from no command.
    pub is_unlawful: bool,
    /// The lines of the followed log have ended.
    pub has_ended: bool,
    /// The store of the log can't be reached.
    pub is_away: bool,
}

impl Condition {
    /// Returns how far the process is. It is ready if nodes listen and nothing else is known.
    pub fn stage(self) -> Stage
        ensures ready { result ≡ Stage.Ready ↔ IsClear self }
        ensures starting { result ≡ Stage.Starting ↔ self.listens ≡ false }
        ensures lost { self.listens ≡ true → self.is_lost ≡ true → result ≡ Stage.Lost }
        ensures declined { self.listens ≡ true → self.is_lost ≡ false → self.is_declined ≡ true → result ≡ Stage.Declined }
        ensures full { self.listens ≡ true → self.is_lost ≡ false → self.is_declined ≡ false → self.is_full ≡ true → result ≡ Stage.Full }
    {
        if !self.listens {
            Stage::Starting
        } else if self.is_lost {
            Stage::Lost
        } else if self.is_declined {
            Stage::Declined
        } else if self.is_full {
            Stage::Full
        } else if self.is_unlawful {
            Stage::Unlawful
        } else if self.has_ended {
            Stage::Ended
        } else if self.is_away {
            Stage::Unreachable
        } else {
            Stage::Ready
        }
    }
}

/// What is known of a process and its log, shared by all its threads.
#[derive(Drop)]
pub struct Marks {
    pub listens: Mark,
    pub is_lost: Mark,
    pub is_declined: Mark,
    pub is_full: Mark,
    pub is_unlawful: Mark,
    pub has_ended: Mark,
}

impl Marks {
    /// Makes marks of which none is set.
    pub const fn new() -> Marks {
        Marks {
            listens: Mark::new(),
            is_lost: Mark::new(),
            is_declined: Mark::new(),
            is_full: Mark::new(),
            is_unlawful: Mark::new(),
            has_ended: Mark::new(),
        }
    }

    /// Returns what is known now. `is_away` is whether the store can't be reached.
    pub fn condition(&self, is_away: bool) -> Condition {
        Condition {
            listens: self.listens.is_set(),
            is_lost: self.is_lost.is_set(),
            is_declined: self.is_declined.is_set(),
            is_full: self.is_full.is_set(),
            is_unlawful: self.is_unlawful.is_set(),
            has_ended: self.has_ended.is_set(),
            is_away,
        }
    }
}
