// A pen's keep over a chain.
ghost use Rattle.std.specs.Prelude.{◌≡◌, ◌++◌, ◌∷◌, [], ◌↔◌, IfOk, IsTrue, OnErr, None, Some};
ghost use Rattle.reg_join.specs.Joining.{Checks, IsNotAsked, JoinKeeps, KeepsTaken, kept_after, kept_of};
ghost use Rattle.reg_join.specs.declared.join_keep.Stand.TheVariants.{Level, Stopped};

use base_text::Listed;
use reg_chain::{Chain, ChainAnswer};
use reg_pen::{Keep, Kept, Lack};
use reg_records::Record;
use std::alloc::AllocError;
use std::mem;

/// The state of a keep towards its chain.
#[derive(Drop)]
pub enum Stand {
    /// All that was told is taken: a batch that is lent is appended to the chain.
    Level,
    /// The chain told this batch next. Exactly these records are taken if they are lent; any other
    /// batch stops the keep.
    Due(Listed<Record>),
    /// The chain told a batch that no command writes. Nothing is taken any more.
    Stopped,
}

/// A pen's keep over a chain: own batches are appended to the chain, and batches of others are
/// taken one by one as they are told.
#[derive(Drop)]
pub struct JoinKeep<C: Chain + Drop> {
    pub(crate) chain: C,
    pub(crate) stand: Stand,
    // The chain's answer to the last own batch, unless it was forgotten.
    pub(crate) last: Option<ChainAnswer>,
    // How many own batches the chain kept, up to 2^64-1.
    pub(crate) kept: u64,
}

impl<C: Chain + Drop> JoinKeep<C> {
    /// Makes a keep over a chain.
    pub fn new(chain: C) -> JoinKeep<C>
        ensures { result ≡ record { chain = chain; stand = Level; last = None; kept = 0 } }
    {
        JoinKeep {
            chain,
            stand: Stand::Level,
            last: None,
            kept: 0,
        }
    }

    /// Returns its state towards the chain.
    pub fn stand(&self) -> &Stand
        ensures { result.now ≡ self.now.stand }
    {
        &self.stand
    }

    /// Returns the chain's answer to the last own batch; `None` if there was none since the answer
    /// was forgotten.
    pub fn last(&self) -> Option<ChainAnswer>
        ensures { result ≡ self.now.last }
    {
        self.last
    }

    /// Returns how many own batches the chain kept, up to 2^64-1.
    pub fn kept(&self) -> u64
        ensures { result ≡ self.now.kept }
    {
        self.kept
    }

    /// Forgets the chain's last answer.
    pub(crate) fn forget(&mut self)
        ensures { self.new ≡ record self.old { last = None } }
    {
        self.last = None;
    }

    /// Learns of the next batch that others wrote, unless one is due already. Never stops the keep,
    /// and leaves a stopped one alone. The only error is out of memory.
    pub(crate) fn learn(&mut self) -> Result<(), AllocError>
        ensures taken { KeepsTaken C.told self.old self.new }
        ensures own { IsNotAsked self.old self.new }
        ensures refused { OnErr result (self.new.stand ≡ self.old.stand) }
        ensures stopped { self.new.stand ≡ Stopped → self.new ≡ self.old }
    {
        if !matches!(self.stand, Stand::Level) {
            return Ok(());
        }
        if let Some(batch) = self.chain.next()? {
            self.stand = Stand::Due(batch);
        }
        Ok(())
    }

    /// Asks the chain whether it has batches beyond all that was told. If a batch is due, or the
    /// keep has stopped, the answer is known and the chain isn't asked.
    pub fn check(&mut self) -> ChainAnswer
        ensures checks { Checks C.told C.answers self.old result self.new }
        ensures taken { KeepsTaken C.told self.old self.new }
        ensures own { IsNotAsked self.old self.new }
    {
        match self.stand {
            Stand::Level => self.chain.append(&[]),
            Stand::Due(_) => ChainAnswer::Behind,
            Stand::Stopped => ChainAnswer::Declined,
        }
    }

    /// Stops the keep for good: it takes nothing any more.
    pub(crate) fn stop(&mut self)
        ensures taken { KeepsTaken C.told self.old self.new }
        ensures own { IsNotAsked self.old self.new }
        ensures stopped { self.new ≡ record self.old { stand = Stopped } }
    {
        self.stand = Stand::Stopped;
    }
}

impl<C: Chain + Drop> Keep for JoinKeep<C> {
    ghost keeps = { JoinKeeps C.told C.answers };

    ghost stands = { λ keep log. (C.told keep.chain ≡ []) × (keep.stand ≡ Level) };

    fn keep(&mut self, batch: &[Record]) -> Kept {
        match mem::replace(&mut self.stand, Stand::Stopped) {
            Stand::Level => {
                self.stand = Stand::Level;
                let answer = self.chain.append(batch);
                self.last = Some(answer);
                self.kept = kept_after(self.kept, answer);
                kept_of(answer)
            }
            Stand::Due(due) => {
                if !is_same(batch, due.as_slice()) {
                    return Kept::Declined(Lack::Store);
                }
                self.stand = Stand::Level;
                Kept::Taken
            }
            Stand::Stopped => Kept::Declined(Lack::Store),
        }
    }
}

/// Returns whether these are the same records in the same order.
fn is_same(batch: &[Record], told: &[Record]) -> bool
    ensures { IsTrue result ↔ (batch.now ≡ told.now) }
{
    batch == told
}

/// Returns what became of a batch, by the chain's answer.
fn kept_of(answer: ChainAnswer) -> Kept
    ensures { result ≡ kept_of answer }
{
    match answer {
        ChainAnswer::Kept => Kept::Taken,
        ChainAnswer::Behind => Kept::Declined(Lack::Overtaken),
        ChainAnswer::Declined => Kept::Declined(Lack::Store),
        ChainAnswer::Unknown => Kept::Unknown,
    }
}

/// Returns how many own batches the chain kept, after its answer to one more.
fn kept_after(kept: u64, answer: ChainAnswer) -> u64
    ensures { result ≡ kept_after kept answer }
{
    match answer {
        ChainAnswer::Kept => kept.saturating_add(1),
        ChainAnswer::Behind | ChainAnswer::Declined | ChainAnswer::Unknown => kept,
    }
}
