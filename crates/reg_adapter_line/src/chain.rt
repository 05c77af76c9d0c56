// The chain behind an adapter.
ghost use Rattle.std.specs.Prelude.{◌≡◌, [], ⊤, IfOk, IfSome};
ghost use Rattle.reg_adapter.specs.Requests.{request_text};

use crate::line::AdapterLine;
use crate::told::ToldList;
use base_text::Listed;
use reg_adapter::request;
use reg_chain::{Chain, ChainAnswer};
use reg_records::{Record, has_line};
use std::alloc::{AllocError, Global};
use std::marker::Model;
use std::sync::{Arc, Wait};
use std::time::{Clock, Duration};

/// The chain behind an adapter, as the log's writer sees it. Contracts see it as the batches that
/// it told: those that `next` returned, and those that `append` was answered `Kept` for. They take
/// no memory.
///
/// An answer comes through a lock, of whose value nothing is known, so the relation `answers` says
/// nothing. What an answer means is stated for the conversation that gives it
/// (`reg_adapter_chain`).
#[derive(Drop)]
pub struct AdapterChain<R: Wait + Clock + Drop> {
    rt: R,
    alloc: Global,
    line: Arc<AdapterLine, Global>,
    /// How long a call waits for an answer.
    patience: Duration,
    /// If it is a pen's, whose commands share their checks: how long a check waits if it has to be
    /// brief.
    brief: Option<Duration>,
    /// The number of the last request that was answered `Kept`; 0 if there was none.
    answered: u64,
    told: ToldList<Listed<Record>>,
}

impl<R: Wait + Clock + Drop> Model for AdapterChain<R> {
    ghost use Rattle.std.specs.Prelude.{List};
    ghost use Rattle.reg_records.specs.declared.record.Record.{Record};

    ghost Value = { List (List Record) };

    ghost view = { λ c. c.told.items };
}

impl<R: Wait + Clock + Drop> AdapterChain<R> {
    /// Makes a chain to which nothing was told. A call waits for its answer for `patience` at most,
    /// and before that as long again for an answer that another caller waits for.
    pub fn new(
        rt: R,
        alloc: Global,
        line: Arc<AdapterLine, Global>,
        patience: Duration,
    ) -> AdapterChain<R>
        ensures { result ≡ [] }
    {
        AdapterChain {
            rt,
            alloc,
            line,
            patience,
            brief: None,
            answered: 0,
            told: ToldList::new(),
        }
    }

    /// Makes the chain of a pen (a log's single writer), to which nothing was told. Its commands
    /// share their checks: a check is `Kept` at once if a request was kept that was made after the
    /// current command came, by the line's [`Arrivals`](reg_chain::Arrivals).
    ///
    /// If the current command waits only briefly, a check waits for `brief` at most.
    pub fn of_pen(
        rt: R,
        alloc: Global,
        line: Arc<AdapterLine, Global>,
        patience: Duration,
        brief: Duration,
    ) -> AdapterChain<R>
        ensures { result ≡ [] }
    {
        AdapterChain {
            rt,
            alloc,
            line,
            patience,
            brief: Some(brief),
            answered: 0,
            told: ToldList::new(),
        }
    }

    /// Returns whether a check needn't be sent: a request was kept that was made after the current
    /// command came.
    fn is_answered(&self) -> bool {
        self.brief.is_some() && self.line.arrivals().is_since(self.answered)
    }

    /// Returns how long to wait for the answer to that batch.
    fn patience_for(&self, batch: &[Record]) -> Duration {
        match self.brief {
            Some(brief) if batch.is_empty() && self.line.arrivals().is_brief() => brief,
            _ => self.patience,
        }
    }
}

impl<R: Wait + Clock + Drop> Chain for AdapterChain<R> {
    ghost told = { λ c. c };

    ghost answers = { λ _ _ _ _. ⊤ };

    /// Waits for the answer for the chain's patience at most. If none comes, the result is
    /// `Unknown` for a batch and `Declined` for a check.
    ///
    /// What isn't sent is `Behind` if a batch is due, and `Declined` otherwise: a batch with a
    /// record that has no line, a check while an older request has no answer and nobody waits for
    /// it, a batch if that answer takes longer than 300 ms, and anything once the line is over.
    fn append(&mut self, batch: &[Record]) -> ChainAnswer {
        if batch.is_empty() && self.is_answered() {
            return ChainAnswer::Kept;
        }
        let Ok(asked) = copies_of(self.alloc, batch) else {
            return self.line.refuse(&self.rt);
        };
        let Some(bytes) = bytes_of(self.alloc, batch) else {
            return self.line.refuse(&self.rt);
        };
        let patience = self.patience_for(batch);
        let (answer, number) = self.line.ask(&self.rt, batch, bytes, patience);
        if answer == ChainAnswer::Kept {
            self.answered = number;
            if !batch.is_empty() {
                self.told = self.told.and(&asked);
            }
        }
        answer
    }

    fn next(&mut self) -> Result<Option<Listed<Record>>, AllocError> {
        let batch = self.line.next(&self.rt);
        if let Some(told) = &batch {
            self.told = self.told.and(told);
        }
        Ok(batch)
    }
}

/// Writes the request for a batch; `None` if a record has no line, or one that is too long, or
/// memory is refused.
fn bytes_of(alloc: Global, batch: &[Record]) -> Option<Vec<u8>>
    ensures { IfSome result (λ bytes. bytes.items ≡ request_text batch.now) }
{
    if !batch.iter().all(|record| has_line(record)) {
        return None;
    }
    request(alloc, batch).ok()
}

/// Copies of the records. The only error is out of memory.
fn copies_of(alloc: Global, records: &[Record]) -> Result<Listed<Record>, AllocError>
    ensures { IfOk result (λ copies. copies ≡ records.now) }
{
    Ok(Listed::from(records.to_vec(alloc)?))
}
