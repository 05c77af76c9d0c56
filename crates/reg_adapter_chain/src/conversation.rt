// What an adapter told, and what was asked of it.
ghost use Rattle.std.specs.Prelude.{◌≡◌, ◌<◌, false, length};
ghost use Rattle.reg_adapter_chain.specs.Requests.{is_next};

use crate::asking::{Asking, TellError};
use crate::records::{begins_at, copies_of, records_at};
use crate::request::{AppendRequest, answer_for, cross, is_kept};
use base_text::Listed;
use reg_adapter::{AdapterAnswer as Said, AdapterMessage};
use reg_chain::ChainAnswer;
use reg_records::{Read, Record};
use std::alloc::{AllocError, Global};
use std::collections::VecDeque;
use std::marker::Model;

/// The open part of a conversation with an adapter: what it told and what was asked of it.
///
/// Batches are handed out in the order of the chain, each once: those of others, and an own one
/// whose command no longer waits. An own one whose command waits counts as handed out with its
/// answer.
#[derive(Drop)]
pub struct AdapterConversation {
    alloc: Global,
    /// The batches that were told and aren't handed out.
    due: VecDeque<Listed<Record>>,
    /// The offset behind all that was told, up to `u64::MAX`.
    next: u64,
    /// The request that has no answer.
    request: Option<AppendRequest>,
    /// Whether a command waits for its answer.
    waits: bool,
    // nothing is due where a command waits and nothing came since it asked
    ghost level: { 0 < length due.items → is_next request waits ≡ false },
}

impl Model for AdapterConversation {
    ghost use Rattle.reg_adapter_chain.specs.Standing.{Standing};

    ghost Value = { Standing };

    ghost view = { λ c. record { due = c.due.items; next = c.next; request = c.request; waits = c.waits } };
}

impl AdapterConversation {
    ghost use Rattle.std.specs.Prelude.{◌≡◌, ◌++◌, ◌∷◌, [], false, is_some, length, None, IfErr, IfOk, OnErr, OnOk};
    ghost use Rattle.reg_records.specs.Device.{counted_by};
    ghost use Rattle.reg_adapter.specs.declared.told.AdapterMessage.TheVariants as messages;
    ghost use Rattle.reg_adapter_chain.specs.Batches.{batch_at};
    ghost use Rattle.reg_adapter_chain.specs.Requests.{crossing};
    ghost use Rattle.reg_adapter_chain.specs.Standing.{IsAsked, IsHanded, IsNotTold, IsTold};

    /// Makes a conversation in which nothing was said, behind a base whose next offset is `next`.
    pub fn new(alloc: Global, next: u64) -> AdapterConversation
        ensures { result ≡ record { due = []; next = next; request = None; waits = false } }
    {
        AdapterConversation {
            alloc,
            due: VecDeque::new(alloc),
            next,
            request: None,
            waits: false,
        }
    }

    /// Opens a request to append the batch directly behind all that was told; without records it is
    /// a check. If the result is `Asked`, the caller has to send it. The only error is out of
    /// memory, with nothing changed.
    pub fn ask(&mut self, batch: &[Record]) -> Result<Asking, AllocError>
        ensures asked { IfOk result (λ asking. IsAsked self.old batch.now asking self.new) }
        ensures refused { OnErr result (self.new ≡ self.old) }
    {
        if !self.due.is_empty() {
            return Ok(Asking::Behind);
        }
        if self.request.is_some() {
            return Ok(Asking::Open);
        }
        if !begins_at(self.next, batch) {
            return Ok(Asking::Misplaced);
        }
        let copies = copies_of(self.alloc, batch)?;
        self.request = Some(AppendRequest {
            batch: Listed::from(copies),
            crossed: false,
        });
        self.waits = true;
        Ok(Asking::Asked)
    }

    /// Returns whether a command waits for the answer to the request.
    pub fn is_waited_for(&self) -> bool
        ensures { result ≡ self.now.waits }
    {
        self.waits
    }

    /// Returns whether a request has no answer yet.
    pub fn is_open(&self) -> bool
        ensures { result ≡ is_some self.now.request }
    {
        self.request.is_some()
    }

    /// Lets the waiting command go on without its answer. If its batch is kept after all, it is
    /// handed out like any other writer's.
    pub fn give_up(&mut self)
        ensures { self.new ≡ record self.old { waits = false } }
    {
        self.waits = false;
    }

    /// Takes a message, and returns the answer for the waiting command, if the message is one. An
    /// error changes nothing.
    pub fn tell(&mut self, told: AdapterMessage) -> Result<Option<ChainAnswer>, TellError>
        ensures told { IfOk result (λ answer. IsTold self.old told answer self.new) }
        ensures refused { IfErr result (λ error. IsNotTold self.old told error) }
        ensures same { OnErr result (self.new ≡ self.old) }
    {
        match told {
            AdapterMessage::Batch(reads) => {
                if self.take_batch(reads.as_slice()).is_err() {
                    return Err(TellError::OutOfMemory(AdapterMessage::Batch(reads)));
                }
                Ok(None)
            }
            AdapterMessage::Answer(said) => self.take_answer(said),
            AdapterMessage::Ready => Ok(None),
        }
    }

    /// Hands out the next batch that is due, if one is.
    pub fn next(&mut self) -> Option<Listed<Record>>
        ensures { IsHanded self.old result self.new }
    {
        self.due.pop_front()
    }

    /// Returns how many batches are due.
    pub fn due_count(&self) -> usize
        ensures { result ≡ length self.now.due }
    {
        self.due.len()
    }

    /// Adds a batch of others behind what is due. The only error is out of memory, with nothing
    /// changed.
    fn take_batch(&mut self, reads: &[Read]) -> Result<(), AllocError>
        ensures due { OnOk result (self.new.due ≡ self.old.due ++ batch_at self.old.next reads.now ∷ []) }
        ensures next { OnOk result (self.new.next ≡ counted_by (length (batch_at self.old.next reads.now)) self.old.next) }
        ensures request { OnOk result (self.new.request ≡ crossing self.old.request) }
        ensures waits { OnOk result (self.new.waits ≡ self.old.waits) }
        ensures refused { OnErr result (self.new ≡ self.old) }
    {
        let records = records_at(self.alloc, self.next, reads)?;
        let count = records.len() as u64;
        self.due.push_back(Listed::from(records))?;
        cross(&mut self.request);
        self.next = self.next.saturating_add(count);
        Ok(())
    }

    /// Takes an answer.
    fn take_answer(&mut self, said: Said) -> Result<Option<ChainAnswer>, TellError>
        ensures told { IfOk result (λ answer. IsTold self.old (messages.Answer said) answer self.new) }
        ensures refused { IfErr result (λ error. IsNotTold self.old (messages.Answer said) error) }
        ensures same { OnErr result (self.new ≡ self.old) }
    {
        let Some(AppendRequest { batch, crossed }) = self.request.take() else {
            return Err(TellError::Fault);
        };
        let kept = is_kept(said, batch.as_slice());
        if kept && crossed {
            self.request = Some(AppendRequest { batch, crossed });
            return Err(TellError::Fault);
        }
        let waits = self.waits;
        if kept {
            let count = batch.as_slice().len() as u64;
            if !waits {
                if let Err(failed) = self.due.push_back(batch) {
                    self.request = Some(AppendRequest {
                        batch: failed.value,
                        crossed,
                    });
                    return Err(TellError::OutOfMemory(AdapterMessage::Answer(said)));
                }
            }
            self.next = self.next.saturating_add(count);
        }
        self.waits = false;
        Ok(answer_for(waits, said, crossed))
    }
}
