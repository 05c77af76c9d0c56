// Taking in what an adapter tells.
ghost use mathlib.Core.List.{IsPrefix};

use reg_chain::{Chain, ChainAnswer};
use reg_feed::{Copies, FeedName, FeedReader};
use reg_join::TakenIn;
use reg_join_desk::JoinedPen;
use reg_pen::Pass;
use reg_shared::Shared;
use reg_topic::Item;
use std::alloc::{AllocError, Global};
use std::sync::Wait;

/// How many batches are taken in at most while the pen is held.
const TAKEN_AT_ONCE: u32 = 1_024;

/// How many batches are taken in at most before and after a check.
const TAKEN_WITH_CHECK: u32 = 65_536;

/// Takes in what an adapter tells. It has a pass and a reader of the list of its own.
#[derive(Drop)]
pub(crate) struct Taker<N: FeedName<Item, Shared>, S: Copies<Item, Shared, N>, C: Chain + Drop> {
    alloc: Global,
    pass: Pass<N>,
    list: FeedReader<Item, Shared, N, S>,
    // The next offset when it was last looked up.
    next: u64,
    is_stopped: bool,
    // Another end of the pen's chain. It is asked for news, and tells the batches that the pen
    // doesn't take any more.
    rest: C,
}

impl<N: FeedName<Item, Shared>, S: Copies<Item, Shared, N>, C: Chain + Drop> Taker<N, S, C> {
    /// Makes one that has taken in nothing behind a base with this next offset. `rest` is another
    /// end of the pen's chain.
    pub(crate) fn new(
        alloc: Global,
        pass: Pass<N>,
        list: FeedReader<Item, Shared, N, S>,
        next: u64,
        rest: C,
    ) -> Taker<N, S, C> {
        Taker {
            alloc,
            pass,
            list,
            next,
            is_stopped: false,
            rest,
        }
    }

    /// Returns the offset behind all that is published.
    pub(crate) fn next(&mut self) -> u64 {
        if let Some(next) = self.list.read(|shared| shared.next()) {
            self.next = next;
        }
        self.next
    }

    /// Takes in what was told, 1,024 batches at most. `Batch` if there may be more; `Stopped` if no
    /// command writes what was told next. The only error is out of memory; a later call takes in
    /// the rest.
    pub(crate) fn take<R: Wait + Drop>(
        &mut self,
        pen: &mut JoinedPen<N, S, C, R>,
    ) -> Result<TakenIn, AllocError>
        ensures { IsPrefix pen.old.published pen.new.published }
    {
        self.take_some(pen, TAKEN_AT_ONCE)
    }

    /// Takes in what was told, 65,536 batches at most. `All` if nothing is left. The only error is
    /// out of memory.
    pub(crate) fn take_all<R: Wait + Drop>(
        &mut self,
        pen: &mut JoinedPen<N, S, C, R>,
    ) -> Result<TakenIn, AllocError>
        ensures { IsPrefix pen.old.published pen.new.published }
    {
        self.take_some(pen, TAKEN_WITH_CHECK)
    }

    /// Asks the chain whether it has batches beyond all that was told. Needs no pen.
    pub(crate) fn ask_for_news(&mut self) -> ChainAnswer {
        self.rest.append(&[])
    }

    /// Returns whether nothing is taken in any more, since no command writes a batch that was told.
    /// Then it also drops what was told since.
    pub(crate) fn passes_over(&mut self) -> bool {
        if self.is_stopped {
            for _batch in 0..TAKEN_WITH_CHECK {
                let Ok(Some(_dropped)) = self.rest.next() else {
                    break;
                };
            }
        }
        self.is_stopped
    }

    /// Takes in what was told, `most` batches at most.
    #[tactic(auto, using(crate::proofs::Prefixes::prefix_self, crate::proofs::Prefixes::prefix_trans))]
    fn take_some<R: Wait + Drop>(
        &mut self,
        pen: &mut JoinedPen<N, S, C, R>,
        most: u32,
    ) -> Result<TakenIn, AllocError>
        ensures { IsPrefix pen.old.published pen.new.published }
    {
        for _batch in 0..most {
            let taken = pen.take_in(self.alloc, &mut self.pass)?;
            if taken != TakenIn::Batch {
                self.is_stopped = taken == TakenIn::Stopped;
                return Ok(taken);
            }
        }
        Ok(TakenIn::Batch)
    }
}
