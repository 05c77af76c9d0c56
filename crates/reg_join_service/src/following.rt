// The work of the thread that takes in what is told.
use crate::taking::Taker;
use crate::watch::Watch;
use reg_adapter_line::AdapterLine;
use reg_chain::{Chain, ChainAnswer};
use reg_feed::{Copies, FeedName};
use reg_join::TakenIn;
use reg_join_desk::{JoinedPen, SharedCheck};
use reg_service::Follow;
use reg_shared::Shared;
use reg_topic::Item;
use std::alloc::AllocError;
use std::sync::{Mutex, Wait};
use std::thread::Parker;
use std::time::{Clock, Duration};

/// Takes in what is told, and makes the checks that lookups wait for. The pen publishes it, and all
/// ports show the pen's list.
#[derive(Drop)]
pub(crate) struct Following<
    'a,
    N: FeedName<Item, Shared>,
    S: Copies<Item, Shared, N>,
    C: Chain + Drop,
    R: Wait + Drop,
    W,
> {
    pub(crate) rt: &'a R,
    pub(crate) line: &'a AdapterLine,
    pub(crate) pen: &'a Mutex<JoinedPen<N, S, C, R>>,
    pub(crate) taker: &'a Mutex<Taker<N, S, C>>,
    pub(crate) check: &'a SharedCheck,
    /// A check is made if none was for this long; `None` makes those alone that lookups wait for.
    pub(crate) every: Option<Duration>,
    pub(crate) watch: &'a W,
}

impl<
    'a,
    N: FeedName<Item, Shared>,
    S: Copies<Item, Shared, N>,
    C: Chain + Drop,
    R: Wait + Clock + Drop,
    W: Watch,
> Following<'a, N, S, C, R, W> {
    /// Takes in what was told, with a check or without. If memory is refused, a later call takes in
    /// the rest.
    fn take(&self, checks: bool) {
        let mut taker = self.taker.lock(self.rt);
        if taker.passes_over() {
            return;
        }
        let taken = if checks {
            self.check(&mut taker)
        } else {
            self.take_told(&mut taker)
        };
        match taken {
            Ok(TakenIn::Batch) => self.line.grown().unpark(),
            Ok(TakenIn::Stopped) => self.watch.stopped(taker.next()),
            Ok(TakenIn::All) | Err(_) => {}
        }
    }

    /// Takes in what was told and asks the chain for more, without the pen. If there is more, takes
    /// in what was told meanwhile. The only error is out of memory.
    fn check(&self, taker: &mut Taker<N, S, C>) -> Result<TakenIn, AllocError> {
        let taken = self.take_all(taker)?;
        if taken == TakenIn::All && taker.ask_for_news() == ChainAnswer::Behind {
            return self.take_all(taker);
        }
        Ok(taken)
    }

    /// Takes in up to 1,024 batches while it holds the pen.
    fn take_told(&self, taker: &mut Taker<N, S, C>) -> Result<TakenIn, AllocError> {
        let mut pen = self.pen.lock(self.rt);
        taker.take(&mut pen)
    }

    /// Takes in up to 65,536 batches while it holds the pen.
    fn take_all(&self, taker: &mut Taker<N, S, C>) -> Result<TakenIn, AllocError> {
        let mut pen = self.pen.lock(self.rt);
        taker.take_all(&mut pen)
    }
}

impl<
    'a,
    N: FeedName<Item, Shared>,
    S: Copies<Item, Shared, N>,
    C: Chain + Drop,
    R: Wait + Clock + Drop,
    W: Watch,
> Follow for Following<'a, N, S, C, R, W> {
    fn follow(&self) {
        self.line.end_stalls(self.rt);
        let round = self.check.begin(self.rt, self.every);
        if round.is_some() || self.line.has_due() || self.check.has_stopped() {
            self.take(round.is_some());
        }
        if let Some(round) = round {
            self.check.done(self.rt, round);
        }
    }

    fn is_over(&self) -> bool {
        self.line.is_over()
    }

    fn grown(&self) -> &Parker {
        self.line.grown()
    }
}
