// A chain in memory that several pens share, with faults.
ghost use Rattle.std.specs.Prelude.{◌≡◌, []};
ghost use Rattle.reg_chain.specs.Chain.{told_after};

use base_text::Listed;
use reg_join::{Chain, ChainAnswer, MemoryChain};
use reg_records::Record;
use std::alloc::{AllocError, Global};
use std::cell::RefCell;
use std::rc::Rc;
use test_tools::{Draws, Made};

/// A batch that was asked for behind so many, and may come to stand there.
#[derive(Drop)]
struct Late {
    behind: usize,
    batch: Listed<Record>,
}

/// What all share: the batches, in their order.
#[derive(Drop)]
pub(crate) struct Shelf {
    alloc: Global,
    batches: Vec<Listed<Record>>,
    /// The places of those that came late.
    late_places: Vec<usize>,
    late: Option<Late>,
    draws: Draws,
    /// Whether there are faults.
    has_faults: bool,
    /// Whether others came first once.
    was_behind: bool,
}

impl Shelf {
    /// A chain without batches, whose faults are drawn from that number on.
    pub(crate) fn new(alloc: Global, seed: u64) -> Shelf {
        Shelf {
            alloc,
            batches: Vec::new(alloc),
            late_places: Vec::new(alloc),
            late: None,
            draws: Draws::new(seed),
            has_faults: true,
            was_behind: false,
        }
    }

    /// From now on there are no faults, and what is open never comes to stand. Whether others came first once.
    pub(crate) fn mend(&mut self) -> bool {
        self.has_faults = false;
        self.late = None;
        self.was_behind
    }

    pub(crate) fn len(&self) -> usize {
        self.batches.len()
    }

    /// The first batch stands last once more, which no command writes there.
    pub(crate) fn spoil(&mut self) -> Made<()> {
        let first = self.batches.first().ok_or(AllocError)?.clone()?;
        self.batches.push(first)?;
        Ok(())
    }

    /// Whether exactly this batch stands at that place.
    pub(crate) fn stands_at(&self, place: usize, batch: &[Record]) -> bool {
        match self.batches.get(place) {
            Some(told) => told.as_slice() == batch,
            None => false,
        }
    }

    /// Whether the batch at that place came late.
    pub(crate) fn came_late(&self, place: usize) -> bool {
        self.late_places.contains(&place)
    }

    /// A batch that is open comes to stand, or never does, or stays open.
    fn settle_late(&mut self) -> Made<()> {
        if self.draws.below(4) != 0 {
            return Ok(());
        }
        match self.late.take() {
            Some(late) => self.settle(late),
            None => Ok(()),
        }
    }

    fn settle(&mut self, late: Late) -> Made<()> {
        if late.behind != self.batches.len() || self.draws.below(2) != 0 {
            return Ok(());
        }
        self.late_places.push(late.behind)?;
        self.batches.push(late.batch)?;
        Ok(())
    }

    /// A copy of the batch at that place, where one that is open may come to stand first.
    fn next_at(&mut self, place: usize) -> Made<Option<Listed<Record>>> {
        self.settle_late()?;
        match self.batches.get(place) {
            Some(batch) => Ok(Some(batch.clone()?)),
            None => Ok(None),
        }
    }

    /// A fault that meets a request behind so many batches, if one does.
    fn fault(&mut self, behind: usize, batch: &[Record]) -> Option<ChainAnswer> {
        if behind != self.batches.len() || !self.has_faults {
            return None;
        }
        match self.draws.below(40) {
            0 => Some(ChainAnswer::Declined),
            1 => Some(self.leave_open(behind, batch)),
            _ => None,
        }
    }

    /// The batch may come to stand later. A check is declined.
    fn leave_open(&mut self, behind: usize, batch: &[Record]) -> ChainAnswer {
        if batch.is_empty() {
            return ChainAnswer::Declined;
        }
        match batch.to_vec(self.alloc) {
            Ok(copies) => {
                self.late = Some(Late {
                    behind,
                    batch: Listed::from(copies),
                });
                ChainAnswer::Unknown
            }
            Err(AllocError) => ChainAnswer::Declined,
        }
    }

    /// Whether memory is refused.
    fn refuses(&mut self) -> bool {
        self.has_faults && self.draws.below(50) == 0
    }

    /// Whether what stands next isn't told yet.
    fn hides(&mut self) -> bool {
        self.has_faults && self.draws.below(6) == 0
    }

    /// Notes an answer; whether by it a batch came to stand.
    fn note(&mut self, batch: &[Record], answer: ChainAnswer) -> bool {
        match answer {
            ChainAnswer::Kept => !batch.is_empty() && self.put(batch).is_ok(),
            ChainAnswer::Behind => {
                self.was_behind = true;
                false
            }
            _ => false,
        }
    }

    /// The batch stands at the end.
    fn put(&mut self, batch: &[Record]) -> Made<()> {
        let copies = batch.to_vec(self.alloc)?;
        self.batches.push(Listed::from(copies))?;
        Ok(())
    }
}

/// A shared chain as one pen sees it.
#[derive(Drop)]
pub(crate) struct Handle {
    mine: MemoryChain,
    shelf: Rc<RefCell<Shelf>>,
    /// How many of the shared batches are in its own chain, and how many of them were told.
    brought: usize,
    told: usize,
}

impl Handle {
    pub(crate) fn new(alloc: Global, shelf: Rc<RefCell<Shelf>>) -> Handle
        ensures { result.mine.told ≡ [] }
    {
        Handle {
            mine: MemoryChain::new(alloc),
            shelf,
            brought: 0,
            told: 0,
        }
    }

    /// Brings the next batch into its own chain, if there is one.
    fn bring(&mut self) -> Made<()>
        ensures { self.new.mine.told ≡ self.old.mine.told }
    {
        let place = self.brought;
        let next = on_shelf(&self.shelf, Err(AllocError), |shelf| shelf.next_at(place))?;
        let Some(batch) = next else {
            return Ok(());
        };
        self.mine.put(batch)?;
        self.brought = self.brought.saturating_add(1);
        Ok(())
    }

    /// Asks its own chain, which has what is shared.
    fn ask(&mut self, batch: &[Record]) -> ChainAnswer
        ensures { self.new.mine.told ≡ told_after self.old.mine.told batch.now result }
    {
        let answer = self.mine.append(batch);
        if on_shelf(&self.shelf, false, |shelf| shelf.note(batch, answer)) {
            self.brought = self.brought.saturating_add(1);
            self.told = self.told.saturating_add(1);
        }
        answer
    }
}

impl Chain for Handle {
    ghost use Rattle.std.specs.Prelude.{⊤};

    ghost told = { λ h. h.mine.told };

    ghost answers = { λ _ _ _ _. ⊤ };

    #[tactic(auto, using(crate::proofs::Telling::declined_tells_nothing, crate::proofs::Telling::unknown_tells_nothing))]
    fn append(&mut self, batch: &[Record]) -> ChainAnswer {
        if self.bring().is_err() {
            return ChainAnswer::Declined;
        }
        let (told, declined) = (self.told, Some(ChainAnswer::Declined));
        match on_shelf(&self.shelf, declined, |shelf| shelf.fault(told, batch)) {
            Some(ChainAnswer::Unknown) => ChainAnswer::Unknown,
            Some(_) => ChainAnswer::Declined,
            None => self.ask(batch),
        }
    }

    fn next(&mut self) -> Made<Option<Listed<Record>>> {
        if on_shelf(&self.shelf, true, |shelf| shelf.refuses()) {
            return Err(AllocError);
        }
        if on_shelf(&self.shelf, true, |shelf| shelf.hides()) {
            return Ok(None);
        }
        self.bring()?;
        let batch = self.mine.next()?;
        if batch.is_some() {
            self.told = self.told.saturating_add(1);
        }
        Ok(batch)
    }
}

/// Does something with what all share. It comes to the other end where somebody has borrowed it, which can't be here.
pub(crate) fn on_shelf<B: Drop, F: FnOnce(&mut Shelf) -> B>(
    shelf: &RefCell<Shelf>,
    otherwise: B,
    act: F,
) -> B
    requires { F.IsAlwaysCallable act }
{
    match shelf.try_borrow_mut() {
        Ok(mut shelf) => act(&mut shelf),
        Err(_) => otherwise,
    }
}
