// A plain registry beside the chain, which does each command at its place.
use crate::chains::{Shelf, on_shelf};
use crate::processes::{Process, kept_records};
use reg_feed::{Copies, FeedName, Seen};
use reg_leader::{Command, Reply};
use reg_pen::{Keep, Kept, Submitted};
use reg_records::Record;
use reg_shared::Shared;
use reg_topic::Item;
use std::cell::RefCell;
use std::rc::Rc;
use std::sync::Wait;
use test_tools::Made;

/// What tests do with the plain registry.
pub(crate) trait Plain {
    /// What it replies.
    fn reply(&mut self, command: &Command) -> Reply;

    /// How many batches it wrote.
    fn written(&self) -> usize;

    /// Whether each of them was the chain's at its place.
    fn is_right(&self) -> bool;

    /// All records that are kept.
    fn records(&mut self) -> Made<Vec<Record>>;
}

/// Takes each batch, and compares it with the chain's at its place.
#[derive(Drop)]
pub(crate) struct Comparing {
    shelf: Rc<RefCell<Shelf>>,
    taken: usize,
    /// Whether one was another.
    is_wrong: bool,
}

impl Comparing {
    pub(crate) fn new(shelf: Rc<RefCell<Shelf>>) -> Comparing {
        Comparing {
            shelf,
            taken: 0,
            is_wrong: false,
        }
    }
}

impl Keep for Comparing {
    ghost use Rattle.std.specs.Prelude.{⊤};

    ghost keeps = { λ _ _ _ _. ⊤ };

    fn keep(&mut self, batch: &[Record]) -> Kept {
        let taken = self.taken;
        if !on_shelf(&self.shelf, false, |shelf| shelf.stands_at(taken, batch)) {
            self.is_wrong = true;
        }
        self.taken = self.taken.saturating_add(1);
        Kept::Taken
    }
}

impl<N: FeedName<Item, Shared>, S: Copies<Item, Shared, N>, R: Wait + Drop> Plain
    for Process<N, S, Comparing, R> {
    fn reply(&mut self, command: &Command) -> Reply {
        let unseen: Option<Seen<Item, Shared, N>> = None;
        let pass = &mut self.pass;
        let Submitted { reply, seen: _ } = self
            .pen
            .submit_and_compact(pass, unseen.as_ref(), command, None);
        reply
    }

    fn written(&self) -> usize {
        self.pen.keep().taken
    }

    fn is_right(&self) -> bool {
        !self.pen.keep().is_wrong
    }

    fn records(&mut self) -> Made<Vec<Record>> {
        kept_records(&mut self.pen)
    }
}
