// What all nodes share.
use reg_desk::Wake;
use reg_feed::{FeedName, Seen};
use reg_meters::Traffic;
use reg_serve::{Latch, Limits};
use reg_shared::Shared;
use reg_topic::Item;
use std::alloc::Global;
use std::hash::RandomState;
use std::mem;
use std::sync::atomic::AtomicU64;
use std::sync::{Mutex, Wait};
use std::thread::Parker;

/// What all nodes share.
#[derive(Drop)]
pub(crate) struct Common<'a, R, G> {
    pub(crate) rt: &'a R,
    pub(crate) alloc: Global,
    /// The hash keys under which the judges of desks find texts.
    pub(crate) keys: RandomState,
    /// What wakes the followers; one for each node.
    pub(crate) grown: &'a [Parker],
    pub(crate) latch: &'a Latch,
    pub(crate) gate: &'a G,
    /// How many requests the desks have had.
    pub(crate) calls: &'a AtomicU64,
    /// The number of nodes, from 1 to `NODES_LIMIT`.
    pub(crate) nodes: usize,
    /// The workers of a node.
    pub(crate) workers: u32,
    /// After how many closed connections a node ends; `None` for never.
    pub(crate) limit: Option<u64>,
    pub(crate) limits: Limits,
    /// Where connections and requests are counted.
    pub(crate) traffic: &'a Traffic,
}

/// Wakes the followers of the other nodes.
#[derive(Clone, Copy)]
pub(crate) struct Others<'a> {
    pub(crate) grown: &'a [Parker],
    pub(crate) own: usize,
}

impl<N: FeedName<Item, Shared>> Wake<N> for Others<'_> {
    ghost use Rattle.std.specs.Prelude.{⊤};

    ghost wakes = { λ _ _ _. ⊤ };

    fn topic_grew(&mut self, _front: &Seen<Item, Shared, N>) {
        for (place, grown) in self.grown.iter().enumerate() {
            if place != self.own {
                grown.unpark();
            }
        }
    }
}

/// Takes all elements out of a list.
pub(crate) fn take_all<T, R: Wait>(rt: &R, alloc: Global, list: &Mutex<Vec<T>>) -> Vec<T> {
    let mut list = list.lock(rt);
    mem::replace(&mut *list, Vec::new(alloc))
}
