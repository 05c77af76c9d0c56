// Processes are opened over one chain, and a plain registry beside them. Each feed has a name of its own, which is picked where the function
// that is generic in it is called.
ghost use Rattle.std.specs.Prelude.{◌≡◌};
ghost use Rattle.reg_topic.specs.Topic.{topic_from};
ghost use Rattle.reg_shared.specs.Held.{held_of};

use crate::chains::{Handle, Shelf};
use crate::plain::Comparing;
use crate::processes::{Process, Processes, With};
use crate::runs::{Run, make_run};
use reg_feed::{FeedName, Stored, Unnamed};
use reg_join::JoinKeep;
use reg_pen::{Keep, KeptLog, Opened, open};
use reg_shared::Shared;
use reg_topic::Item;
use std::alloc::{AllocError, Global};
use std::cell::RefCell;
use std::marker::Brand;
use std::rc::Rc;
use std::sync::Wait;
use test_tools::Made;
use test_words::empty_log;

/// What all are opened over.
#[derive(Drop)]
pub(crate) struct Common<R: Wait + Drop + Copy> {
    pub(crate) alloc: Global,
    pub(crate) rt: R,
    pub(crate) shelf: Rc<RefCell<Shelf>>,
}

/// What is done with processes.
pub(crate) trait Course {
    fn go<R: Wait + Drop + Copy, P: Processes>(
        &mut self,
        common: &Common<R>,
        processes: &mut P,
    ) -> Made<()>;
}

/// Opens one process more before the rest is done.
#[derive(Drop)]
pub(crate) struct OneMore<C: Course + Drop> {
    pub(crate) rest: C,
}

impl<C: Course + Drop> Course for OneMore<C> {
    fn go<R: Wait + Drop + Copy, P: Processes>(
        &mut self,
        common: &Common<R>,
        processes: &mut P,
    ) -> Made<()> {
        with_one_more(common, processes, &mut self.rest)
    }
}

fn with_one_more<R: Wait + Drop + Copy, P: Processes, C: Course>(
    common: &Common<R>,
    others: &mut P,
    rest: &mut C,
) -> Made<()> {
    let kept = kept_chain(common)?;
    beside_others::<Brand, R, P, C>(common, Unnamed::new(), kept, others, rest)
}

fn beside_others<N: FeedName<Item, Shared>, R: Wait + Drop + Copy, P: Processes, C: Course>(
    common: &Common<R>,
    list: Unnamed<Item>,
    kept: KeptLog<JoinKeep<Handle>>,
    others: &mut P,
    rest: &mut C,
) -> Made<()>
    requires { (list.reached.book ≡ N.book) × (N.first ≡ held_of (topic_from kept.log.records.items kept.log.next kept.log.floor)) }
{
    let mut process = opened::<N, JoinKeep<Handle>, R>(common, list, kept)?;
    rest.go(
        common,
        &mut With {
            first: &mut process,
            others,
        },
    )
}

/// Opens a plain registry, and makes a run with it.
#[derive(Drop)]
pub(crate) struct BesidePlain {
    pub(crate) run: Run,
}

impl Course for BesidePlain {
    fn go<R: Wait + Drop + Copy, P: Processes>(
        &mut self,
        common: &Common<R>,
        processes: &mut P,
    ) -> Made<()> {
        with_plain(common, processes, &mut self.run)
    }
}

fn with_plain<R: Wait + Drop + Copy, P: Processes>(
    common: &Common<R>,
    processes: &mut P,
    run: &mut Run,
) -> Made<()> {
    let kept = kept_plain(common)?;
    beside_plain::<Brand, R, P>(common, Unnamed::new(), kept, processes, run)
}

fn beside_plain<N: FeedName<Item, Shared>, R: Wait + Drop + Copy, P: Processes>(
    common: &Common<R>,
    list: Unnamed<Item>,
    kept: KeptLog<Comparing>,
    processes: &mut P,
    run: &mut Run,
) -> Made<()>
    requires { (list.reached.book ≡ N.book) × (N.first ≡ held_of (topic_from kept.log.records.items kept.log.next kept.log.floor)) }
{
    let mut plain = opened::<N, Comparing, R>(common, list, kept)?;
    make_run(common.alloc, &common.shelf, &mut plain, processes, run)
}

/// An empty log, with a keep over the shared chain.
fn kept_chain<R: Wait + Drop + Copy>(common: &Common<R>) -> Made<KeptLog<JoinKeep<Handle>>> {
    let log = empty_log(common.alloc)?;
    let handle = Handle::new(common.alloc, common.shelf.clone()?);
    Ok(KeptLog::new(log, JoinKeep::new(handle)))
}

/// An empty log, with a keep that compares batches with the shared chain's.
fn kept_plain<R: Wait + Drop + Copy>(common: &Common<R>) -> Made<KeptLog<Comparing>> {
    let log = empty_log(common.alloc)?;
    Ok(KeptLog::new(log, Comparing::new(common.shelf.clone()?)))
}

/// A process that is opened over the log and its keep.
fn opened<N: FeedName<Item, Shared>, K: Keep + Drop, R: Wait + Drop + Copy>(
    common: &Common<R>,
    list: Unnamed<Item>,
    kept: KeptLog<K>,
) -> Made<Process<N, Stored<Item, Shared, N>, K, R>>
    requires { (list.reached.book ≡ N.book) × (N.first ≡ held_of (topic_from kept.log.records.items kept.log.next kept.log.floor)) }
{
    let Ok(opened) = open::<N, K, R>(common.rt, common.alloc, list, kept, 1, 1) else {
        return Err(AllocError);
    };
    let Opened { pen, mut passes } = opened;
    match passes.pop() {
        Some(pass) => Ok(Process {
            pen: Box::new(common.alloc, pen)?,
            pass,
        }),
        None => Err(AllocError),
    }
}
