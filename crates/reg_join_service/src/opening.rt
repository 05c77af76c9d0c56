// The pen over a base.
ghost use Rattle.std.specs.Prelude.{◌≡◌, ◌<◌, [], IfOk, OnOk};
ghost use Rattle.reg_topic.specs.Topic.{IsAdopted, topic_from};
ghost use Rattle.reg_shared.specs.Held.{base_of, held_of};
ghost use Rattle.reg_join_service.specs.Base.{BeginsWith, MayBegin};

use crate::base::Base;
use reg_chain::Chain;
use reg_feed::{FeedName, Stored, Unnamed};
use reg_join::JoinKeep;
use reg_join_desk::JoinedPen;
use reg_pen::{KeptLog, OpenError, Opened, Pass, open_begun};
use reg_shared::Shared;
use reg_topic::Item;
use std::alloc::Global;
use std::sync::Wait;

/// A pen over a base, with the passes to submit to it.
#[derive(Drop)]
pub(crate) struct OpenedBase<N: FeedName<Item, Shared>, C: Chain + Drop, R: Wait + Drop> {
    pub(crate) pen: JoinedPen<N, Stored<Item, Shared, N>, C, R>,
    pub(crate) passes: Vec<Pass<N>>,
}

/// Opens a pen over a base and over a chain that has told nothing; nothing is asked of the chain.
/// Makes `count` passes, and room for `count` readers.
pub(crate) fn open_base<N: FeedName<Item, Shared>, C: Chain + Drop, R: Wait + Drop>(
    rt: R,
    alloc: Global,
    list: Unnamed<Item>,
    base: Base,
    chain: C,
    count: u32,
) -> Result<OpenedBase<N, C, R>, OpenError>
    requires name { (list.reached.book ≡ N.book) × (N.first ≡ held_of (topic_from base.log.records.items base.log.next base.log.floor)) }
    requires begins { MayBegin base.log }
    requires begun { BeginsWith base.log base.begun }
    requires new { C.told chain ≡ [] }
    requires readers { 0 < count }
    ensures begun { IfOk result (λ opened. opened.pen.published ≡ []) }
    ensures chain { IfOk result (λ opened. opened.pen.keep.chain ≡ chain) }
    ensures adopted { OnOk result (IsAdopted (base_of N.first)) }
{
    let Base { log, begun } = base;
    let keep = JoinKeep::new(chain);
    let kept = KeptLog::new(log, keep);
    let readers = count as usize;
    let Opened { pen, passes } = open_begun::<N, JoinKeep<C>, R>(
        rt, alloc, list, kept, begun, count, readers,
    )?;
    let boxed = Box::new(alloc, pen)?;
    let joined = JoinedPen::new(boxed);
    Ok(OpenedBase {
        pen: joined,
        passes,
    })
}
