// What the nodes need of the topic, and what a node is made of.
ghost use Rattle.std.specs.Prelude.{◌≡◌, ◌≤◌};
ghost use Rattle.std.specs.FinSet.{empty};

use crate::common::{Common, Others};
use crate::following::Following;
use reg_desk::{Gate, NodeDesk, desk_judge};
use reg_feed::{Copies, FeedName, FeedReader, Stored, Unnamed, feed};
use reg_node::{Draw, Follower, NodeView, Taken};
use reg_pen::{Keep, Pass, Pen};
use reg_serve::NodeServer;
use reg_service::ServiceError;
use reg_shared::Shared;
use reg_topic::Item;
use std::alloc::Global;
use std::net::{Net, TcpListener};
use std::sync::{Mutex, Wait};

/// What nodes that aren't made yet need of the topic.
#[derive(Drop)]
pub(crate) struct TopicHandles<N: FeedName<Item, Shared>, S: Copies<Item, Shared, N>> {
    /// One for each worker.
    pub(crate) passes: Vec<Pass<N>>,
    /// One for each node.
    pub(crate) readers: Vec<FeedReader<Item, Shared, N, S>>,
    // The topic began with a floor no higher than its next offset.
    pub(crate) ghost low: { N.first.kept.floor ≤ N.first.next },
}

/// A node's follower, and a view for each worker.
#[derive(Drop)]
pub(crate) struct Parts<
    N: FeedName<Item, Shared>,
    S: Copies<Item, Shared, N>,
    M: FeedName<Draw, Taken>,
    U: Copies<Draw, Taken, M>,
    R: Wait + Drop,
> {
    pub(crate) follower: Mutex<Follower<N, S, M, U, R>>,
    /// In a `Mutex`, so that the parts can be borrowed by `&`.
    pub(crate) views: Mutex<Vec<NodeView<M, U>>>,
}

/// What nodes are made with: what they share, the pen of the topic, and the sockets on which they
/// listen.
#[derive(Drop)]
pub(crate) struct Resources<
    'a,
    N: FeedName<Item, Shared>,
    S: Copies<Item, Shared, N>,
    K: Keep + Drop,
    R: Wait + Drop,
    G,
> {
    pub(crate) common: &'a Common<'a, R, G>,
    pub(crate) pen: &'a Mutex<Pen<N, S, K, R>>,
    pub(crate) listeners: &'a [TcpListener],
}

/// Makes the feed, the follower and the views of the node of that number; `None` if there is no
/// such node.
pub(crate) fn make_parts<
    N: FeedName<Item, Shared>,
    S: Copies<Item, Shared, N>,
    M: FeedName<Draw, Taken>,
    R: Wait + Copy + Drop,
    G,
>(
    common: &Common<'_, R, G>,
    handles: &mut TopicHandles<N, S>,
    number: usize,
    list: Unnamed<Draw>,
) -> Result<Option<Parts<N, S, M, Stored<Draw, Taken, M>, R>>, ServiceError>
    requires { (list.reached.book ≡ M.book) × (M.first ≡ empty) }
{
    if number >= common.nodes {
        return Ok(None);
    }
    let mut follower = make_follower::<N, S, M, R, G>(common, handles, list)?;
    let views = begin_to_follow(&mut follower, common.alloc, common.workers.max(1))?;
    Ok(Some(Parts {
        follower: Mutex::new(follower),
        views: Mutex::new(views),
    }))
}

/// Makes a node's feed and its follower, which has read nothing yet.
fn make_follower<
    N: FeedName<Item, Shared>,
    S: Copies<Item, Shared, N>,
    M: FeedName<Draw, Taken>,
    R: Wait + Copy + Drop,
    G,
>(
    common: &Common<'_, R, G>,
    handles: &mut TopicHandles<N, S>,
    list: Unnamed<Draw>,
) -> Result<Follower<N, S, M, Stored<Draw, Taken, M>, R>, ServiceError>
    requires { (list.reached.book ≡ M.book) × (M.first ≡ empty) }
{
    let alloc = common.alloc;
    let topic = handles.readers.pop().ok_or(ServiceError::NoPlace)?;
    let workers = common.workers.max(1);
    let out = feed::<Draw, Taken, M, R>(
        *common.rt,
        alloc,
        list,
        Taken::new(alloc),
        workers as usize,
    )?;
    Ok(Follower::new(topic, Box::new(alloc, out)?))
}

/// Reads the topic, and makes `workers` views of what was read.
fn begin_to_follow<
    N: FeedName<Item, Shared>,
    S: Copies<Item, Shared, N>,
    M: FeedName<Draw, Taken>,
    U: Copies<Draw, Taken, M>,
    R: Wait + Drop,
>(
    follower: &mut Follower<N, S, M, U, R>,
    alloc: Global,
    workers: u32,
) -> Result<Vec<NodeView<M, U>>, ServiceError> {
    // What the topic begins with is shown before the first request comes.
    follower.pull()?;
    follower.publish()?;
    // Both copies have it, so that the first command costs as much as later ones.
    follower.catch_up_unshown();
    let mut views = Vec::new(alloc);
    for _worker in 0..workers {
        views.push(follower.view()?)?;
    }
    Ok(views)
}

/// A desk that wakes the other nodes.
pub(crate) type NamedDesk<'a, N, S, K, M, U, R, G> = NodeDesk<'a, N, S, K, M, U, R, G, Others<'a>>;

/// Makes a desk for each view, with a judge of its own.
pub(crate) fn make_desks<
    'a,
    'x: 'a,
    N: FeedName<Item, Shared>,
    S: Copies<Item, Shared, N>,
    K: Keep + Drop,
    M: FeedName<Draw, Taken>,
    U: Copies<Draw, Taken, M>,
    R: Wait + Drop,
    G: Gate,
>(
    common: &Common<'x, R, G>,
    pen: &'a Mutex<Pen<N, S, K, R>>,
    passes: &mut Vec<Pass<N>>,
    follower: &'a Mutex<Follower<N, S, M, U, R>>,
    others: Others<'a>,
    views: Vec<NodeView<M, U>>,
) -> Result<Vec<NamedDesk<'a, N, S, K, M, U, R, G>>, ServiceError> {
    let alloc = common.alloc;
    let mut desks = Vec::new(alloc);
    for view in views {
        let pass = passes.pop().ok_or(ServiceError::NoPlace)?;
        let judge = desk_judge(alloc, common.keys)?;
        let desk = NodeDesk::new(
            common.rt,
            pen,
            follower,
            common.gate,
            others,
            common.calls,
            pass,
            view,
            judge,
        );
        desks.push(desk)?;
    }
    Ok(desks)
}

/// Makes the server of the node of that number. It isn't opened yet.
pub(crate) fn make_server<
    'a,
    'x: 'a,
    N: FeedName<Item, Shared>,
    S: Copies<Item, Shared, N>,
    M: FeedName<Draw, Taken>,
    U: Copies<Draw, Taken, M>,
    R: Wait + Net + Drop,
    G,
    T: Drop,
>(
    common: &Common<'x, R, G>,
    listeners: &'a [TcpListener],
    number: usize,
    follower: &'a Mutex<Follower<N, S, M, U, R>>,
) -> Result<NodeServer<'a, Following<'a, N, S, M, U, R>, T>, ServiceError> {
    let following = Following {
        rt: common.rt,
        follower,
        grown: common.grown.get(number).ok_or(ServiceError::NoPlace)?,
        traffic: common.traffic,
    };
    let server = NodeServer::new(
        common.rt,
        common.alloc,
        listeners.get(number).ok_or(ServiceError::NoPlace)?,
        following,
        common.workers as usize,
        common.limits,
    )?;
    Ok(server)
}
