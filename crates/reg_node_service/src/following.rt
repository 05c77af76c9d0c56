// A node's follower, for the thread that follows the topic.
use reg_feed::{Copies, FeedName};
use reg_meters::Traffic;
use reg_node::{Draw, Follower, Taken};
use reg_serve::{Follow, Observe};
use reg_shared::Shared;
use reg_topic::Item;
use std::sync::{Mutex, Wait};
use std::thread::Parker;

/// A node's follower, with what wakes its thread and what counts the node's traffic.
#[derive(Drop)]
pub(crate) struct Following<
    'a,
    N: FeedName<Item, Shared>,
    S: Copies<Item, Shared, N>,
    M: FeedName<Draw, Taken>,
    U: Copies<Draw, Taken, M>,
    R: Wait + Drop,
> {
    pub(crate) rt: &'a R,
    pub(crate) follower: &'a Mutex<Follower<N, S, M, U, R>>,
    pub(crate) grown: &'a Parker,
    pub(crate) traffic: &'a Traffic,
}

impl<
    'a,
    N: FeedName<Item, Shared>,
    S: Copies<Item, Shared, N>,
    M: FeedName<Draw, Taken>,
    U: Copies<Draw, Taken, M>,
    R: Wait + Drop,
> Observe for Following<'a, N, S, M, U, R> {
    fn traffic(&self) -> &Traffic {
        self.traffic
    }

    fn thread_ended(&self) {
        self.grown.unpark();
    }
}

impl<
    'a,
    N: FeedName<Item, Shared>,
    S: Copies<Item, Shared, N>,
    M: FeedName<Draw, Taken>,
    U: Copies<Draw, Taken, M>,
    R: Wait + Drop,
> Follow for Following<'a, N, S, M, U, R> {
    fn follow(&self) {
        let mut follower = self.follower.lock(self.rt);
        // If memory is refused, the next call tries again.
        if follower.pull().is_ok() {
            let _told = follower.publish();
        }
        follower.catch_up_unshown();
    }

    // The topic lasts as long as the process.
    fn is_over(&self) -> bool {
        false
    }

    fn grown(&self) -> &Parker {
        self.grown
    }
}
