// What is woken when the topic may have grown.
ghost use Rattle.std.specs.Prelude.{List};
ghost use Rattle.reg_topic.specs.declared.published.Item.{Item};

use reg_feed::{FeedName, Seen};
use reg_shared::Shared;
use reg_topic::Item;

/// Wakes the followers of other nodes, so that they pull soon.
pub trait Wake<N: FeedName<Item, Shared>> {
    // The state before, the published prefix, the state after.
    ghost wakes: { Self → List Item → Self → Type 0 };

    /// Called once after each command, with the prefix that the command's submit gave. What the
    /// command wrote is published by then.
    fn topic_grew(&mut self, front: &Seen<Item, Shared, N>)
        ensures { wakes self.old front.now self.new };
}
