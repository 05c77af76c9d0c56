// What carries out the commands of a desk over a feed.
ghost use mathlib.Core.List.{IsPrefix};

use reg_feed::{Copies, FeedName};
use reg_leader::{Command, Reply};
use reg_lookup::{Answer, Query};
use reg_node::{ShowsRegistry, View};

/// What carries out the commands of a desk over a feed, or refuses them.
pub trait Commander<T: Drop, V: ShowsRegistry<T> + Drop, N: FeedName<T, V>> {
    ghost use Rattle.std.specs.Prelude.{List};
    ghost use Rattle.reg_leader.specs.declared.command.Command.{Command};
    ghost use Rattle.reg_leader.specs.declared.reply.Reply.{Reply};

    // The state before, the prefix that the view had seen before, the command, the reply, the
    // prefix that the view has seen after, the state after.
    ghost carries: { Self → List T → Command → Reply → List T → Self → Type 0 };

    /// Carries out a command, once, or refuses it. The view then shows its effect.
    fn carry_out<S: Copies<T, V, N>>(
        &mut self,
        view: &mut View<T, V, N, S>,
        command: &Command,
    ) -> Reply
        ensures carried { carries self.old view.old command.now result view.new self.new }
        ensures longer { IsPrefix view.old view.new };

    /// Returns whether the feed may by now show more of what the query asks for, so that a second
    /// look is worth it. May block until it knows.
    fn has_news(&self, query: &Query, answer: &Answer) -> bool;
}
