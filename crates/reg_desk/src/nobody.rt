// Desks that carry out no commands.
ghost use Rattle.std.specs.Prelude.{◌≡◌};

use crate::commander::Commander;
use reg_feed::{Copies, FeedName};
use reg_fold::Refusal;
use reg_leader::{Command, Reply};
use reg_lookup::{Answer, Query};
use reg_node::{ShowsRegistry, View};

/// A commander that refuses each command, since it has to go to the writer of the log
/// (`Refusal::FollowsLog`).
#[derive(Clone, Copy)]
pub struct Nobody;

impl<T: Drop, V: ShowsRegistry<T> + Drop, N: FeedName<T, V>> Commander<T, V, N> for Nobody {
    ghost use Rattle.reg_desk.specs.FeedDesk.{RefusesAll};

    ghost carries = { RefusesAll };

    fn carry_out<S: Copies<T, V, N>>(
        &mut self,
        _view: &mut View<T, V, N, S>,
        _command: &Command,
    ) -> Reply {
        Reply::Refused(Refusal::FollowsLog)
    }

    fn has_news(&self, _query: &Query, _answer: &Answer) -> bool {
        false
    }
}
