// A desk (request handler) over a feed. Each worker has one for all its connections.
ghost use Rattle.std.specs.Prelude.{◌≡◌};

use crate::commander::Commander;
use reg_conversation::SharedDesk;
use reg_feed::{Copies, FeedName, Seen};
use reg_http::Desk;
use reg_leader::{Command, Reply};
use reg_lookup::{Answer, Query};
use reg_node::{ShowsRegistry, View};
use std::alloc::{AllocError, Global};
use std::marker::Model;

/// A request handler that answers queries from what a feed shows and passes commands to its
/// commander. Each answer comes from a list that extends what earlier answers and commands saw.
///
/// Contracts see the prefix of the feed's list that was seen or told of, and the commander.
#[derive(Drop)]
pub struct FeedDesk<
    T: Drop,
    V: ShowsRegistry<T> + Drop,
    N: FeedName<T, V>,
    S: Copies<T, V, N>,
    C: Commander<T, V, N> + Drop,
> {
    commander: C,
    view: View<T, V, N, S>,
}

impl<
    T: Drop,
    V: ShowsRegistry<T> + Drop,
    N: FeedName<T, V>,
    S: Copies<T, V, N>,
    C: Commander<T, V, N> + Drop,
> Model for FeedDesk<T, V, N, S, C> {
    ghost use Rattle.reg_desk.specs.FeedDesk.{Stands};

    ghost Value = { Stands T C };

    ghost view = { λ d. record { front = d.view; commander = d.commander } };
}

impl<
    T: Drop,
    V: ShowsRegistry<T> + Drop,
    N: FeedName<T, V>,
    S: Copies<T, V, N>,
    C: Commander<T, V, N> + Drop,
> FeedDesk<T, V, N, S, C> {
    /// Makes a desk that has carried out no command.
    pub fn new(commander: C, view: View<T, V, N, S>) -> FeedDesk<T, V, N, S, C>
        ensures { result ≡ record { front = view; commander = commander } }
    {
        FeedDesk { commander, view }
    }
}

impl<
    T: Drop,
    V: ShowsRegistry<T> + Drop,
    N: FeedName<T, V>,
    S: Copies<T, V, N>,
    C: Commander<T, V, N> + Drop,
> Desk for FeedDesk<T, V, N, S, C> {
    ghost use Rattle.reg_desk.specs.FeedDesk.{AsksFeed, CommandsFeed};

    ghost asks = { AsksFeed (V.comes_to N.first) (V.answers_for N.first) (V.publishes N.first) };

    ghost commands = { CommandsFeed C.carries };

    // The second look extends all that the first one saw.
    fn ask(&mut self, alloc: Global, query: &Query) -> Result<Answer, AllocError> {
        let answer = self.view.lookup(alloc, query)?;
        if self.commander.has_news(query, &answer) {
            return self.view.lookup(alloc, query);
        }
        Ok(answer)
    }

    fn command(&mut self, command: &Command) -> Reply {
        self.commander.carry_out(&mut self.view, command)
    }
}

impl<
    T: Drop,
    V: ShowsRegistry<T> + Drop,
    N: FeedName<T, V>,
    S: Copies<T, V, N>,
    C: Commander<T, V, N> + Drop,
> SharedDesk for FeedDesk<T, V, N, S, C> {
    type Standing = Seen<T, V, N>;

    ghost use Rattle.reg_desk.specs.FeedDesk.{LearnsFront, StandsOnFront};

    ghost stands = { StandsOnFront };

    ghost learns = { LearnsFront };

    fn standing(&self) -> Seen<T, V, N> {
        self.view.seen().again()
    }

    fn learn(&mut self, standing: &Seen<T, V, N>) {
        self.view.learn(standing);
    }
}
