// What a desk's answers extend; it goes with a connection to the next desk.
ghost use Rattle.std.specs.Prelude.{◌≡◌, true, option_map};
ghost use Rattle.reg_desk.specs.Desk.{IsFresh, front_of};

use reg_feed::{FeedName, Seen};
use reg_node::{Draw, Taken};
use reg_shared::Shared;
use reg_topic::Item;
use std::marker::Model;

/// What a desk's answers extend: a prefix of the topic's list if there was a command, and a prefix
/// of its node's list. If it is *fresh*, the node's prefix shows the topic's.
#[derive(Drop)]
pub struct Standing<N: FeedName<Item, Shared>, M: FeedName<Draw, Taken>> {
    topic: Option<Seen<Item, Shared, N>>,
    node: Seen<Draw, Taken, M>,
    fresh: bool,
}

impl<N: FeedName<Item, Shared>, M: FeedName<Draw, Taken>> Model for Standing<N, M> {
    ghost use Rattle.std.specs.Prelude.{◌≡◌, true};
    ghost use Rattle.reg_desk.specs.Desk.{Fronts, IsFresh, front_of};

    ghost Value = { Fronts };

    ghost view = { λ s. record { topic = s.topic; node = s.node; fresh = s.fresh } };

    ghost invariant = { λ s. s.fresh ≡ true → IsFresh N.first (front_of s.topic) s.node };
}

impl<N: FeedName<Item, Shared>, M: FeedName<Draw, Taken>> Standing<N, M> {
    /// Makes a standing of these prefixes.
    pub fn of(
        topic: Option<Seen<Item, Shared, N>>,
        node: Seen<Draw, Taken, M>,
        fresh: bool,
    ) -> Standing<N, M>
        requires { fresh ≡ true → IsFresh N.first (front_of topic) node }
        ensures { result ≡ record { topic = topic; node = node; fresh = fresh } }
    {
        Standing { topic, node, fresh }
    }

    /// Returns the prefix of the topic's list; `None` if there was no command.
    pub fn topic(&self) -> Option<&Seen<Item, Shared, N>>
        ensures front { option_map (λ s. s.now) result ≡ self.now.topic }
        ensures shown { self.now.fresh ≡ true → IsFresh N.first (front_of self.now.topic) self.now.node }
    {
        self.topic.as_ref()
    }

    /// Returns the prefix of the node's list.
    pub fn node(&self) -> &Seen<Draw, Taken, M>
        ensures { result.now ≡ self.now.node }
    {
        &self.node
    }

    /// Returns whether the node's prefix is known to show the topic's.
    pub fn fresh(&self) -> bool
        ensures { result ≡ self.now.fresh }
    {
        self.fresh
    }
}
