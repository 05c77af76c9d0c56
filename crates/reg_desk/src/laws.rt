// Laws of connections that go from desk to desk. They cost nothing at run time.
ghost use Rattle.reg_desk.specs.Desk.{CallsKeepFresh, LearningKeepsFresh, ReadTheirWrites};
ghost use Rattle.reg_desk.specs.FeedDesk.{ShowTheirWrites};
ghost use Rattle.reg_shared.specs.Held.{Held};

use crate::commander::Commander;
use crate::wake::Wake;
use reg_feed::FeedName;
use reg_node::ShowsRegistry;
use reg_pen::Keep;
use reg_shared::Shared;
use reg_topic::Item;

/// States that a connection reads its own writes over a feed: whatever a desk had seen once it was
/// called, each later answer on that connection extends it, whichever desks over that feed serve it
/// and however often it moves. What a command wrote is among that.
pub fn feed_connections_read_their_writes<
    T: Drop,
    V: ShowsRegistry<T> + Drop,
    N: FeedName<T, V>,
    C: Commander<T, V, N>,
>()
    ensures { ShowTheirWrites (V.comes_to N.first) (V.answers_for N.first) (V.publishes N.first) C.carries }
{}

/// States that a connection reads its own writes on a node: anyone who was told of a write on it
/// reads it there from then on, whichever desks of the node serve it and however often it moves.
/// The premise is that the desk that wrote it was fresh.
pub fn connections_read_their_writes<N: FeedName<Item, Shared>, K: Keep, W: Wake<N>>()
    ensures calls { (first : Held) → CallsKeepFresh K.keeps W.wakes first }
    ensures learning { (first : Held) → LearningKeepsFresh K.keeps W.wakes first }
    ensures turns { (first : Held) → ReadTheirWrites K.keeps W.wakes first }
{}
