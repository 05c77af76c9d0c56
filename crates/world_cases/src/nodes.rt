// A node of one view, and what is done with it.
ghost use Rattle.std.specs.Prelude.{◌≡◌};
ghost use Rattle.std.specs.FinSet.{empty};

use crate::topics::{Place, Writing, reader_of};
use reg_feed::{Copies, FeedName, Stored, Unnamed, feed};
use reg_judge::Judge;
use reg_leader::Command;
use reg_levels::Judged;
use reg_lookup::{Answer, Query};
use reg_node::{Case, Draw, Follower, NodeView, Taken};
use reg_pen::Keep;
use reg_shared::Shared;
use reg_topic::Item;
use std::alloc::{AllocError, Global};
use std::marker::Brand;
use std::sync::Wait;
use test_tools::{CaseError, Made, Said};
use test_words::{answer_text, query_in_words};

/// A node, whatever its feed is named.
pub(crate) trait Peer {
    /// Takes what is new in the topic, and shows it. Gives how many takes its list then has.
    fn take(&mut self) -> Made<u64>;

    /// Makes its view anew.
    fn renew(&mut self) -> Made<()>;

    fn answer_to(&mut self, alloc: Global, query: &Query) -> Made<Answer>;

    /// The case of a command, and what is judged of it.
    fn judge(
        &mut self,
        command: &Command,
        judge: &mut Judge,
    ) -> Made<(Option<Case>, Option<Judged>)>;
}

/// What is done with a node that is lent.
pub(crate) trait Visit {
    fn meet<A: Peer>(&mut self, node: &mut A) -> Made<()>;
}

/// A node's follower, and a view of it.
#[derive(Drop)]
pub(crate) struct Node<
    N: FeedName<Item, Shared>,
    S: Copies<Item, Shared, N>,
    M: FeedName<Draw, Taken>,
    U: Copies<Draw, Taken, M>,
    R: Wait + Drop,
> {
    pub(crate) follower: Follower<N, S, M, U, R>,
    pub(crate) view: NodeView<M, U>,
}

/// A node that has taken nothing.
pub(crate) fn make_node<
    N: FeedName<Item, Shared>,
    S: Copies<Item, Shared, N>,
    K: Keep + Drop,
    M: FeedName<Draw, Taken>,
    R: Wait + Drop + Copy,
>(
    alloc: Global,
    place: &Writing<N, S, K, R>,
    list: Unnamed<Draw>,
) -> Made<Node<N, S, M, Stored<Draw, Taken, M>, R>>
    requires { (list.reached.book ≡ M.book) × (M.first ≡ empty) }
{
    let topic = reader_of(&place.rt, place.pen)?;
    let out = feed::<Draw, Taken, M, R>(place.rt, alloc, list, Taken::new(alloc), 2)?;
    let mut follower = Follower::new(topic, Box::new(alloc, out)?);
    match follower.view() {
        Ok(view) => Ok(Node { follower, view }),
        Err(_) => Err(AllocError),
    }
}

/// Makes a node, and lends it.
pub(crate) fn lend_node<
    N: FeedName<Item, Shared>,
    S: Copies<Item, Shared, N>,
    K: Keep + Drop,
    R: Wait + Drop + Copy,
    V: Visit,
>(alloc: Global, place: &Writing<N, S, K, R>, visit: &mut V) -> Made<()> {
    lend_named::<N, S, K, Brand, R, V>(alloc, place, Unnamed::new(), visit)
}

fn lend_named<
    N: FeedName<Item, Shared>,
    S: Copies<Item, Shared, N>,
    K: Keep + Drop,
    M: FeedName<Draw, Taken>,
    R: Wait + Drop + Copy,
    V: Visit,
>(alloc: Global, place: &Writing<N, S, K, R>, list: Unnamed<Draw>, visit: &mut V) -> Made<()>
    requires { (list.reached.book ≡ M.book) × (M.first ≡ empty) }
{
    let mut node = make_node::<N, S, K, M, R>(alloc, place, list)?;
    visit.meet(&mut node)
}

impl<
    N: FeedName<Item, Shared>,
    S: Copies<Item, Shared, N>,
    M: FeedName<Draw, Taken>,
    U: Copies<Draw, Taken, M>,
    R: Wait + Drop,
> Peer for Node<N, S, M, U, R> {
    fn take(&mut self) -> Made<u64> {
        self.follower.pull()?;
        let told = self.follower.publish()?;
        self.view.learn(&told);
        Ok(told.len())
    }

    fn renew(&mut self) -> Made<()> {
        match self.follower.view() {
            Ok(view) => self.view = view,
            Err(_) => return Err(AllocError),
        }
        Ok(())
    }

    fn answer_to(&mut self, alloc: Global, query: &Query) -> Made<Answer> {
        self.view.lookup(alloc, query)
    }

    fn judge(
        &mut self,
        command: &Command,
        judge: &mut Judge,
    ) -> Made<(Option<Case>, Option<Judged>)> {
        let case = self.view.case(command)?;
        Ok((case, self.view.judge(command, judge)))
    }
}

pub(crate) fn number_text(alloc: Global, number: u64) -> Made<String> {
    format!(in alloc; "{number}")
}

/// What comes of what is done at a node: of `takes`, how many it then has; of `renew`, that its view is made anew; of a query, its answer.
pub(crate) fn node_text<A: Peer>(alloc: Global, node: &mut A, words: &str) -> Said<String> {
    if words == "takes" {
        return Ok(number_text(alloc, node.take()?)?);
    }
    if words == "renew" {
        node.renew()?;
        return Ok(String::from_str(alloc, "renewed")?);
    }
    let answer = node.answer_to(alloc, &query_in_words(alloc, words)?)?;
    Ok(answer_text(alloc, &answer)?)
}

/// A node that is asked once it took all that is kept, and what comes of it.
#[derive(Drop)]
struct Asking<'x> {
    alloc: Global,
    words: &'x str,
    came: Said<String>,
}

impl<'x> Visit for Asking<'x> {
    fn meet<A: Peer>(&mut self, node: &mut A) -> Made<()> {
        let _takes = node.take()?;
        self.came = node_text(self.alloc, node, self.words);
        Ok(())
    }
}

/// What comes of what is asked of a node that is made now.
pub(crate) fn asked_anew<P: Place>(alloc: Global, place: &P, words: &str) -> Said<String> {
    let mut asking = Asking {
        alloc,
        words,
        came: Err(CaseError::NotUnderstood),
    };
    place.with_node(alloc, &mut asking)?;
    asking.came
}
