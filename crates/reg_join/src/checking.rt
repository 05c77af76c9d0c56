// A check of the chain through a pen.
ghost use Rattle.std.specs.Prelude.{◌≡◌};
ghost use Rattle.reg_join.specs.Joined.{IsJoined, batches_of};
ghost use Rattle.reg_join.specs.Joining.{Checks, IsNotAsked, KeepsTaken};
ghost use Rattle.reg_join.specs.Taking.{GoesOn};
ghost use Rattle.reg_chain.specs.declared.chain.ChainAnswer.TheVariants.{Kept};

use crate::join_keep::JoinKeep;
use reg_chain::{Chain, ChainAnswer};
use reg_feed::{Copies, FeedName};
use reg_pen::{Pen, WithKeep};
use reg_shared::Shared;
use reg_topic::Item;
use std::sync::Wait;

/// Asks the chain whether it has batches beyond all that was told. The pen's list doesn't change.
pub fn check_chain<
    N: FeedName<Item, Shared>,
    S: Copies<Item, Shared, N>,
    C: Chain + Drop,
    R: Wait + Drop,
>(pen: &mut Pen<N, S, JoinKeep<C>, R>) -> ChainAnswer
    ensures checks { Checks C.told C.answers pen.old.keep result pen.new.keep }
    ensures same { pen.new ≡ record pen.old { keep = pen.new.keep } }
    ensures goes_on { GoesOn C.told pen.old pen.new }
    ensures kept { IsJoined C.told pen.old → result ≡ Kept → C.told pen.new.keep.chain ≡ batches_of pen.new }
{
    let mut checking = Checking {
        answer: ChainAnswer::Declined,
    };
    pen.lend_keep(&mut checking);
    checking.answer
}

/// The chain's answer to a check.
#[derive(Drop)]
struct Checking {
    answer: ChainAnswer,
}

impl<C: Chain + Drop> WithKeep<JoinKeep<C>> for Checking {
    ghost does = { λ _ old checking new. Checks C.told C.answers old checking.answer new × KeepsTaken C.told old new × IsNotAsked old new };

    fn with_keep(&mut self, keep: &mut JoinKeep<C>) {
        self.answer = keep.check();
    }
}
