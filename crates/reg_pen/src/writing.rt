// A submit with the compaction that may follow it.
ghost use Rattle.std.specs.Prelude.{◌≡◌};
ghost use mathlib.Core.List.{IsPrefix};
ghost use Rattle.reg_shared.specs.Held.{base_of};
ghost use Rattle.reg_pen.specs.Deletes.{floor_due};
ghost use Rattle.reg_pen.specs.Pen.{IsPen, counted};
ghost use Rattle.reg_pen.specs.Writing.{SubmitsAndCompacts};

use crate::keep::Keep;
use crate::pass::Pass;
use crate::pen::{Pen, Submitted};
use reg_feed::{Copies, FeedName, Seen};
use reg_leader::Command;
use reg_levels::Judged;
use reg_shared::Shared;
use reg_topic::Item;
use std::sync::Wait;

/// A compaction follows every so many batches.
const BATCHES: u64 = 64;

impl<N: FeedName<Item, Shared>, S: Copies<Item, Shared, N>, K: Keep + Drop, R: Wait + Drop> Pen<
    N,
    S,
    K,
    R,
> {
    /// Carries out a command as [`Pen::submit`] does. If the count of batches reaches or passes a
    /// multiple of 64 by that, a compaction follows; if it is refused, the reply stays. The list in
    /// the result is the one before the compaction.
    ///
    /// If many deletes are due, the compaction's floor is what the next offset was at the
    /// compaction before, so each delete survives at least one compaction. Else the floor stays.
    pub fn submit_and_compact(
        &mut self,
        pass: &mut Pass<N>,
        since: Option<&Seen<Item, Shared, N>>,
        command: &Command,
        judged: Option<&Judged>,
    ) -> Submitted<N>
        ensures was { IsPen (base_of N.first) self.old.published self.old.pending }
        ensures done { SubmitsAndCompacts K.keeps (base_of N.first) since.entry self.old command.now result.reply result.seen self.new }
        ensures grows { IsPrefix self.old.published self.new.published }
        ensures counted { pass.new.submits ≡ counted pass.old.submits }
    {
        let before = self.batches();
        let submitted = self.submit(pass, since, command, judged);
        if self.batches() / BATCHES > before / BATCHES {
            let floor = self.floor_due();
            let _refused = self.compact_to(floor).is_err();
        }
        submitted
    }
}
