// A snapshot reader of a feed whose value shows a registry.
ghost use Rattle.std.specs.Prelude.{◌≡◌, ◌≢◌, ◌⊎◌, None, IfNone, IfOk, IfSome, OnOk};
ghost use mathlib.Core.List.{IsPrefix};
ghost use Rattle.reg_feed.specs.Published.{WasPublished};
ghost use Rattle.reg_set.specs.LastRecords.{last_records};
ghost use Rattle.reg_lookup.specs.Answers.{IsAnswer};
ghost use Rattle.reg_lookup.specs.Checked.{checked_on};
ghost use Rattle.reg_lookup.specs.declared.query.Query.TheVariants.{Check};
ghost use Rattle.reg_leader.specs.declared.command.Command.TheVariants.{Register};
ghost use Rattle.avro_schema.specs.Schema.{schema_of};
ghost use Rattle.reg_view.specs.Judging.{HasNoJudgement, HasNoMatter, IsJudgementOf, IsMatterOf, against};

use crate::against::Against;
use crate::case::Case;
use crate::laws::alike_judges_alike;
use crate::shows::ShowsRegistry;
use avro_schema::{SchemaText, normal_texts_read_back};
use base_text::Text;
use reg_alike::alike_answers_alike;
use reg_feed::{Copies, FeedName, FeedReader, Seen};
use reg_fold::VersionRef;
use reg_judge::Judge;
use reg_leader::Command;
use reg_levels::{Judged, JudgedError};
use reg_lookup::{Answer, Grounds, Query, answer};
use std::alloc::{AllocError, Global};
use std::marker::Model;

/// A snapshot of a feed that answers queries and never blocks. Contracts see it as the prefix of
/// the feed's list (its *front*) that it saw or learnt of.
#[derive(Drop)]
pub struct View<T: Drop, V: ShowsRegistry<T> + Drop, N: FeedName<T, V>, S: Copies<T, V, N>> {
    alloc: Global,
    reader: FeedReader<T, V, N, S>,
}

impl<T: Drop, V: ShowsRegistry<T> + Drop, N: FeedName<T, V>, S: Copies<T, V, N>> Model
    for View<T, V, N, S> {
    ghost use Rattle.std.specs.Prelude.{List};

    ghost Value = { List T };

    ghost view = { λ v. v.reader };

    ghost invariant = { λ v. V.begins N.first };
}

impl<T: Drop, V: ShowsRegistry<T> + Drop, N: FeedName<T, V>, S: Copies<T, V, N>> View<T, V, N, S> {
    /// Makes a view over a reader of the feed.
    pub fn new(alloc: Global, reader: FeedReader<T, V, N, S>) -> View<T, V, N, S>
        requires { V.begins N.first }
        ensures { result ≡ reader }
    {
        View { alloc, reader }
    }

    /// Returns the prefix that it saw or learnt of.
    pub fn seen(&self) -> &Seen<T, V, N>
        ensures { result.now ≡ self.now }
    {
        self.reader.seen()
    }

    /// Moves to the longer of its own prefix and the told one.
    pub fn learn(&mut self, told: &Seen<T, V, N>)
        ensures one { (self.new ≡ self.old) ⊎ (self.new ≡ told.now) }
        ensures this { IsPrefix self.old self.new }
        ensures that { IsPrefix told.now self.new }
    {
        self.reader.learn(told);
    }

    /// Answers a query from a published list that extends all that this view saw or learnt of;
    /// that list then counts as seen. It never blocks. The only error is out of memory; it also
    /// comes if the feed's writer is gone.
    ///
    /// For a check, what it needs is copied first and then checked, so that a long check holds up
    /// nobody.
    pub fn lookup(&mut self, alloc: Global, query: &Query) -> Result<Answer, AllocError>
        ensures answered { IfOk result (IsAnswer (last_records (V.comes_to N.first self.new)) query.now) }
        ensures answers_for { IfOk result (IsAnswer (V.answers_for N.first self.new) query.now) }
        ensures published { WasPublished (V.publishes N.first) self.new }
        ensures longer { IsPrefix self.old self.new }
    {
        V::folds_show();
        alike_answers_alike();
        look_or_check(alloc, &mut self.reader, query)
    }

    /// Judges a registration as [`View::try_judge`] does. `None` also if memory is refused or the
    /// feed's writer is gone.
    pub fn judge(&mut self, command: &Command, judge: &mut Judge) -> Option<Judged>
        ensures judged { IfSome result (IsJudgementOf (last_records (V.comes_to N.first self.new)) command.now) }
        ensures answers_for { IfSome result (IsJudgementOf (V.answers_for N.first self.new) command.now) }
        ensures longer { IsPrefix self.old self.new }
        ensures capacities { judge.new.capacities ≡ judge.old.capacities }
    {
        match self.try_judge(command, judge) {
            Ok(found) => found,
            Err(AllocError) => None,
        }
    }

    /// Judges a registration over a published list that extends all that this view saw or learnt
    /// of; that list then counts as seen. `None` for every other command, and if the new text, or
    /// that of a live version that the level looks at, isn't a schema. The only error is out of
    /// memory; it also comes if the feed's writer is gone.
    ///
    /// What the text is checked against is copied first, so that a long check holds up nobody.
    #[tactic(auto, using(crate::proofs::Matters::no_judgement, crate::proofs::Matters::nothing_judged))]
    pub fn try_judge(
        &mut self,
        command: &Command,
        judge: &mut Judge,
    ) -> Result<Option<Judged>, AllocError>
        ensures judged { IfOk result (λ found. IfSome found (IsJudgementOf (last_records (V.comes_to N.first self.new)) command.now)) }
        ensures answers_for { IfOk result (λ found. IfSome found (IsJudgementOf (V.answers_for N.first self.new) command.now)) }
        ensures none { IfOk result (λ found. IfNone found (HasNoJudgement (last_records (V.comes_to N.first self.new)) command.now)) }
        ensures longer { IsPrefix self.old self.new }
        ensures capacities { judge.new.capacities ≡ judge.old.capacities }
    {
        normal_texts_read_back();
        let Some(case) = self.case(command)? else {
            return Ok(None);
        };
        match case.into_judged(judge) {
            Ok(judged) => Ok(Some(judged)),
            Err(error) => {
                must_be_unread(error)?;
                Ok(None)
            }
        }
    }

    /// Makes the case of a registration over a published list that extends all that this view saw
    /// or learnt of. `None` for every other command, and if the text isn't a schema. The only error
    /// is out of memory; it also comes if the feed's writer is gone.
    pub fn case(&mut self, command: &Command) -> Result<Option<Case>, AllocError>
        ensures case { IfOk result (λ found. IfSome found (IsMatterOf (last_records (V.comes_to N.first self.new)) command.now)) }
        ensures answers_for { IfOk result (λ found. IfSome found (IsMatterOf (V.answers_for N.first self.new) command.now)) }
        ensures none { IfOk result (λ found. IfNone found (HasNoMatter command.now)) }
        ensures longer { IsPrefix self.old self.new }
    {
        V::folds_show();
        alike_judges_alike();
        case_of(self.alloc, &mut self.reader, command)
    }
}

/// Makes the case of a registration; `None` for every other command, and if the text isn't a
/// schema.
#[tactic(auto, using(crate::proofs::Matters::no_matter))]
fn case_of<T: Drop, V: ShowsRegistry<T> + Drop, N: FeedName<T, V>, S: Copies<T, V, N>>(
    alloc: Global,
    reader: &mut FeedReader<T, V, N, S>,
    command: &Command,
) -> Result<Option<Case>, AllocError>
    requires { V.begins N.first }
    ensures case { IfOk result (λ found. IfSome found (IsMatterOf (last_records (V.comes_to N.first reader.new)) command.now)) }
    ensures none { IfOk result (λ found. IfNone found (HasNoMatter command.now)) }
    ensures longer { IsPrefix reader.old reader.new }
{
    let Command::Register { subject, text } = command else {
        return Ok(None);
    };
    copy_case(alloc, reader, subject, text)
}

/// Passes on that memory was refused; every other error says that a text isn't a schema, and is
/// dropped.
fn must_be_unread(error: JudgedError) -> Result<(), AllocError>
    ensures { OnOk result (error ≢ JudgedError.OutOfMemory) }
{
    match error {
        JudgedError::OutOfMemory => Err(AllocError),
        JudgedError::NewText | JudgedError::OldText(_) => Ok(()),
    }
}

/// Answers a query.
fn look_or_check<T: Drop, V: ShowsRegistry<T> + Drop, N: FeedName<T, V>, S: Copies<T, V, N>>(
    alloc: Global,
    reader: &mut FeedReader<T, V, N, S>,
    query: &Query,
) -> Result<Answer, AllocError>
    requires { V.begins N.first }
    ensures answered { IfOk result (IsAnswer (last_records (V.comes_to N.first reader.new)) query.now) }
    ensures published { WasPublished (V.publishes N.first) reader.new }
    ensures longer { IsPrefix reader.old reader.new }
{
    match query {
        Query::Check {
            subject,
            version,
            text,
            verbose,
        } => check(alloc, reader, subject, *version, text, *verbose),
        _ => look(alloc, reader, query),
    }
}

/// Answers a check.
fn check<T: Drop, V: ShowsRegistry<T> + Drop, N: FeedName<T, V>, S: Copies<T, V, N>>(
    alloc: Global,
    reader: &mut FeedReader<T, V, N, S>,
    subject: &Text,
    which: Option<VersionRef>,
    text: &Text,
    verbose: bool,
) -> Result<Answer, AllocError>
    requires { V.begins N.first }
    ensures answered { IfOk result (IsAnswer (last_records (V.comes_to N.first reader.new)) (Check subject.now which text.now verbose)) }
    ensures published { WasPublished (V.publishes N.first) reader.new }
    ensures longer { IsPrefix reader.old reader.new }
{
    let grounds = copy_grounds(alloc, reader, subject.as_str(), which)?;
    grounds.answer(alloc, text.as_str(), verbose)
}

/// Copies what a check needs.
fn copy_grounds<T: Drop, V: ShowsRegistry<T> + Drop, N: FeedName<T, V>, S: Copies<T, V, N>>(
    alloc: Global,
    reader: &mut FeedReader<T, V, N, S>,
    subject: &str,
    which: Option<VersionRef>,
) -> Result<Grounds, AllocError>
    requires { V.begins N.first }
    ensures grounds { IfOk result (λ grounds. grounds ≡ checked_on (last_records (V.comes_to N.first reader.new)) subject.now which) }
    ensures published { WasPublished (V.publishes N.first) reader.new }
    ensures longer { IsPrefix reader.old reader.new }
{
    V::folds_show();
    let found = reader.read(
        |shown| -> Result<Grounds, AllocError>
            ensures { IfOk result (λ grounds. grounds ≡ checked_on (V.shows shown.now) subject.entry.now which) }
        { Grounds::of(alloc, shown.registry(), subject, which) },
    );
    match found {
        Some(copied) => copied,
        None => Err(AllocError),
    }
}

/// Makes the case of a registration if its text is a schema.
fn copy_case<T: Drop, V: ShowsRegistry<T> + Drop, N: FeedName<T, V>, S: Copies<T, V, N>>(
    alloc: Global,
    reader: &mut FeedReader<T, V, N, S>,
    subject: &Text,
    text: &SchemaText,
) -> Result<Option<Case>, AllocError>
    requires { V.begins N.first }
    ensures case { IfOk result (λ found. IfSome found (IsMatterOf (last_records (V.comes_to N.first reader.new)) (Register subject.now text.now))) }
    ensures none { IfOk result (λ found. IfNone found (schema_of text.now ≡ None)) }
    ensures longer { IsPrefix reader.old reader.new }
{
    let Some(schema) = text.schema()? else {
        return Ok(None);
    };
    let subject = subject.clone()?;
    let new_text = schema.normal().clone()?;
    let against = copy_against(alloc, reader, &subject)?;
    Ok(Some(Case::of(alloc, subject, new_text, schema, against)))
}

/// Copies what a new schema of the subject is checked against.
fn copy_against<T: Drop, V: ShowsRegistry<T> + Drop, N: FeedName<T, V>, S: Copies<T, V, N>>(
    alloc: Global,
    reader: &mut FeedReader<T, V, N, S>,
    subject: &Text,
) -> Result<Against, AllocError>
    requires { V.begins N.first }
    ensures against { IfOk result (λ made. made ≡ against (last_records (V.comes_to N.first reader.new)) subject.now) }
    ensures longer { IsPrefix reader.old reader.new }
{
    V::folds_show();
    let found = reader.read(
        |shown| -> Result<Against, AllocError>
            ensures { IfOk result (λ made. made ≡ against (V.shows shown.now) subject.entry.now) }
        { Against::over(alloc, shown.registry(), subject) },
    );
    match found {
        Some(copied) => copied,
        None => Err(AllocError),
    }
}

/// Answers any query but a check, straight from the shown registry.
fn look<T: Drop, V: ShowsRegistry<T> + Drop, N: FeedName<T, V>, S: Copies<T, V, N>>(
    alloc: Global,
    reader: &mut FeedReader<T, V, N, S>,
    query: &Query,
) -> Result<Answer, AllocError>
    requires { V.begins N.first }
    ensures answered { IfOk result (IsAnswer (last_records (V.comes_to N.first reader.new)) query.now) }
    ensures published { WasPublished (V.publishes N.first) reader.new }
    ensures longer { IsPrefix reader.old reader.new }
{
    V::folds_show();
    let found = reader.read(
        |shown| -> Result<Answer, AllocError>
            ensures { IfOk result (IsAnswer (V.shows shown.now) query.entry.now) }
        { answer(alloc, shown.registry(), query) },
    );
    match found {
        Some(answered) => answered,
        None => Err(AllocError),
    }
}
