// Deciding commands.
ghost use Rattle.std.specs.Prelude.{◌≡◌, ◌⊎◌, ◌+◌, suc, nat_le};
ghost use Rattle.reg_rules.specs.reg_records.declared.limits.TheConstants.{OFFSET_LIMIT};
ghost use Rattle.reg_leader.specs.Course.{Does};
ghost use Rattle.reg_leader.specs.Outcome.{Decides, IsOutOfMemory, Concludes};
ghost use Rattle.reg_leader.specs.Step.{IsStep, course_of};
ghost use Rattle.reg_leader.specs.Leading.{LeadsTo};

use crate::command::Command;
use crate::deed::Deed;
use crate::deletes::{delete_subject, delete_version};
use crate::importing::import_register;
use crate::levels::{clear_level, no_op, set_level};
use crate::modes::{clear_mode, set_mode};
use crate::registering::register;
use crate::reply::Reply;
use reg_rules::base_text::Listed;
use reg_rules::numbered;
use reg_rules::reg_fold::{Refusal, Registry, StoreFault};
use reg_rules::reg_levels::Judged;
use reg_rules::reg_records::{OFFSET_LIMIT, Record};
use std::alloc::Global;

/// The reply to a command, and the batch of records that it writes.
#[derive(Debug, Drop)]
pub struct Decision {
    pub batch: Listed<Record>,
    pub reply: Reply,
}

/// Decides what a command replies and writes, at the offsets from `next` on. `judged` only saves
/// work: without one that fits, the check is made here. If memory is refused, the reply says so and
/// the batch is empty.
///
/// Memory aside, a registry, an offset and a command have one reply and one batch, whatever was
/// judged ([`crate::steps_are_single`]).
pub fn decide(
    alloc: Global,
    registry: &Registry,
    next: u64,
    command: &Command,
    judged: Option<&Judged>,
) -> Decision
    ensures { IsOutOfMemory result ⊎ IsStep registry.now next command.now result.reply result.batch }
{
    match decided(alloc, registry, next, command, judged) {
        Ok(decision) => decision,
        Err(refusal) => Decision {
            batch: Listed::from(Vec::new(alloc)),
            reply: Reply::Refused(refusal),
        },
    }
}

fn decided(
    alloc: Global,
    registry: &Registry,
    next: u64,
    command: &Command,
    judged: Option<&Judged>,
) -> Result<Decision, Refusal>
    ensures { Decides registry.now next command.now result }
{
    match deed_of(alloc, registry, next, command, judged) {
        Ok(deed) => concluded(alloc, next, deed),
        Err(refusal) => Err(refusal),
    }
}

/// Makes the deed of a command, or its refusal.
#[tactic(auto, using(crate::proofs::Leading::leads_followed))]
fn deed_of(
    alloc: Global,
    registry: &Registry,
    next: u64,
    command: &Command,
    judged: Option<&Judged>,
) -> Result<Deed, Refusal>
    ensures { LeadsTo (course_of registry.now next command.now) result }
{
    match command {
        Command::Register { subject, text } => {
            register(alloc, registry, next, subject, text, judged)
        }
        Command::ImportRegister {
            subject,
            text,
            id,
            version,
        } => import_register(alloc, registry, next, subject, text, *id, *version),
        Command::DeleteVersion {
            subject,
            version,
            permanent,
        } => delete_version(alloc, registry, next, subject, *version, *permanent),
        Command::DeleteSubject { subject, permanent } => {
            delete_subject(alloc, registry, next, subject, *permanent)
        }
        Command::SetLevel { subject, level } => set_level(alloc, registry, next, subject, *level),
        Command::ClearLevel(subject) => clear_level(alloc, registry, next, subject),
        Command::SetMode {
            subject,
            mode,
            force,
        } => set_mode(alloc, registry, next, subject, *mode, *force),
        Command::ClearMode(subject) => clear_mode(alloc, registry, next, subject),
        Command::Noop => no_op(alloc, registry, next),
    }
}

/// Makes the decision of a deed. Refused with `NumbersUsedUp` if an offset of the batch would pass
/// the limit.
fn concluded(alloc: Global, next: u64, deed: Deed) -> Result<Decision, Refusal>
    ensures { Concludes next (Does deed.reply deed.writings.items) result }
{
    if !has_offsets(next, deed.writings.len()) {
        return Err(Refusal::Store(StoreFault::NumbersUsedUp));
    }
    let Deed { reply, writings } = deed;
    let batch = numbered(alloc, next, writings)?;
    Ok(Decision {
        batch: Listed::from(batch),
        reply,
    })
}

/// Returns whether this many records have offsets within the limit, from `next` on.
fn has_offsets(next: u64, count: usize) -> bool
    ensures { result ≡ nat_le (next + count) (suc OFFSET_LIMIT) }
{
    match next.checked_add(count as u64) {
        Some(end) => end <= OFFSET_LIMIT + 1,
        None => false,
    }
}
