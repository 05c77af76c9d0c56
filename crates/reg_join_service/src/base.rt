// The base that an adapter tells first.
ghost use Rattle.std.specs.Prelude.{IfErr, IfOk, OnOk};
ghost use Rattle.reg_records.specs.Device.{bytes_in};
ghost use Rattle.reg_leader.specs.Adoption.{IsAdoptRefusal};
ghost use Rattle.reg_join_service.specs.Base.{BeginsWith, HasRead, IsNoBase, IsRefusedLog, MayBegin, lasts_of};

use crate::base_error::JoinBaseError;
use reg_inspection::{no_obstacle_is_open, obstacles};
use reg_leader::AdoptError;
use reg_records::{Device, Log, LogError, read_log};
use reg_shared::{Begun, Shared};
use std::alloc::Global;
use std::io::BufRead;

/// A log that a process begins with.
#[derive(Drop)]
pub struct Base {
    /// The log.
    pub log: Log,
    /// The first state of a topic over the log. It has no record beside the log's.
    pub begun: Begun,
}

/// Reads the base that an adapter tells first: a log, up to its empty line. What follows is left
/// unread. Refused if it isn't a log, if it can't be served, if an id mark is due behind it, if the
/// reader fails, or if memory is refused.
pub fn read_base<B: BufRead>(alloc: Global, reader: &mut Device<B>) -> Result<Base, JoinBaseError>
    ensures read { IfOk result (λ base. HasRead (bytes_in B.remaining reader.old) (bytes_in B.remaining reader.new) base.log) }
    ensures begins { IfOk result (λ base. MayBegin base.log) }
    ensures begun { IfOk result (λ base. BeginsWith base.log base.begun) }
    ensures refused { IfErr result (IsNoBase reader.old reader.new (bytes_in B.remaining reader.old) (bytes_in B.remaining reader.new)) }
{
    let log = read_log(alloc, reader)?;
    match begin_with(alloc, &log) {
        Ok(begun) => Ok(Base { log, begun }),
        Err(error) => Err(error),
    }
}

/// Makes the first state of a topic over a log, with the refusals of [`read_base`].
fn begin_with(alloc: Global, log: &Log) -> Result<Begun, JoinBaseError>
    ensures begins { OnOk result (MayBegin log.now) }
    ensures begun { IfOk result (BeginsWith log.now) }
    ensures refused { IfErr result (IsRefusedLog log.now) }
{
    no_obstacle_is_open();
    let begun = match Shared::adopt(alloc, log) {
        Ok(begun) => begun,
        Err(refused) => return Err(refusal(alloc, log, refused)),
    };
    if !begun.due.is_empty() {
        return Err(JoinBaseError::MarkDue);
    }
    Ok(begun)
}

/// Returns why no process can begin with a log that was refused: all obstacles to serving it, or
/// that memory is refused.
fn refusal(alloc: Global, log: &Log, refused: AdoptError) -> JoinBaseError
    requires { IsAdoptRefusal (lasts_of log.now) log.now.next refused }
    ensures { IsRefusedLog log.now result }
{
    match refused {
        AdoptError::OutOfMemory => JoinBaseError::Log(LogError::OutOfMemory),
        AdoptError::Opaque(_) | AdoptError::TwoSchemas(_) | AdoptError::NumbersUsedUp => {
            match obstacles(alloc, log) {
                Ok(found) => JoinBaseError::Closed(found),
                Err(_refused) => JoinBaseError::Log(LogError::OutOfMemory),
            }
        }
    }
}
