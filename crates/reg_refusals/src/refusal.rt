// Why a request is refused.
ghost use Rattle.std.specs.Prelude.{◌≡◌};
ghost use Rattle.std.specs.Option.{option_copied};
ghost use Rattle.reg_refusals.specs.Refusal.{code_of, status_of, reason_of, message_of};

use crate::allow::Allow;
use crate::reason::{Reason, StoreFault};
use base_text::Text;
use std::alloc::{AllocError, AllocFailed};
use std::error::Error;
use std::fmt;

/// A refusal of a request: its code, and its reason if the code has several.
#[derive(Debug, Drop, PartialEq, Eq)]
pub enum Refusal {
    /// The request has a form that the registry doesn't answer.
    BadRequest,
    /// The registry has no such route.
    NotFound,
    /// The path doesn't support the method, but it supports these.
    MethodNotAllowed(Allow),
    /// The request has a body without a length, or a chunked one.
    LengthRequired,
    /// The request's body is longer than the limit.
    PayloadTooLarge,
    /// The request's body has a media type that isn't supported.
    UnsupportedMediaType,
    /// The request's head has more bytes or more lines than the limit.
    HeadTooLarge,
    /// The subject has no version that counts for the request.
    SubjectNotFound,
    /// The subject has no such version, or it doesn't count for the request.
    VersionNotFound,
    /// No entry, a version in the registry, has the id or the schema.
    SchemaNotFound,
    /// All versions of the subject are soft-deleted already.
    SubjectSoftDeleted,
    /// A version of the subject isn't soft-deleted yet.
    SubjectNotSoftDeleted,
    /// The version is soft-deleted already.
    VersionSoftDeleted,
    /// The version isn't soft-deleted yet.
    VersionNotSoftDeleted,
    /// The subject has no level of its own.
    SubjectHasNoLevel,
    /// The subject has no mode of its own.
    SubjectHasNoMode,
    /// The schema doesn't meet the level in force; this is the whole message.
    Incompatible(Text),
    /// The text isn't a schema, or one of its defaults is invalid.
    InvalidSchema,
    /// The version in the path isn't a valid version.
    InvalidVersion,
    /// The name isn't that of a compatibility level.
    InvalidLevel,
    /// The name isn't that of a mode.
    InvalidMode,
    /// The operation isn't permitted.
    NotPermitted(Reason),
    /// The node reads a log that another process writes, and takes no commands.
    FollowsLog,
    /// The registry or its store has a fault.
    Store(StoreFault),
}

impl Refusal {
    /// Returns the code in the response's body: an HTTP status of three digits (RFC 9110), or one
    /// with two more digits, as in the Confluent Schema Registry API.
    pub fn code(&self) -> u32
        ensures { result ≡ code_of self.now }
    {
        match self {
            Refusal::BadRequest => 400,
            Refusal::NotFound => 404,
            Refusal::MethodNotAllowed(_) => 405,
            Refusal::LengthRequired => 411,
            Refusal::PayloadTooLarge => 413,
            Refusal::UnsupportedMediaType => 415,
            Refusal::HeadTooLarge => 431,
            Refusal::SubjectNotFound => 40401,
            Refusal::VersionNotFound => 40402,
            Refusal::SchemaNotFound => 40403,
            Refusal::SubjectSoftDeleted => 40404,
            Refusal::SubjectNotSoftDeleted => 40405,
            Refusal::VersionSoftDeleted => 40406,
            Refusal::VersionNotSoftDeleted => 40407,
            Refusal::SubjectHasNoLevel => 40408,
            Refusal::SubjectHasNoMode => 40409,
            Refusal::Incompatible(_) => 409,
            Refusal::InvalidSchema => 42201,
            Refusal::InvalidVersion => 42202,
            Refusal::InvalidLevel => 42203,
            Refusal::InvalidMode => 42204,
            Refusal::NotPermitted(_) => 42205,
            Refusal::FollowsLog => 50003,
            Refusal::Store(fault) => fault.code(),
        }
    }

    /// Returns the HTTP status (RFC 9110): the first three digits of the code.
    pub fn status(&self) -> u16
        ensures { result ≡ status_of self.now }
    {
        match self {
            Refusal::BadRequest => 400,
            Refusal::NotFound
            | Refusal::SubjectNotFound
            | Refusal::VersionNotFound
            | Refusal::SchemaNotFound
            | Refusal::SubjectSoftDeleted
            | Refusal::SubjectNotSoftDeleted
            | Refusal::VersionSoftDeleted
            | Refusal::VersionNotSoftDeleted
            | Refusal::SubjectHasNoLevel
            | Refusal::SubjectHasNoMode => 404,
            Refusal::MethodNotAllowed(_) => 405,
            Refusal::Incompatible(_) => 409,
            Refusal::LengthRequired => 411,
            Refusal::PayloadTooLarge => 413,
            Refusal::UnsupportedMediaType => 415,
            Refusal::HeadTooLarge => 431,
            Refusal::InvalidSchema
            | Refusal::InvalidVersion
            | Refusal::InvalidLevel
            | Refusal::InvalidMode
            | Refusal::NotPermitted(_) => 422,
            Refusal::FollowsLog => 500,
            Refusal::Store(fault) => store_status(*fault),
        }
    }

    /// Returns the reason, which follows the colon in the message, if the code has several.
    pub fn reason(&self) -> Option<&str>
        ensures { option_copied result ≡ reason_of self.now }
    {
        match self {
            Refusal::NotPermitted(reason) => Some(reason.as_str()),
            Refusal::Store(fault) => Some(fault.as_str()),
            _ => None,
        }
    }

    /// Returns the message in the response's body.
    pub fn message(&self) -> &str
        ensures { result.now ≡ message_of self.now }
    {
        match self {
            Refusal::BadRequest => "Bad Request",
            Refusal::NotFound => "Not Found",
            Refusal::MethodNotAllowed(_) => "Method Not Allowed",
            Refusal::LengthRequired => "Length Required",
            Refusal::PayloadTooLarge => "Payload Too Large",
            Refusal::UnsupportedMediaType => "Unsupported Media Type",
            Refusal::HeadTooLarge => "Request Header Fields Too Large",
            Refusal::SubjectNotFound => "Subject not found",
            Refusal::VersionNotFound => "Version not found",
            Refusal::SchemaNotFound => "Schema not found",
            Refusal::SubjectSoftDeleted => "Subject is soft-deleted",
            Refusal::SubjectNotSoftDeleted => "Subject is not soft-deleted",
            Refusal::VersionSoftDeleted => "Version is soft-deleted",
            Refusal::VersionNotSoftDeleted => "Version is not soft-deleted",
            Refusal::SubjectHasNoLevel => "Subject has no level",
            Refusal::SubjectHasNoMode => "Subject has no mode",
            Refusal::Incompatible(message) => message.as_str(),
            Refusal::InvalidSchema => "Invalid Avro schema",
            Refusal::InvalidVersion => "Invalid version",
            Refusal::InvalidLevel => "Invalid compatibility level",
            Refusal::InvalidMode => "Invalid mode",
            Refusal::NotPermitted(reason) => not_permitted(*reason),
            Refusal::FollowsLog => "This node follows a log: commands go to its writer",
            Refusal::Store(fault) => store_error(*fault),
        }
    }
}

fn not_permitted(reason: Reason) -> &'static str
    ensures { result.now ≡ message_of (Refusal.NotPermitted reason) }
{
    match reason {
        Reason::Readonly => "Operation not permitted: READONLY",
        Reason::IdNeedsImport => "Operation not permitted: id needs IMPORT",
        Reason::ImportNeedsId => "Operation not permitted: IMPORT needs id",
        Reason::IdNamesAnotherSchema => "Operation not permitted: id names another schema",
        Reason::VersionIsOccupied => "Operation not permitted: version is occupied",
        Reason::ScopeIsNotEmpty => "Operation not permitted: scope is not empty",
        Reason::InvalidId => "Operation not permitted: invalid id",
        Reason::VersionNeedsImport => "Operation not permitted: version needs IMPORT",
        Reason::IdIsNotAboveMark => "Operation not permitted: id is not above the mark",
    }
}

fn store_status(fault: StoreFault) -> u16
    ensures { result ≡ status_of (Refusal.Store fault) }
{
    match fault {
        StoreFault::Memory
        | StoreFault::OpaqueRecord
        | StoreFault::TwoSchemas
        | StoreFault::NumbersUsedUp
        | StoreFault::Unsettled => 500,
        StoreFault::Overtaken | StoreFault::Declined => 503,
    }
}

fn store_error(fault: StoreFault) -> &'static str
    ensures { result.now ≡ message_of (Refusal.Store fault) }
{
    match fault {
        StoreFault::Memory => "Store error: memory",
        StoreFault::OpaqueRecord => "Store error: opaque record",
        StoreFault::TwoSchemas => "Store error: two schemas for one id",
        StoreFault::NumbersUsedUp => "Store error: numbers used up",
        StoreFault::Unsettled => "Store error: unsettled",
        StoreFault::Overtaken => "Store error: overtaken",
        StoreFault::Declined => "Store error: declined",
    }
}

impl fmt::Display for Refusal {
    ghost use Rattle.std.specs.Prelude.{Some};
    ghost use Rattle.reg_refusals.specs.Refusal.{message_of};

    ghost output = { λ refusal. Some (message_of refusal) };

    fn fmt<W: fmt::Write>(&self, f: &mut fmt::Formatter<W>) -> fmt::Result {
        write!(f, "{}", self.message())
    }
}

impl Error for Refusal {}

impl Clone for Refusal {
    ghost is_clone = { λ refusal copy. copy ≡ refusal };

    fn clone(&self) -> Result<Refusal, AllocError> {
        Ok(match self {
            Refusal::BadRequest => Refusal::BadRequest,
            Refusal::NotFound => Refusal::NotFound,
            Refusal::MethodNotAllowed(allow) => Refusal::MethodNotAllowed(*allow),
            Refusal::LengthRequired => Refusal::LengthRequired,
            Refusal::PayloadTooLarge => Refusal::PayloadTooLarge,
            Refusal::UnsupportedMediaType => Refusal::UnsupportedMediaType,
            Refusal::HeadTooLarge => Refusal::HeadTooLarge,
            Refusal::SubjectNotFound => Refusal::SubjectNotFound,
            Refusal::VersionNotFound => Refusal::VersionNotFound,
            Refusal::SchemaNotFound => Refusal::SchemaNotFound,
            Refusal::SubjectSoftDeleted => Refusal::SubjectSoftDeleted,
            Refusal::SubjectNotSoftDeleted => Refusal::SubjectNotSoftDeleted,
            Refusal::VersionSoftDeleted => Refusal::VersionSoftDeleted,
            Refusal::VersionNotSoftDeleted => Refusal::VersionNotSoftDeleted,
            Refusal::SubjectHasNoLevel => Refusal::SubjectHasNoLevel,
            Refusal::SubjectHasNoMode => Refusal::SubjectHasNoMode,
            Refusal::Incompatible(message) => Refusal::Incompatible(message.clone()?),
            Refusal::InvalidSchema => Refusal::InvalidSchema,
            Refusal::InvalidVersion => Refusal::InvalidVersion,
            Refusal::InvalidLevel => Refusal::InvalidLevel,
            Refusal::InvalidMode => Refusal::InvalidMode,
            Refusal::NotPermitted(reason) => Refusal::NotPermitted(*reason),
            Refusal::FollowsLog => Refusal::FollowsLog,
            Refusal::Store(fault) => Refusal::Store(*fault),
        })
    }
}

impl From<AllocError> for Refusal {
    ghost use Rattle.std.specs.Prelude.{◌≡◌};
    ghost use Rattle.reg_refusals.specs.Refusal.{no_memory};

    ghost from_gives = { λ _ refusal. refusal ≡ no_memory };

    fn from(_error: AllocError) -> Refusal {
        Refusal::Store(StoreFault::Memory)
    }
}

impl<T: Drop> From<AllocFailed<T>> for Refusal {
    ghost use Rattle.std.specs.Prelude.{◌≡◌};
    ghost use Rattle.reg_refusals.specs.Refusal.{no_memory};

    ghost from_gives = { λ _ refusal. refusal ≡ no_memory };

    fn from(_error: AllocFailed<T>) -> Refusal {
        Refusal::Store(StoreFault::Memory)
    }
}
