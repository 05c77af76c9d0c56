// What a request asks, once its path, its method and its body are known.
ghost use Rattle.std.specs.Prelude.{◌≡◌, IfOk};
ghost use Rattle.reg_requests.specs.Action.{action_asks, deleted, number_of, subject_in, switch, version_of, version_ref};
ghost use Rattle.reg_requests.specs.Seen.{seen};

use crate::asked::Asked;
use crate::body::{Found, level_in, mode_in, registration_in, schema_in};
use reg_leader::Command;
use reg_leader::base_text::Text;
use reg_leader::reg_fold::VersionRef;
use reg_leader::reg_records::{NUMBER_LIMIT, has_only_digits};
use reg_leader::reg_refusals::Refusal;
use reg_lookup::Query;
use reg_messages::digits_value;
use reg_routes::{Action, has_switch};
use serde_json::Value;
use std::alloc::{AllocError, Global};

/// The input of an action: the parts of the path, the query and the body.
#[derive(Clone, Copy)]
pub(crate) struct Given<'g> {
    pub(crate) alloc: Global,
    /// The subject, if the path has one.
    pub(crate) subject: Option<&'g str>,
    /// The part of the path that is an id; empty if it has none.
    pub(crate) id: &'g str,
    /// The version, if the path has one.
    pub(crate) version: Option<VersionRef>,
    pub(crate) query: &'g [u8],
    pub(crate) object: &'g Value,
}

impl Given<'_> {
    fn switch(&self, name: &str) -> Result<bool, AllocError>
        ensures { IfOk result (λ on. on ≡ switch (seen self.now) name.now) }
    {
        has_switch(self.alloc, self.query, name)
    }

    fn deleted(&self) -> Result<bool, AllocError>
        ensures { IfOk result (λ on. on ≡ deleted (seen self.now)) }
    {
        self.switch("deleted")
    }

    fn subject(&self) -> &str
        ensures { result.now ≡ subject_in (seen self.now) }
    {
        match self.subject {
            Some(subject) => subject,
            None => "",
        }
    }

    fn subject_in(&self) -> Result<Text, AllocError>
        ensures { IfOk result (λ subject. subject ≡ subject_in (seen self.now)) }
    {
        Text::copy_of(self.alloc, self.subject())
    }

    fn scope(&self) -> Result<Option<Text>, AllocError>
        ensures { IfOk result (λ scope. scope ≡ (seen self.now).subject) }
    {
        match self.subject {
            Some(subject) => Ok(Some(Text::copy_of(self.alloc, subject)?)),
            None => Ok(None),
        }
    }

    fn version_ref(&self) -> VersionRef
        ensures { result ≡ version_ref (seen self.now) }
    {
        match self.version {
            Some(version) => version,
            None => VersionRef::Latest,
        }
    }
}

/// Returns the version that a part of a path names: `latest`, `-1` or a number.
pub(crate) fn version_of(text: &str) -> Option<VersionRef>
    ensures { result ≡ version_of text.now }
{
    if text == "latest" || text == "-1" {
        return Some(VersionRef::Latest);
    }
    match number_of(text) {
        Some(number) => Some(VersionRef::Number(number)),
        None => None,
    }
}

/// Returns the number that 1 to 10 digits spell; `None` if it is 0 or above `NUMBER_LIMIT`.
fn number_of(text: &str) -> Option<u32>
    ensures { result ≡ number_of text.now }
{
    let digits = text.as_bytes();
    if digits.is_empty() || digits.len() > 10 || !has_only_digits(digits) {
        return None;
    }
    let number = digits_value(digits);
    if 1 <= number && number <= u64::from(NUMBER_LIMIT) {
        Some(number as u32)
    } else {
        None
    }
}

/// Returns what an action asks, or its refusal.
pub(crate) fn action_asks(action: Action, given: &Given<'_>) -> Found<Asked>
    ensures { IfOk result (λ asked. asked ≡ action_asks action (seen given.now)) }
{
    match action {
        Action::SchemaById => given.schema_by_id(),
        Action::IdVersions => given.id_versions(),
        Action::Subjects => given.subjects(),
        Action::Lookup => given.lookup(),
        Action::DeleteSubject => given.delete_subject(),
        Action::Versions => given.versions(),
        Action::Register => given.register(),
        Action::Version => given.one_version(),
        Action::DeleteVersion => given.delete_version(),
        Action::VersionSchema => given.version_schema(),
        Action::Check => given.check(),
        Action::Level => given.level(),
        Action::SetLevel => given.set_level(),
        Action::ClearLevel => given.clear_level(),
        Action::Mode => given.mode(),
        Action::SetMode => given.set_mode(),
        Action::ClearMode => given.clear_mode(),
    }
}

/// What each action asks.
impl Given<'_> {
    fn schema_by_id(&self) -> Found<Asked>
        ensures { IfOk result (λ asked. asked ≡ action_asks Action.SchemaById (seen self.now)) }
    {
        match number_of(self.id) {
            Some(id) => Ok(Ok(Asked::Query(Query::SchemaById { id }))),
            None => Ok(Err(Refusal::SchemaNotFound)),
        }
    }

    fn id_versions(&self) -> Found<Asked>
        ensures { IfOk result (λ asked. asked ≡ action_asks Action.IdVersions (seen self.now)) }
    {
        match number_of(self.id) {
            Some(id) => Ok(Ok(Asked::Query(Query::IdVersions {
                id,
                deleted: self.deleted()?,
            }))),
            None => Ok(Err(Refusal::SchemaNotFound)),
        }
    }

    fn subjects(&self) -> Found<Asked>
        ensures { IfOk result (λ asked. asked ≡ action_asks Action.Subjects (seen self.now)) }
    {
        Ok(Ok(Asked::Query(Query::Subjects {
            deleted: self.deleted()?,
        })))
    }

    fn lookup(&self) -> Found<Asked>
        ensures { IfOk result (λ asked. asked ≡ action_asks Action.Lookup (seen self.now)) }
    {
        match schema_in(self.object) {
            Ok(text) => Ok(Ok(Asked::Query(Query::Lookup {
                subject: self.subject_in()?,
                text: Text::copy_of(self.alloc, text)?,
                deleted: self.deleted()?,
            }))),
            Err(refusal) => Ok(Err(refusal)),
        }
    }

    fn delete_subject(&self) -> Found<Asked>
        ensures { IfOk result (λ asked. asked ≡ action_asks Action.DeleteSubject (seen self.now)) }
    {
        Ok(Ok(Asked::Command(Command::DeleteSubject {
            subject: self.subject_in()?,
            permanent: self.switch("permanent")?,
        })))
    }

    fn versions(&self) -> Found<Asked>
        ensures { IfOk result (λ asked. asked ≡ action_asks Action.Versions (seen self.now)) }
    {
        Ok(Ok(Asked::Query(Query::Versions {
            subject: self.subject_in()?,
            deleted: self.deleted()?,
        })))
    }

    fn register(&self) -> Found<Asked>
        ensures { IfOk result (λ asked. asked ≡ action_asks Action.Register (seen self.now)) }
    {
        match registration_in(self.alloc, self.subject(), self.object)? {
            Ok(command) => Ok(Ok(Asked::Command(command))),
            Err(refusal) => Ok(Err(refusal)),
        }
    }

    fn one_version(&self) -> Found<Asked>
        ensures { IfOk result (λ asked. asked ≡ action_asks Action.Version (seen self.now)) }
    {
        Ok(Ok(Asked::Query(Query::Version {
            subject: self.subject_in()?,
            version: self.version_ref(),
            deleted: self.deleted()?,
        })))
    }

    fn delete_version(&self) -> Found<Asked>
        ensures { IfOk result (λ asked. asked ≡ action_asks Action.DeleteVersion (seen self.now)) }
    {
        Ok(Ok(Asked::Command(Command::DeleteVersion {
            subject: self.subject_in()?,
            version: self.version_ref(),
            permanent: self.switch("permanent")?,
        })))
    }

    fn version_schema(&self) -> Found<Asked>
        ensures { IfOk result (λ asked. asked ≡ action_asks Action.VersionSchema (seen self.now)) }
    {
        Ok(Ok(Asked::Query(Query::VersionSchema {
            subject: self.subject_in()?,
            version: self.version_ref(),
            deleted: self.deleted()?,
        })))
    }

    fn check(&self) -> Found<Asked>
        ensures { IfOk result (λ asked. asked ≡ action_asks Action.Check (seen self.now)) }
    {
        match schema_in(self.object) {
            Ok(text) => Ok(Ok(Asked::Query(Query::Check {
                subject: self.subject_in()?,
                version: self.version,
                text: Text::copy_of(self.alloc, text)?,
                verbose: self.switch("verbose")?,
            }))),
            Err(refusal) => Ok(Err(refusal)),
        }
    }

    fn level(&self) -> Found<Asked>
        ensures { IfOk result (λ asked. asked ≡ action_asks Action.Level (seen self.now)) }
    {
        Ok(Ok(Asked::Query(Query::Level {
            subject: self.scope()?,
            default_global: self.switch("defaultToGlobal")?,
        })))
    }

    fn set_level(&self) -> Found<Asked>
        ensures { IfOk result (λ asked. asked ≡ action_asks Action.SetLevel (seen self.now)) }
    {
        match level_in(self.object) {
            Ok(level) => Ok(Ok(Asked::Command(Command::SetLevel {
                subject: self.scope()?,
                level,
            }))),
            Err(refusal) => Ok(Err(refusal)),
        }
    }

    fn clear_level(&self) -> Found<Asked>
        ensures { IfOk result (λ asked. asked ≡ action_asks Action.ClearLevel (seen self.now)) }
    {
        Ok(Ok(Asked::Command(Command::ClearLevel(self.subject_in()?))))
    }

    fn mode(&self) -> Found<Asked>
        ensures { IfOk result (λ asked. asked ≡ action_asks Action.Mode (seen self.now)) }
    {
        Ok(Ok(Asked::Query(Query::Mode {
            subject: self.scope()?,
            default_global: self.switch("defaultToGlobal")?,
        })))
    }

    fn set_mode(&self) -> Found<Asked>
        ensures { IfOk result (λ asked. asked ≡ action_asks Action.SetMode (seen self.now)) }
    {
        match mode_in(self.object) {
            Ok(mode) => Ok(Ok(Asked::Command(Command::SetMode {
                subject: self.scope()?,
                mode,
                force: self.switch("force")?,
            }))),
            Err(refusal) => Ok(Err(refusal)),
        }
    }

    fn clear_mode(&self) -> Found<Asked>
        ensures { IfOk result (λ asked. asked ≡ action_asks Action.ClearMode (seen self.now)) }
    {
        Ok(Ok(Asked::Command(Command::ClearMode(self.subject_in()?))))
    }
}
