// What the environment sets.
ghost use Rattle.log_arguments.specs.Variables.{AreSetBy, IsSetBy};

use std::alloc::Global;
use std::env;
use std::env::VarError;
use std::rt::Env;

/// Values of the options of `keep`, `follow` and `join`, for those that a command line doesn't
/// give. Each is what would stand after the option; for a flag, `true` or `false`.
#[derive(Clone, Copy, Debug, PartialEq, Eq)]
pub struct Settings<'a> {
    pub listen: Option<&'a str>,
    pub nodes: Option<&'a str>,
    pub workers: Option<&'a str>,
    pub metrics: Option<&'a str>,
    pub quiet: Option<&'a str>,
    pub new: Option<&'a str>,
    pub check_every: Option<&'a str>,
}

/// The variables of the environment that set options: `REGISTRY_LISTEN`, `REGISTRY_NODES`,
/// `REGISTRY_WORKERS`, `REGISTRY_METRICS`, `REGISTRY_QUIET`, `REGISTRY_NEW` and
/// `REGISTRY_CHECK_EVERY`.
#[derive(Drop)]
pub struct Environment {
    listen: Option<String>,
    nodes: Option<String>,
    workers: Option<String>,
    metrics: Option<String>,
    quiet: Option<String>,
    new: Option<String>,
    check_every: Option<String>,
}

/// Why the environment can't be read. Written as one line.
#[derive(Clone, Copy, Debug, PartialEq, Eq, thiserror::Error)]
pub enum EnvironmentError {
    /// This variable isn't UTF-8 text.
    #[error("{0} is not UTF-8")]
    NotText(&'static str),
    #[error("out of memory")]
    OutOfMemory,
}

impl Environment {
    /// Reads the variables. An empty one counts as not set.
    pub fn read<R: Env + AllocGlobal>(rt: &R) -> Result<Environment, EnvironmentError> {
        Ok(Environment {
            listen: variable(rt, "REGISTRY_LISTEN")?,
            nodes: variable(rt, "REGISTRY_NODES")?,
            workers: variable(rt, "REGISTRY_WORKERS")?,
            metrics: variable(rt, "REGISTRY_METRICS")?,
            quiet: variable(rt, "REGISTRY_QUIET")?,
            new: variable(rt, "REGISTRY_NEW")?,
            check_every: variable(rt, "REGISTRY_CHECK_EVERY")?,
        })
    }

    /// Returns what the variables set, each its own option.
    pub fn settings(&self) -> Settings<'_>
        ensures { AreSetBy self.now result }
    {
        Settings {
            listen: text_of(&self.listen),
            nodes: text_of(&self.nodes),
            workers: text_of(&self.workers),
            metrics: text_of(&self.metrics),
            quiet: text_of(&self.quiet),
            new: text_of(&self.new),
            check_every: text_of(&self.check_every),
        }
    }
}

/// Returns a variable's value; `None` if it isn't set or is empty.
fn variable<R: Env + AllocGlobal>(
    rt: &R,
    name: &'static str,
) -> Result<Option<String>, EnvironmentError> {
    match env::var(rt, name) {
        Ok(text) if text.is_empty() => Ok(None),
        Ok(text) => Ok(Some(text)),
        Err(VarError::NotPresent) => Ok(None),
        Err(VarError::NotUnicode) => Err(EnvironmentError::NotText(name)),
        Err(VarError::OutOfMemory) => Err(EnvironmentError::OutOfMemory),
    }
}

fn text_of(value: &Option<String>) -> Option<&str>
    ensures { IsSetBy value.now result }
{
    match value {
        Some(text) => Some(text.as_str()),
        None => None,
    }
}
