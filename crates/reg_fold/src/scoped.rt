// Values set on scopes. A scope is a subject, or None for all subjects.
ghost use Rattle.std.specs.Prelude.{◌≡◌, ℕ, List, None, OnOk, OnErr, Some, Option, option_map, bytes_eq, if◌then◌else◌};
ghost use Rattle.std.specs.BTreeMap.{get_by_text};
ghost use Rattle.std.specs.Option.{option_copied};
ghost use Rattle.reg_fold.specs.InForce.{Scope};
ghost use Rattle.reg_fold.specs.Scopes.{HasOwn, kept_own};

use reg_values::base_text::Text;
use std::alloc::{AllocError, Global};
use std::collections::BTreeMap;

/// Values set on scopes, such as levels. Found without memory.
#[derive(Debug, Drop)]
pub(crate) struct Scoped<T> {
    pub(crate) of_all: Option<T>,
    pub(crate) of_subjects: BTreeMap<String, T>,
}

/// Copies each value; a copy has the same values if copies of values are equal to them.
impl<T: Clone> Clone for Scoped<T> {
    ghost use Rattle.std.specs.Prelude.{◌≡◌};
    ghost use Rattle.reg_fold.specs.InForce.{Scope};
    ghost use Rattle.reg_fold.specs.Scopes.{kept_own};

    ghost is_clone = { λ owns copy. ((x y : T) → T.is_clone x y → y ≡ x) → (q : Scope) → kept_own copy q ≡ kept_own owns q };

    fn clone(&self) -> Result<Scoped<T>, AllocError> {
        Ok(Scoped {
            of_all: self.of_all.clone()?,
            of_subjects: self.of_subjects.clone()?,
        })
    }
}

impl<T> Scoped<T> {
    /// Makes the values of no scope.
    pub(crate) fn new(alloc: Global) -> Scoped<T>
        ensures { (q : Scope) → kept_own result q ≡ None }
    {
        Scoped {
            of_all: None,
            of_subjects: BTreeMap::new(alloc),
        }
    }

    /// Returns the value set on the scope.
    pub(crate) fn of(&self, scope: Option<&str>) -> Option<&T>
        ensures { option_copied result ≡ kept_own self.now (option_map (λ s. s.now) scope.entry) }
    {
        match scope {
            Some(subject) => self.of_subjects.get(subject),
            None => self.of_all.as_ref(),
        }
    }
}

impl<T: Drop> Scoped<T> {
    /// Sets the scope's value, or removes it with `None`. The only error is out of memory; nothing
    /// has changed then.
    pub(crate) fn set(
        &mut self,
        alloc: Global,
        scope: &Option<Text>,
        own: Option<T>,
    ) -> Result<(), AllocError>
        ensures set { OnOk result (HasOwn self.old self.new scope.now own) }
        ensures refused { OnErr result ((q : Scope) → kept_own self.new q ≡ kept_own self.old q) }
    {
        match (scope, own) {
            (Some(subject), Some(own)) => put_text(alloc, &mut self.of_subjects, subject, own)?,
            (Some(subject), None) => remove_text(&mut self.of_subjects, subject),
            (None, own) => self.of_all = own,
        }
        Ok(())
    }
}

fn put_text<T: Drop>(
    alloc: Global,
    owns: &mut BTreeMap<String, T>,
    subject: &Text,
    own: T,
) -> Result<(), AllocError>
    ensures put { OnOk result ((s : List ℕ) → get_by_text owns.new s
        ≡ (if bytes_eq subject.now s then Some own else get_by_text owns.old s)) }
    ensures refused { OnErr result ((s : List ℕ) → get_by_text owns.new s ≡ get_by_text owns.old s) }
{
    let name = String::from_str(alloc, subject.as_str())?;
    owns.insert(name, own)?;
    Ok(())
}

fn remove_text<T: Drop>(owns: &mut BTreeMap<String, T>, subject: &Text)
    ensures { (s : List ℕ) → get_by_text owns.new s
        ≡ (if bytes_eq subject.now s then None else get_by_text owns.old s) }
{
    owns.remove(subject.as_str());
}
