// The records of levels and modes, which are set on scopes.
ghost use Rattle.std.specs.Prelude.{◌≡◌, ◌≢◌, OnOk, OnErr};
ghost use Rattle.std.specs.FinSet as set;
ghost use Rattle.reg_values.specs.reg_records.declared.key.Key.TheVariants as keys;
ghost use Rattle.reg_set.specs.LastRecords.{last_records};
ghost use Rattle.reg_fold.specs.InForce.{Scope};
ghost use Rattle.reg_fold.specs.Scopes.{HasOwn, kept_own};
ghost use Rattle.reg_fold.specs.Step.{IsStep};

use crate::index::{Index, put_last};
use crate::reading::{level_of, mode_name_of};
use crate::scoped::Scoped;
use reg_set::LastRecords;
use reg_values::base_text::Text;
use reg_values::reg_records::Record;
use std::alloc::{AllocError, Global};

impl Index {
    ghost use Rattle.reg_fold.specs.Kept.{AddsOnOk, IsNewsTo};

    /// Adds a level's record that changes the last records.
    pub(crate) fn apply_config(
        &mut self,
        given: &Record,
        scope: &Option<Text>,
    ) -> Result<(), AllocError>
        requires news { IsNewsTo given.now self.old }
        requires of_key { given.now.key ≡ keys.Config scope.now }
        ensures { AddsOnOk self.old given.now result self.new }
    {
        let level = level_of(self.alloc, given)?;
        put_own(
            self.alloc,
            &mut self.last,
            &mut self.levels,
            given,
            scope,
            level,
        )?;
        Ok(())
    }

    /// Adds a mode's record that changes the last records.
    pub(crate) fn apply_mode(
        &mut self,
        given: &Record,
        scope: &Option<Text>,
    ) -> Result<(), AllocError>
        requires news { IsNewsTo given.now self.old }
        requires of_key { given.now.key ≡ keys.Mode scope.now }
        ensures { AddsOnOk self.old given.now result self.new }
    {
        let name = mode_name_of(self.alloc, given)?;
        put_own(
            self.alloc,
            &mut self.last,
            &mut self.modes,
            given,
            scope,
            name,
        )?;
        Ok(())
    }
}

/// Makes a record the last of its key, and sets the scope's value, or removes it with `None`. The
/// only error is out of memory; nothing has changed then.
pub(crate) fn put_own<T: Drop>(
    alloc: Global,
    lasts: &mut LastRecords,
    owns: &mut Scoped<T>,
    given: &Record,
    scope: &Option<Text>,
    own: Option<T>,
) -> Result<(), AllocError>
    requires { last_records (set.insert lasts.old given.now) ≢ lasts.old }
    ensures added { OnOk result (lasts.new ≡ last_records (set.insert lasts.old given.now)) }
    ensures step { OnOk result (IsStep lasts.old lasts.new given.now) }
    ensures set { OnOk result (HasOwn owns.old owns.new scope.now own) }
    ensures lasts_stay { OnErr result (lasts.new ≡ lasts.old) }
    ensures owns_stay { OnErr result ((q : Scope) → kept_own owns.new q ≡ kept_own owns.old q) }
{
    let before = put_last(lasts, given)?;
    if let Err(refused) = owns.set(alloc, scope, own) {
        lasts.put_back(&given.key, before);
        return Err(refused);
    }
    Ok(())
}
