// The judgement of a registration, made before the pen is taken.
ghost use mathlib.Core.List.{IsPrefix};

use reg_feed::{Copies, FeedName};
use reg_fold::Registry;
use reg_judge::Judge;
use reg_leader::Command;
use reg_levels::Judged;
use reg_node::{Case, ShowsRegistry, View};

/// A registration, and its judgement.
#[derive(Drop)]
pub struct Ruling {
    /// The registration, with what it was checked against.
    pub case: Case,
    /// Its judgement.
    pub judged: Judged,
}

impl Ruling {
    /// Judges a registration over what the view shows. `None` for every other command, and if there
    /// is no judgement (a text isn't a schema, memory is refused, or the writer is gone).
    ///
    /// Each registration is judged, even if its text is short: how long a check takes depends on
    /// the live versions. Under a level that looks at one version, judging first costs half as much
    /// again as a decision alone, but none of it while the pen is held.
    pub fn of<T: Drop, V: ShowsRegistry<T> + Drop, N: FeedName<T, V>, S: Copies<T, V, N>>(
        view: &mut View<T, V, N, S>,
        judge: &mut Judge,
        command: &Command,
    ) -> Option<Ruling>
        ensures { IsPrefix view.old view.new }
    {
        let Ok(Some(case)) = view.case(command) else {
            read_ahead(command);
            return None;
        };
        Ruling::on(case, judge)
    }

    /// Judges a case; `None` if a text isn't a schema, or memory is refused.
    pub fn on(case: Case, judge: &mut Judge) -> Option<Ruling> {
        let mut case = case;
        match case.judged(judge) {
            Ok(judged) => Some(Ruling { case, judged }),
            Err(_) => None,
        }
    }
}

/// Reads the command's schema if it wasn't read yet, so that the pen isn't held meanwhile.
fn read_ahead(command: &Command) {
    if let Some(text) = command.schema() {
        let _reading = text.reading();
    }
}

/// Makes the case over this registry if it differs from the given one; `None` if it doesn't. If
/// memory is refused, the case counts as unchanged.
pub fn overtaken(case: Case, registry: &Registry) -> Option<Case> {
    match case.stands(registry) {
        Ok(false) => case.anew(registry).ok(),
        Ok(true) | Err(_) => None,
    }
}
