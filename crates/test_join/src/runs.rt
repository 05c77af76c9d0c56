// Commands that are drawn, at five processes in drawn turns.
use crate::chains::{Shelf, on_shelf};
use crate::commands::drawn_command;
use crate::opening::{BesidePlain, Common, Course, OneMore};
use crate::plain::Plain;
use crate::processes::{Nobody, Processes};
use reg_join::JoinOutcome;
use reg_leader::Command;
use std::alloc::Global;
use std::cell::RefCell;
use std::rc::Rc;
use std::sync::Wait;
use std::test::Fail;
use test_tools::{Draws, Made};

/// How many runs there are, each over a chain of its own.
const RUNS: u64 = 20;

/// How many commands are made in each.
const COMMANDS: u64 = 1_000;

/// How many processes there are.
const PROCESSES: u64 = 5;

/// Which outcomes came up, by their numbers: those of `kind_of`, and then that a batch came to stand late, and that others came first once.
type Kinds = [bool; 8];

/// That others came first each time, or that what was told is no command's: neither can be here.
const IMPOSSIBLE: usize = 5;

const LATE: usize = 6;

const BEHIND: usize = 7;

/// All that can come up.
const ALL: Kinds = [true, true, true, true, true, false, true, true];

fn kind_of(outcome: &JoinOutcome) -> usize {
    match outcome {
        JoinOutcome::Replied(_) => 0,
        JoinOutcome::Unsettled(_) => 1,
        JoinOutcome::Live(_) => 2,
        JoinOutcome::NoMemory => 3,
        JoinOutcome::Declined => 4,
        JoinOutcome::Overtaken | JoinOutcome::Stopped => IMPOSSIBLE,
    }
}

/// What goes on from turn to turn.
#[derive(Drop)]
pub(crate) struct Run {
    draws: Draws,
    /// The number of the last command whose outcome was unknown: it may come to stand late.
    unknown: Option<u64>,
    /// The first turn at which something was wrong.
    wrong: Option<u64>,
    kinds: Kinds,
}

impl Run {
    fn new() -> Run {
        Run {
            draws: Draws::new(100),
            unknown: None,
            wrong: None,
            kinds: [false; 8],
        }
    }

    fn note(&mut self, kind: usize) {
        if let Some(came) = self.kinds.get_mut(kind) {
            *came = true;
        }
    }

    fn find_wrong(&mut self, turn: u64) {
        if self.wrong.is_none() {
            self.wrong = Some(turn);
        }
    }
}

/// Makes the commands, each at one of the processes, and does each at its place in the plain registry; at the end all keep the same records.
pub(crate) fn make_run<L: Plain, P: Processes>(
    alloc: Global,
    shelf: &RefCell<Shelf>,
    plain: &mut L,
    processes: &mut P,
    run: &mut Run,
) -> Made<()> {
    for turn in 0..COMMANDS {
        take_turn(alloc, shelf, plain, processes, turn, run)?;
    }
    // All keep the same once there are no faults any more.
    if on_shelf(shelf, false, |shelf| shelf.mend()) {
        run.note(BEHIND);
    }
    let records = plain.records()?;
    if !processes.all_keep(alloc, &records) {
        run.find_wrong(COMMANDS);
    }
    Ok(())
}

/// Draws a command, and does it.
fn take_turn<L: Plain, P: Processes>(
    alloc: Global,
    shelf: &RefCell<Shelf>,
    plain: &mut L,
    processes: &mut P,
    turn: u64,
    run: &mut Run,
) -> Made<()> {
    let number = run.draws.below(1_000_000_000);
    let command = drawn_command(alloc, number)?;
    let process = run.draws.below(PROCESSES);
    let outcome = processes.do_by(alloc, process, &command);
    if !follow(alloc, shelf, plain, &command, &outcome, run)? {
        run.find_wrong(turn);
    }
    if matches!(outcome, JoinOutcome::Unsettled(_)) {
        run.unknown = Some(number);
    }
    Ok(())
}

/// Whether what came late, and then the command, comes out in the plain registry as it did at its place.
fn follow<L: Plain>(
    alloc: Global,
    shelf: &RefCell<Shelf>,
    plain: &mut L,
    command: &Command,
    outcome: &JoinOutcome,
    run: &mut Run,
) -> Made<bool> {
    run.note(kind_of(outcome));
    let place = plain.written();
    if on_shelf(shelf, false, |shelf| shelf.came_late(place)) {
        run.note(LATE);
        if !follow_late(alloc, plain, run.unknown) {
            return Ok(false);
        }
    }
    let is_so = replies(alloc, plain, command, outcome)?;
    Ok(is_so && plain.is_right() && plain.written() == len_of(shelf))
}

/// Does the command of that number, which came to stand late; whether there is one.
fn follow_late<L: Plain>(alloc: Global, plain: &mut L, number: Option<u64>) -> bool {
    match number.map(|number| drawn_command(alloc, number)) {
        Some(Ok(command)) => {
            let _reply = plain.reply(&command);
            true
        }
        _ => false,
    }
}

/// Whether the plain registry replies as the outcome says.
fn replies<L: Plain>(
    alloc: Global,
    plain: &mut L,
    command: &Command,
    outcome: &JoinOutcome,
) -> Made<bool> {
    let told = match outcome {
        JoinOutcome::Replied(reply) => format!(in alloc; "{reply:?}")?,
        JoinOutcome::Live(id) => format!(in alloc; "Id({id})")?,
        _ => return Ok(true),
    };
    let came = format!(in alloc; "{:?}", plain.reply(command))?;
    Ok(came.as_str() == told.as_str())
}

pub(crate) fn len_of(shelf: &RefCell<Shelf>) -> usize {
    on_shelf(shelf, 0, |shelf| shelf.len())
}

/// Makes a run of five processes over a new chain, and a plain registry beside them.
fn run_over_new<R: Wait + Drop + Copy>(
    alloc: Global,
    rt: R,
    seed: u64,
    five: &mut Five,
) -> Made<()> {
    let common = Common {
        alloc,
        rt,
        shelf: Rc::new(alloc, RefCell::new(Shelf::new(alloc, seed)))?,
    };
    five.go(&common, &mut Nobody)
}

/// Five processes are opened, and a plain registry beside them.
type Five = OneMore<OneMore<OneMore<OneMore<OneMore<BesidePlain>>>>>;

fn five(run: Run) -> Five {
    let rest = BesidePlain { run };
    let rest = OneMore { rest };
    let rest = OneMore { rest };
    let rest = OneMore { rest };
    let rest = OneMore { rest };
    OneMore { rest }
}

/// The run that five processes make.
fn run_of(five: &Five) -> &Run {
    &five.rest.rest.rest.rest.rest.run
}

#[test]
fn five_pens_keep_the_same(rt: HostRuntime) -> Result<(), Fail> {
    let mut five = five(Run::new());
    for seed in 0..RUNS {
        run_over_new(rt.alloc(), &rt, seed, &mut five)?;
        assert_eq!(rt; (seed, run_of(&five).wrong), (seed, None));
    }
    assert_eq!(rt; run_of(&five).kinds, ALL);
    Ok(())
}
