// Calls that are held by a gate until others are answered.
use crate::asking::{await_number, while_served};
use crate::scenes::{Stage, number_of, play_at};
use crate::trials::{Machine, Trial, tried};
use reg_node_service::Gate;
use std::alloc::Global;
use std::io;
use std::sync::atomic::{AtomicU64, Ordering};
use std::test::Fail;
use std::time::Clock;
use test_tools::{Tally, cut, rows_of};

/// Holds some calls until they are let go.
#[derive(Drop)]
pub(crate) struct Holding<'a, R: Clock> {
    rt: &'a R,
    calls: &'a [u64],
    /// How many were held.
    held: AtomicU64,
    is_let_go: AtomicU64,
    /// How many went on before they were let go.
    late: AtomicU64,
}

impl<'a, R: Clock> Holding<'a, R> {
    /// Holds the calls of these numbers.
    pub(crate) fn new(rt: &'a R, calls: &'a [u64]) -> Holding<'a, R> {
        Holding {
            rt,
            calls,
            held: AtomicU64::new(0),
            is_let_go: AtomicU64::new(0),
            late: AtomicU64::new(0),
        }
    }

    /// Sleeps until so many calls are held; whether they are.
    pub(crate) fn await_held(&self, count: u64) -> bool {
        await_number(self.rt, &self.held, count)
    }

    pub(crate) fn let_go(&self) {
        self.is_let_go.store(1, Ordering::SeqCst);
    }
}

impl<R: Clock> Gate for Holding<'_, R> {
    fn before_answer(&self, call: u64) {
        if self.calls.contains(&call) {
            self.held.fetch_add(1, Ordering::SeqCst);
            if !await_number(self.rt, &self.is_let_go, 1) {
                self.late.fetch_add(1, Ordering::SeqCst);
            }
        }
    }
}

impl<R: Clock> Stage for Holding<'_, R> {
    fn change(&self, part: &str) -> bool {
        match part {
            "held 1" => self.await_held(1),
            "in time" => self.late.load(Ordering::SeqCst) == 0,
            "go" => {
                self.let_go();
                true
            }
            _ => false,
        }
    }
}

/// Scenes in which the first call is held, until it is let `go`, which is to be `in time`. Before the first `; ` stand how many nodes
/// there are and how many workers each has.
static SCENES: &str = r#"
1 2; a come 1 > GET /config; held 1; last > GET /subjects => > []; go; a end > {"compatibilityLevel":"BACKWARD"}; in time
1 2; a come 1 > PUT /config {"compatibility":"FULL"}; held 1; last > GET /subjects => > []; go; a end > {"compatibility":"FULL"}; in time
2 1; a come 1 > GET /config; held 1; last > GET /subjects => > []; go; a end > {"compatibilityLevel":"BACKWARD"}; in time
1 2; a come 1 > PUT /config {"compatibility":"FULL"}; held 1; last > POST /subjects/s {"schema":"\"int\""} => > {"error_code":40401,"message":"Subject not found"}; go; a end > {"compatibility":"FULL"}; in time
1 2; a come 1 > PUT /config {"compatibility":"FULL"}; held 1; last > POST /compatibility/subjects/s/versions {"schema":"\"int\""} => > {"is_compatible":true}; go; a end > {"compatibility":"FULL"}; in time
1 2; a come 1 > POST /compatibility/subjects/s/versions {"schema":"\"int\""}; held 1; last > POST /subjects/s {"schema":"\"int\""} => > {"error_code":40401,"message":"Subject not found"}; go; a end > {"is_compatible":true}; in time
1 2; a come 1 > POST /compatibility/subjects/s/versions {"schema":"\"int\""}; held 1; last > PUT /config {"compatibility":"FULL"} => > {"compatibility":"FULL"}; go; a end > {"is_compatible":true}; in time
"#;

/// Plays a scene, at nodes of which each worker serves one connection.
fn play<R: Machine>(
    alloc: Global,
    rt: &R,
    first: &str,
    parts: &str,
    tally: &mut Tally,
) -> io::Result<bool> {
    let (nodes, workers) = cut(first);
    let workers = workers.parse::<u32>().unwrap_or(0);
    let size = (number_of(nodes) as usize, workers, 1);
    let gate = Holding::new(rt, &[1]);
    while_served(alloc, rt, size, &gate, |addresses| {
        let played = play_at(alloc, rt, &gate, addresses, parts, tally);
        gate.let_go();
        played
    })
}

/// Plays each scene.
pub(crate) fn play_held<R: Machine>(alloc: Global, rt: &R, tally: &mut Tally) -> io::Result<()> {
    for scene in &rows_of(alloc, SCENES)? {
        let (first, parts) = scene.split_once("; ").unwrap_or((*scene, ""));
        play(alloc, rt, first, parts, tally)?;
    }
    Ok(())
}

#[test]
fn a_held_call_holds_no_other(rt: HostRuntime) -> Result<(), Fail> {
    let tally = tried(rt.alloc(), &rt, Trial::Held)?;
    assert_eq!(rt; (tally.cases(), tally.others()), (42, ""));
    Ok(())
}
