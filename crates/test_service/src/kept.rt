// Nodes over a topic that begins with a log, and whose batches are lent to a keep.
use crate::asking::{await_number, listen_all, use_up};
use crate::scenes::{Stage, play_at};
use crate::trials::{Machine, Trial, tried};
use reg_meters::Traffic;
use reg_pen::{Keep, Kept, KeptLog, Lack};
use reg_records::{Device, Log, Record, read_log};
use reg_service::{Listening, ServiceError, Size, serve_log};
use std::alloc::Global;
use std::net::TcpListener;
use std::sync::atomic::{AtomicU64, Ordering};
use std::test::Fail;
use std::time::Clock;
use std::{io, thread};
use test_tools::Tally;

/// What becomes of the mark of ids that the log owes, then of each batch, and of those after the last of
/// them.
static FATES: [Kept; 6] = [
    Kept::Taken,
    Kept::Declined(Lack::Memory),
    Kept::Taken,
    Kept::Declined(Lack::Numbers),
    Kept::Taken,
    Kept::Lost,
];

/// What a script and a client tell one another.
#[derive(Drop)]
struct Notes<'a, R> {
    rt: &'a R,
    /// How many batches came, with the mark.
    lent: AtomicU64,
    is_let_go: AtomicU64,
}

impl<R: Clock> Stage for Notes<'_, R> {
    fn change(&self, part: &str) -> bool {
        match part {
            "lent 2" => await_number(self.rt, &self.lent, 2),
            "go" => {
                self.is_let_go.store(1, Ordering::SeqCst);
                true
            }
            _ => false,
        }
    }
}

/// Lets each batch wait until it is let go, and then does with it as the table says. The mark that the
/// log owes doesn't wait, since nothing listens before it is taken.
#[derive(Drop)]
struct Scripted<'a, R> {
    notes: &'a Notes<'a, R>,
}

impl<R: Clock> Keep for Scripted<'_, R> {
    ghost use Rattle.std.specs.Prelude.{⊤};

    ghost keeps = { λ old batch kept new. ⊤ };

    fn keep(&mut self, _batch: &[Record]) -> Kept {
        let place = self.notes.lent.fetch_add(1, Ordering::SeqCst);
        if place > 0 {
            await_number(self.notes.rt, &self.notes.is_let_go, 1);
        }
        let place = usize::try_from(place).unwrap_or(FATES.len());
        FATES.get(place).copied().unwrap_or(Kept::Lost)
    }
}

/// A log of one version, whose empty line is left out.
const LOG: &str =
    "7\t{\"keytype\":\"SCHEMA\",\"subject\":\"s\",\"version\":1,\"magic\":1}\t{\"subject\":\"s\",\"version\":1,\"id\":5,\"schema\":\"\\\"int\\\"\",\"deleted\":false}\n";

fn log(alloc: Global) -> io::Result<Log> {
    let mut lines = Device::new(LOG.as_bytes());
    match read_log(alloc, &mut lines) {
        Ok(log) => Ok(log),
        Err(_) => Err(io::Error::from(io::ErrorKind::InvalidData)),
    }
}

/// What each port shows of the log, the level while the first batch waits in the keep and another command waits for it, the commands
/// that had to wait, what the other port shows at once, and the commands after that. After a batch that is lost none is done.
static SCENE: &str = r#"
ask > GET /subjects/s/versions/1 => > {"subject":"s","version":1,"id":5,"schema":"\"int\""}
last > GET /subjects/s/versions/1 => > {"subject":"s","version":1,"id":5,"schema":"\"int\""}
a come 1 > PUT /config {"compatibility":"FULL"}
lent 2
b come 1 > POST /subjects/t/versions {"schema":"\"long\""}
ask > GET /config => > {"compatibilityLevel":"BACKWARD"}
go
a end > {"error_code":50001,"message":"Store error: memory"}
b end > {"id":6}
last > GET /schemas/ids/6 => > {"schema":"\"long\""}
ask > PUT /config {"compatibility":"FULL"} => > {"error_code":50001,"message":"Store error: numbers used up"}
ask > PUT /config {"compatibility":"FULL"} => > {"compatibility":"FULL"}
ask > PUT /config {"compatibility":"NONE"} => > {"error_code":50001,"message":"Store error: unsettled"}
ask > PUT /config {"compatibility":"FULL"} => > {"error_code":50001,"message":"Store error: unsettled"}
ask > GET /config => > {"compatibilityLevel":"FULL"}
"#;

/// Serves the log by a node at each listener, each with two workers, which end after ten connections each.
fn serve_scripted<R: Machine>(
    alloc: Global,
    rt: &R,
    listeners: Vec<TcpListener>,
    base: Log,
    notes: &Notes<'_, R>,
) -> Result<(), ServiceError> {
    let size = Size {
        nodes: listeners.len(),
        workers: 2,
        limit: Some(10),
    };
    let mut endpoints = Listening::new(alloc, listeners);
    let kept = KeptLog::new(base, Scripted { notes });
    serve_log(rt, alloc, size, &Traffic::new(), &mut endpoints, kept)
}

/// Two nodes serve the log over the scripted keep.
pub(crate) fn play_kept<R: Machine>(alloc: Global, rt: &R, tally: &mut Tally) -> io::Result<()> {
    let base = log(alloc)?;
    let (mut listeners, mut addresses) = (Vec::new(alloc), Vec::new(alloc));
    listen_all(rt, 2, &mut listeners, &mut addresses)?;
    let notes = Notes {
        rt,
        lent: AtomicU64::new(0),
        is_let_go: AtomicU64::new(0),
    };
    let lent = &notes;
    thread::scope(thread::scope_env(), rt, |scope| -> io::Result<()> {
        let _server = scope.spawn(move || serve_scripted(alloc, rt, listeners, base, lent));
        let played = play_at(alloc, rt, lent, &addresses, SCENE, tally);
        lent.change("go");
        use_up(rt, &addresses, 20);
        played?;
        Ok(())
    })
}

#[test]
fn a_keep_has_its_say_and_holds_no_query(rt: HostRuntime) -> Result<(), Fail> {
    let tally = tried(rt.alloc(), &rt, Trial::Kept)?;
    assert_eq!(rt; (tally.cases(), tally.others()), (15, ""));
    Ok(())
}
