// What clients of a node meet: silent ones, slow ones, those that never end.
use crate::scenes::{Stage, number_of, play_at};
use crate::serve::fakes::Ledger;
use crate::serve::nodes::{patient, with_node};
use crate::trials::{Machine, Trial, tried};
use reg_connection::Limits;
use std::alloc::Global;
use std::io;
use std::sync::atomic::Ordering;
use std::test::Fail;
use test_tools::{Tally, cut, rows_of};

/// Scenes. Before the first `; ` stand the workers of the node, how many closed connections end it, and the limit that is short, if one
/// is. Calls of a kind are held up from `hold` to `go`; the node is then `over`.
static SCENES: &str = r#"
# 20 are silent, and 20 have begun a request: they hold no worker
1 41; a come 20; a come 20 GET /sub; ask > GET /schemas/ids/7 => > [7]
# six commands that are held up, at two workers
2 8; hold commands; a come 6 > DELETE /subjects/s; wait 50; ask > POST /subjects/s {"schema":"\"int\""} => > [0]; ask > POST /compatibility/subjects/s/versions {"schema":"\"int\""} => > [0]; go; a end > {}
# six checks that are held up, at two workers
2 8; hold checks; b come 6 > POST /compatibility/subjects/s/versions {"schema":"\"int\""}; wait 50; ask > POST /subjects/s {"schema":"\"int\""} => > [0]; ask > DELETE /subjects/s => > {}; go; b end ]
# two commands at four workers
4 8; hold commands; a come 6 > DELETE /subjects/s; wait 50; ask > POST /subjects/s {"schema":"\"int\""} => > [0]; ask > POST /compatibility/subjects/s/versions {"schema":"\"int\""} => > [0]; go; a end > {}
# two checks at four workers
4 8; hold checks; b come 6 > POST /compatibility/subjects/s/versions {"schema":"\"int\""}; wait 50; ask > POST /subjects/s {"schema":"\"int\""} => > [0]; ask > DELETE /subjects/s => > {}; go; b end ]
# both at three workers
3 14; hold commands; a come 6 > DELETE /subjects/s; hold checks; b come 6 > POST /compatibility/subjects/s/versions {"schema":"\"int\""}; wait 50; ask > POST /subjects/s {"schema":"\"int\""} => > [0]; ask > GET /schemas/ids/7 => > [7]; go; a end > {}; b end ]
# both at four workers
4 14; hold commands; a come 6 > DELETE /subjects/s; hold checks; b come 6 > POST /compatibility/subjects/s/versions {"schema":"\"int\""}; wait 50; ask > POST /subjects/s {"schema":"\"int\""} => > [0]; ask > GET /schemas/ids/7 => > [7]; go; a end > {}; b end ]
# answers are sent before a command that is held up
1 1; hold commands; a come 1 GET /schemas/ids/7 HTTP/1.1|Host: a||DELETE /subjects/s HTTP/1.1|Host: a|Connection: close||; a hear HTTP/1.1 200 OK; go; a end > {}
# a silent client is closed
1 1 idle 200; a come 1; a closed
# a request that is begun is closed
1 1 request 200; a come 1 GET /subjects HTTP/1.1|Ho; a closed
# a client that reads nothing is closed, which asks for more than the buffers between both sides hold
1 1 answer 200; a come 1 GET /mode HTTP/1.1|Host: a||; a send <60*GET /mode HTTP/1.1|Host: a||>; wait 2000; a closed
# a client that leaves its side open after the last answer is closed
1 1 linger 200; a come 1 > GET /schemas/ids/7; a closed
# the oldest connection makes room, and no other
1 4 connections 3; a come 1 GET /sub; wait 50; b come 2; wait 50; ask > GET /schemas/ids/7 => > [7]; b send > GET /schemas/ids/7; b end > [7]; a closed
# the heaviest connection makes room, and others go on, whose bodies are no objects
1 4 bytes 150000; b come 2 POST /subjects/s/versions HTTP/1.1|Host: a|Content-Length: 89930||<39930*x>; wait 50; a come 1 POST /subjects/s/versions HTTP/1.1|Host: a|Content-Length: 89930||<79930*x>; a closed; ask > GET /schemas/ids/7 => > [7]; b send <50000*x>; b end "message":"Bad Request"}
# a body that is sent in spite of the refusal is taken before the close
1 1; a come 1 POST /subjects/s/versions HTTP/1.1|Host: a|Content-Length: 2000000||; a begin HTTP/1.1 413^20; a send <2000000*x>
# a node that is over closes
1 1000; a come 2; ask > GET /schemas/ids/7 => > [7]; over; a closed
# a node of two workers closes
2 1000; a come 2; ask > GET /schemas/ids/7 => > [7]; over; a closed
"#;

/// The limits of the node, of which one may be short.
fn limits_of(name: &str, limit: u64) -> Limits {
    let mut limits = patient();
    match name {
        "idle" => limits.idle = limit,
        "request" => limits.request = limit,
        "answer" => limits.answer = limit,
        "linger" => limits.linger = limit,
        "connections" => limits.connections = limit as usize,
        "bytes" => limits.bytes = limit as usize,
        _ => {}
    }
    limits
}

impl Stage for Ledger {
    fn change(&self, part: &str) -> bool {
        match part {
            "hold commands" => self.go_commands.store(0, Ordering::SeqCst),
            "hold checks" => self.go_checks.store(0, Ordering::SeqCst),
            "go" => {
                self.go_commands.store(1, Ordering::SeqCst);
                self.go_checks.store(1, Ordering::SeqCst);
            }
            "over" => self.over.store(true, Ordering::SeqCst),
            _ => return false,
        }
        true
    }
}

/// Plays a scene at a node as the first part says it. Where not all comes out, nothing is held up any more, and the node ends.
fn play<R: Machine>(
    alloc: Global,
    rt: &R,
    first: &str,
    parts: &str,
    tally: &mut Tally,
) -> io::Result<()> {
    let (workers, rest) = cut(first);
    let (ends, limits) = cut(rest);
    let (name, limit) = cut(limits);
    let limits = limits_of(name, number_of(limit));
    let size = (number_of(workers), number_of(ends));
    let ledger = Ledger::new();
    with_node(alloc, rt, limits, size, &ledger, |address| {
        let played = play_at(alloc, rt, &ledger, &[address], parts, tally);
        if !matches!(played, Ok(true)) {
            ledger.change("go");
            ledger.change("over");
        }
        played?;
        Ok(())
    })
}

/// Plays each scene.
pub(crate) fn play_clients<R: Machine>(alloc: Global, rt: &R, tally: &mut Tally) -> io::Result<()> {
    for scene in &rows_of(alloc, SCENES)? {
        let (first, parts) = scene.split_once("; ").unwrap_or((*scene, ""));
        play(alloc, rt, first, parts, tally)?;
    }
    Ok(())
}

#[test]
fn clients_meet_what_they_should(rt: HostRuntime) -> Result<(), Fail> {
    let tally = tried(rt.alloc(), &rt, Trial::Clients)?;
    assert_eq!(rt; (tally.cases(), tally.others()), (92, ""));
    Ok(())
}
