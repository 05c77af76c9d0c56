// Nodes that follow lines, over sockets, and why they can't be started.
use crate::asking::{ask, listen_all};
use crate::scenes::number_of;
use crate::trials::Machine;
use reg_feed::NoPlace;
use reg_follow::{FollowError, serve_lines};
use reg_meters::Traffic;
use reg_serve::StartError;
use reg_service::{Endpoints, ServiceError, Size};
use std::alloc::{AllocError, Global};
use std::io::{self, BufRead, Eprint, ErrorKind, Read};
use std::mem;
use std::net::{Net, SocketAddr, TcpListener, TcpStream};
use std::random::RandomSource;
use std::sync::Wait;
use std::sync::atomic::{AtomicU64, Ordering};
use std::thread::{self, Threads};
use std::time::{Clock, Duration};
use test_tools::{Made, bytes_of, cut, halves, paragraphs_of, rows_of};

/// What comes of an input: bytes, and marks between them. 1 and 2 are pauses, 3 is an interruption, 4 an error that comes again and
/// again, and 5 parts bytes that come one after the other.
#[derive(Drop)]
struct Script<R: Clock + Drop> {
    rt: R,
    bytes: Vec<u8>,
    /// How many of them were taken.
    taken: usize,
}

impl<R: Clock + Drop> Script<R> {
    /// Does what a mark says, where one comes next; whether one did.
    fn pass_mark(&mut self) -> io::Result<bool> {
        let mark = self.bytes.get(self.taken).copied().unwrap_or(b'.');
        match mark {
            1 => thread::sleep(&self.rt, Duration::from_millis(900)),
            2 => thread::sleep(&self.rt, Duration::from_millis(3_000)),
            4 => return Err(io::Error::from(ErrorKind::Other)),
            3 | 5 => {}
            _ => return Ok(false),
        }
        self.taken = self.taken.saturating_add(1);
        if mark == 3 {
            return Err(io::Error::from(ErrorKind::Interrupted));
        }
        Ok(true)
    }

    /// Does what all marks say that come next.
    fn pass_marks(&mut self) -> io::Result<()> {
        for _mark in 0..self.bytes.len() {
            if !self.pass_mark()? {
                break;
            }
        }
        Ok(())
    }
}

/// How many bytes come before the next mark.
fn part_len(bytes: &[u8]) -> usize {
    let found = bytes.iter().position(|byte| *byte < 6);
    found.unwrap_or(bytes.len())
}

impl<R: Clock + Drop> Read for Script<R> {
    fn read(&mut self, buffer: &mut [u8]) -> io::Result<usize> {
        let available = self.fill_buf()?;
        let len = available.len().min(buffer.len());
        buffer[..len].copy_from_slice(&available[..len]);
        self.consume(len);
        Ok(len)
    }
}

impl<R: Clock + Drop> BufRead for Script<R> {
    fn fill_buf(&mut self) -> io::Result<&[u8]> {
        self.pass_marks()?;
        let end = self.bytes.len();
        let from = self.taken.min(end);
        let to = from.saturating_add(part_len(&self.bytes[from..])).min(end);
        Ok(&self.bytes[from.min(to)..to])
    }

    fn consume(&mut self, amount: usize) {
        self.taken = self.taken.saturating_add(amount);
    }
}

/// Listeners that are there, and how many lines were taken when the nodes began, and one.
#[derive(Drop)]
struct OpenPorts<'a> {
    alloc: Global,
    listeners: Vec<TcpListener>,
    begun: &'a AtomicU64,
}

impl Endpoints for OpenPorts<'_> {
    fn listen(&mut self) -> Result<Vec<TcpListener>, ServiceError> {
        Ok(mem::replace(&mut self.listeners, Vec::new(self.alloc)))
    }

    fn ready(&mut self, lines: u64) -> bool {
        self.begun.store(lines.saturating_add(1), Ordering::SeqCst);
        true
    }
}

/// Asks until the body is that, for some seconds; then the body that came last.
fn ask_until<R: Machine>(
    alloc: Global,
    rt: &R,
    address: SocketAddr,
    request: &str,
    wanted: &str,
) -> io::Result<String> {
    for _time in 0..200 {
        let body = ask(alloc, rt, address, request)?;
        if body.as_str() == wanted {
            return Ok(body);
        }
        thread::sleep(rt, Duration::from_millis(20));
    }
    ask(alloc, rt, address, request)
}

/// Asks one node after the other what the rows from the third on say, and adds each body that isn't the one that is wanted.
fn ask_all<R: Machine>(
    alloc: Global,
    rt: &R,
    addresses: &[SocketAddr],
    rows: &[&str],
    others: &mut String,
) -> io::Result<()> {
    for row in rows.iter().skip(2) {
        let (request, wanted) = halves(row);
        for address in addresses {
            let body = ask_until(alloc, rt, *address, request, wanted)?;
            if body.as_str() != wanted {
                others.push_str(&body)?;
            }
        }
    }
    Ok(())
}

/// Nodes over a script, and what comes of them.
#[derive(Drop)]
struct Scene<'t> {
    nodes: usize,
    /// After how many connections of a node it ends, if not with the lines.
    limit: Option<u64>,
    /// How many lines were taken when the nodes began, and one, or 0 where they didn't. None where a line more may have come.
    begun: Option<u64>,
    /// The error that they end with.
    ended: &'t str,
    script: &'t str,
    /// All rows, of which those from the third on are asked.
    rows: Vec<&'t str>,
}

fn scene_of<'t>(alloc: Global, text: &'t str) -> Made<Scene<'t>> {
    let rows = rows_of(alloc, text)?;
    let (nodes, told) = halves(rows.first().copied().unwrap_or(""));
    let (nodes, limit) = cut(nodes);
    let (begun, ended) = cut(told);
    Ok(Scene {
        nodes: number_of(nodes) as usize,
        limit: limit.parse::<u64>().ok(),
        begun: begun.parse::<u64>().ok(),
        ended,
        script: rows.get(1).copied().unwrap_or(""),
        rows,
    })
}

/// Serves the scene's script at the listeners; the error that this ends with.
fn end_of<
    R: Threads
        + Wait
        + Clock
        + Net<Listener = TcpListener, Stream = TcpStream>
        + Eprint
        + Sync
        + Send
        + Copy
        + Drop
        + 'static,
>(
    alloc: Global,
    rt: R,
    scene: &Scene<'_>,
    listeners: Vec<TcpListener>,
    begun: &AtomicU64,
) -> Made<String> {
    let size = Size {
        nodes: scene.nodes,
        workers: 1,
        limit: scene.limit,
    };
    let mut ports = OpenPorts {
        alloc,
        listeners,
        begun,
    };
    let bytes = bytes_of(alloc, scene.script)?;
    let taken = 0;
    let reader = Script { rt, bytes, taken };
    match serve_lines(rt, alloc, size, reader, &Traffic::new(), &mut ports) {
        Ok(()) => Ok(String::new(alloc)),
        Err(error) => format!(in alloc; "{error}"),
    }
}

/// What comes of the scene's nodes, for which is asked meanwhile: bodies that aren't those that are wanted, how many lines were taken when
/// they began, and how they ended.
fn follow<
    R: Threads
        + Wait
        + Clock
        + Net<Listener = TcpListener, Stream = TcpStream>
        + RandomSource
        + Eprint
        + Sync
        + Send
        + Copy
        + Drop
        + 'static,
>(alloc: Global, rt: R, scene: &Scene<'_>) -> io::Result<(String, u64, String)> {
    let (mut listeners, mut addresses) = (Vec::new(alloc), Vec::new(alloc));
    listen_all(&rt, scene.nodes, &mut listeners, &mut addresses)?;
    let begun = AtomicU64::new(0);
    let lines = &begun;
    let mut others = String::new(alloc);
    let ended = thread::scope(thread::scope_env(), &rt, |scope| -> io::Result<String> {
        let server = scope.spawn(move || end_of(alloc, rt, scene, listeners, lines));
        let asked = ask_all(alloc, &rt, &addresses, &scene.rows, &mut others);
        let ended = server.map_err(|_| AllocError)?.join(&rt)?;
        asked?;
        Ok(ended)
    })?;
    Ok((others, begun.load(Ordering::SeqCst), ended))
}

/// Scenes, of which each says what it is in the line above it. In its first line stand how many nodes there are, and after how many
/// connections of a node it ends, if not with the lines; then how many lines were taken when they began, and one, and the error that they
/// end with. Below it stand the script, and what is asked at each node, with the body of the answer.
static SCENES: &str = r#"
# Lines are shown as they come, and one with a fault ends the nodes, long after they have begun
2 => 2 line 3: BadTabs
^030^t{"keytype":"SCHEMA","subject":"s","version":1,"magic":1}^t{"subject":"s","version":1,"id":1,"schema":"\"int\"","deleted":false}^n^011^t{"keytype":"SCHEMA","subject":"s","version":2,"magic":1}^t{"subject":"s","vers^05ion":2,"id":2,"schema":"\"long\"","deleted":false}^n^02x^n
GET /subjects/s/versions => [1,2]
POST /subjects/s {"schema":"\"long\""} => {"subject":"s","version":2,"id":2,"schema":"\"long\""}
POST /subjects/s/versions {"schema":"\"int\""} => {"error_code":50003,"message":"This node follows a log: commands go to its writer"}
GET /subjects/s/versions => [1,2]

# Nodes don't begin over lines with a fault
1 => 0 line 2: BadTabs
0^t{"keytype":"SCHEMA","subject":"s","version":1,"magic":1}^t{"subject":"s","version":1,"id":1,"schema":"\"int\"","deleted":false}^n^05x^n

# Nodes don't begin over lines that can't be read
1 => 0 ReadFault
0^t{"keytype":"SCHEMA","subject":"s","version":1,"magic":1}^t{"subject":"s","version":1,"id":1,"schema":"\"int\"","deleted":false}^n^04

# Nodes go on where lines end behind a line
1 1 => -
floor^t0^n^050^t{"keytype":"SCHEMA","subject":"s","version":1,"magic":1}^t{"subject":"s","version":1,"id":1,"schema":"\"int\"","deleted":false}^n
GET /subjects/s/versions => [1]

# Nodes go on where lines end within one
1 1 => -
0^t{"keytype":"SCHEMA","subject":"s","version":1,"magic":1}^t{"subject":"s","version":1,"id":1,"schema":"\"int\"","deleted":false}^n^051^t
GET /subjects/s/versions => [1]

# Nodes go on where lines end at an empty line
1 1 => -
0^t{"keytype":"SCHEMA","subject":"s","version":1,"magic":1}^t{"subject":"s","version":1,"id":1,"schema":"\"int\"","deleted":false}^n^05^nx^n
GET /subjects/s/versions => [1]
"#;

#[test]
fn nodes_follow_lines(rt: HostRuntime) -> io::Result<()> {
    let scenes = paragraphs_of(rt.alloc(), SCENES)?;
    assert_eq!(rt; scenes.len(), 6);
    for text in &scenes {
        let scene = scene_of(rt.alloc(), text)?;
        let (others, begun, ended) = follow(rt.alloc(), rt, &scene)?;
        let wanted = ("", scene.begun.unwrap_or(begun), scene.ended);
        assert_eq!(rt; (others.as_str(), begun, ended.as_str()), wanted, "{text}");
    }
    Ok(())
}

#[test]
fn what_was_refused_is_told(rt: HostRuntime) -> Made<()> {
    let alloc = rt.alloc();
    let rows = [
        (ServiceError::from(AllocError), "OutOfMemory"),
        (ServiceError::from(NoPlace), "NoPlace"),
        (ServiceError::from(StartError), "nodes not started"),
        (
            ServiceError::from(io::Error::from(ErrorKind::PermissionDenied)),
            "nodes not started: PermissionDenied",
        ),
        (
            ServiceError::from(io::Error::from(ErrorKind::OutOfMemory)),
            "OutOfMemory",
        ),
    ];
    for (refused, wanted) in rows {
        let error = FollowError::from(refused);
        let text = format!(in alloc; "{error}")?;
        assert_eq!(rt; (text.as_str(), error.status()), (wanted, 1));
    }
    Ok(())
}
