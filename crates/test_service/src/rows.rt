// Requests as bytes on connections of their own, and all bytes of the responses to them; a page and how far a process is.
use crate::asking::while_served;
use crate::scenes::{Bare, play_at};
use crate::trials::{Machine, Trial, tried};
use reg_metrics::{Pages, Stage, serve_pages};
use reg_node_service::NoGate;
use std::alloc::Global;
use std::io;
use std::net::{SocketAddr, TcpListener};
use std::test::Fail;
use test_tools::{Made, Tally};

/// What each client sends, and what it reads up to the end of the server's side.
static ROWS: &str = r#"
ended GET /subjects HTTP/1.1|Host: a|| => HTTP/1.1 200 OK|Content-Type: application/vnd.schemaregistry.v1+json|Content-Length: 2||[]
open GET /subjects HTTP/1.1|Host: a|Connection: close|| => HTTP/1.1 200 OK|Content-Type: application/vnd.schemaregistry.v1+json|Content-Length: 2|Connection: close||[]
open GET /nowhere HTTP/1.1|Host: a|| => HTTP/1.1 404 Not Found|Content-Type: application/vnd.schemaregistry.v1+json|Content-Length: 40|Connection: close||{"error_code":404,"message":"Not Found"}
open POST /subjects/s/versions HTTP/1.1|Host: a|Transfer-Encoding: chunked||17|{"schema":"\"string\""}|0|| => HTTP/1.1 411 Length Required|Content-Type: application/vnd.schemaregistry.v1+json|Content-Length: 46|Connection: close||{"error_code":411,"message":"Length Required"}
open POST /subjects/s/versions HTTP/1.1|Host: a|Content-Length: 1048577||<50000*x> => HTTP/1.1 413 Payload Too Large|Content-Type: application/vnd.schemaregistry.v1+json|Content-Length: 48|Connection: close||{"error_code":413,"message":"Payload Too Large"}
open PUT /subjects HTTP/1.1|Host: a|| => HTTP/1.1 405 Method Not Allowed|Content-Type: application/vnd.schemaregistry.v1+json|Content-Length: 49|Allow: GET|Connection: close||{"error_code":405,"message":"Method Not Allowed"}
open GET /subjects HTTP/1.1|Host: <20000*x> => HTTP/1.1 431 Request Header Fields Too Large|Content-Type: application/vnd.schemaregistry.v1+json|Content-Length: 62|Connection: close||{"error_code":431,"message":"Request Header Fields Too Large"}
ended POST /subjects/s/versions HTTP/1.1|Host: a|Content-Length: 40||{"schema": => HTTP/1.1 400 Bad Request|Content-Type: application/vnd.schemaregistry.v1+json|Content-Length: 42|Connection: close||{"error_code":400,"message":"Bad Request"}
ended GET /subjects HTTP/1.1|Host: a|| => HTTP/1.1 200 OK|Content-Type: application/vnd.schemaregistry.v1+json|Content-Length: 2||[]
ended POST /subjects/s/versions HTTP/1.1|Host: a|Content-Length: 23||{"schema":"\"string\""}GET /schemas/ids/1 HTTP/1.1|Host: a|| => HTTP/1.1 200 OK|Content-Type: application/vnd.schemaregistry.v1+json|Content-Length: 8||{"id":1}HTTP/1.1 200 OK|Content-Type: application/vnd.schemaregistry.v1+json|Content-Length: 23||{"schema":"\"string\""}
bytewise POST /subjects/s/versions HTTP/1.1|Host: a|Content-Length: 23||{"schema":"\"string\""}GET /schemas/ids/1 HTTP/1.1|Host: a|| => HTTP/1.1 200 OK|Content-Type: application/vnd.schemaregistry.v1+json|Content-Length: 8||{"id":1}HTTP/1.1 200 OK|Content-Type: application/vnd.schemaregistry.v1+json|Content-Length: 23||{"schema":"\"string\""}
ended GET /subjects HTTP/1.1|Host: a|| => HTTP/1.1 200 OK|Content-Type: application/vnd.schemaregistry.v1+json|Content-Length: 5||["s"]
# The id of a schema that is deleted for good isn't given away again.
ended POST /subjects/u/versions HTTP/1.1|Host: a|Content-Length: 20||{"schema":"\"int\""}DELETE /subjects/u/versions/1 HTTP/1.1|Host: a||DELETE /subjects/u/versions/1?permanent=true HTTP/1.1|Host: a||POST /subjects/t/versions HTTP/1.1|Host: a|Content-Length: 21||{"schema":"\"long\""}GET /schemas/ids/2 HTTP/1.1|Host: a|| => HTTP/1.1 200 OK|Content-Type: application/vnd.schemaregistry.v1+json|Content-Length: 8||{"id":2}HTTP/1.1 200 OK|Content-Type: application/vnd.schemaregistry.v1+json|Content-Length: 1||1HTTP/1.1 200 OK|Content-Type: application/vnd.schemaregistry.v1+json|Content-Length: 1||1HTTP/1.1 200 OK|Content-Type: application/vnd.schemaregistry.v1+json|Content-Length: 8||{"id":3}HTTP/1.1 404 Not Found|Content-Type: application/vnd.schemaregistry.v1+json|Content-Length: 49||{"error_code":40403,"message":"Schema not found"}
ended <0*x> => <0*x>
"#;

/// How many rows there are.
const COUNT: u64 = 14;

/// Plays the rows at a node whose only worker serves as many connections.
pub(crate) fn play_rows<R: Machine>(alloc: Global, rt: &R, tally: &mut Tally) -> io::Result<()> {
    while_served(alloc, rt, (1, 1, COUNT), &NoGate, |addresses| {
        play_at(alloc, rt, &Bare, addresses, ROWS, tally)
    })?;
    Ok(())
}

#[test]
fn connections_are_answered_byte_for_byte(rt: HostRuntime) -> Result<(), Fail> {
    let tally = tried(rt.alloc(), &rt, Trial::Rows)?;
    assert_eq!(rt; (tally.cases(), tally.others()), (COUNT, ""));
    Ok(())
}

/// A process that is ready.
#[derive(Drop)]
struct ReadyPages;

impl Pages for ReadyPages {
    fn metrics(&self, alloc: Global) -> Made<Vec<u8>> {
        Vec::from_slice(alloc, b"up 1\n")
    }

    fn stage(&self) -> Stage {
        Stage::Ready
    }
}

/// What is asked, and the first line and the end of the answer.
static PAGES: &str = r#"
# Seven that say nothing leave one that is answered
a come 7
ask GET /metrics HTTP/1.1|Host: a|| => HTTP/1.1 200 OK| & up 1^n
ask GET /ready HTTP/1.1|Host: a|| => HTTP/1.1 200 OK| & ready^n
ask GET /subjects HTTP/1.1|Host: a|| => HTTP/1.1 404 Not Found| & not found^n
ask DELETE /ready HTTP/1.1|Host: a|| => HTTP/1.1 405 Method Not Allowed| & method not allowed^n
ask GET /ready|| => HTTP/1.1 400 Bad Request| & bad request^n
ask || => HTTP/1.1 400 Bad Request| & bad request^n
# The longest head
ask GET /ready HTTP/1.1|A: <8164*a>|| => HTTP/1.1 200 OK| & ready^n
"#;

/// Asks at the address.
pub(crate) fn play_pages<R: Machine>(
    alloc: Global,
    rt: &R,
    address: SocketAddr,
    tally: &mut Tally,
) -> io::Result<()> {
    play_at(alloc, rt, &Bare, &[address], PAGES, tally)?;
    Ok(())
}

#[test]
fn pages_are_shown(rt: HostRuntime) -> Result<(), Fail> {
    let listener = TcpListener::bind(&rt, ("127.0.0.1", 0))?;
    let address = listener.local_addr()?;
    serve_pages(rt, rt.alloc(), listener, ReadyPages)?;
    let tally = tried(rt.alloc(), &rt, Trial::Pages(address))?;
    assert_eq!(rt; (tally.cases(), tally.others()), (8, ""));
    Ok(())
}
