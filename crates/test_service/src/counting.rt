// Requests and connections of nodes are each counted once, by what they are and how they ended.
use crate::asking::{listen_all, send_bytes, use_up};
use crate::trials::{Machine, Trial, tried};
use exposition::page_text;
use reg_meters::Traffic;
use reg_metrics::traffic_families;
use reg_node_service::{NoGate, serve_nodes};
use reg_service::{Listening, Size};
use std::alloc::{AllocError, Global};
use std::net::SocketAddr;
use std::test::Fail;
use std::{io, str, thread};
use test_tools::{Made, Tally, bytes_of, cut, rows_of};

/// What a client sends on how many connections of its own. What is refused by its head is answered on a connection that is then closed.
static ROWS: &str = r#"
# A command, and one that is refused.
1 POST /subjects/s/versions HTTP/1.1|Host: a|Connection: close|Content-Length: 20||{"schema":"\"int\""}
2 DELETE /subjects/t HTTP/1.1|Host: a|Connection: close||
# Lookups.
3 GET /schemas/ids/1 HTTP/1.1|Host: a|Connection: close||
4 GET /subjects/t/versions HTTP/1.1|Host: a|Connection: close||
# Checks.
5 POST /compatibility/subjects/s/versions HTTP/1.1|Host: a|Connection: close|Content-Length: 20||{"schema":"\"int\""}
6 POST /compatibility/subjects/t/versions/1 HTTP/1.1|Host: a|Connection: close|Content-Length: 20||{"schema":"\"int\""}
# What is refused by its head, of which each answer closes the connection.
1 GET /nowhere HTTP/1.1|Host: a||
1 PUT /subjects HTTP/1.1|Host: a||
1 GET subjects HTTP/1.1|Host: a||
1 GET /subjects HTTP/1.1|Host||
1 POST /subjects/s HTTP/1.1|Host: a|Content-Length: 2000000||
1 POST /subjects/s HTTP/1.1|Host: a||
1 POST /subjects/s HTTP/1.1|Host: a|Content-Type: text/plain|Content-Length: 0||
"#;

/// How many connections these are.
const CONNECTIONS: u64 = 28;

/// Lines of the page then.
static LINES: &str = r#"
registry_http_requests_total{class="lookup",method="GET",route="/schemas/ids/{id}",status="200"} 3
registry_http_requests_total{class="refused",method="other",route="/subjects",status="405"} 1
registry_http_requests_total{class="lookup",method="POST",route="/subjects/{subject}",status="411"} 1
registry_http_requests_total{class="lookup",method="POST",route="/subjects/{subject}",status="415"} 1
registry_http_requests_total{class="command",method="DELETE",route="/subjects/{subject}",status="404"} 2
registry_http_requests_total{class="lookup",method="GET",route="/subjects/{subject}/versions",status="404"} 4
registry_http_requests_total{class="command",method="POST",route="/subjects/{subject}/versions",status="200"} 1
registry_http_requests_total{class="check",method="POST",route="/compatibility/subjects/{subject}/versions",status="200"} 5
registry_http_requests_total{class="check",method="POST",route="/compatibility/subjects/{subject}/versions/{version}",status="404"} 6
registry_http_requests_total{class="refused",method="other",route="other",status="400"} 2
registry_http_requests_total{class="refused",method="other",route="other",status="404"} 1
registry_http_requests_total{class="refused",method="other",route="other",status="413"} 1
registry_http_request_duration_seconds_count{class="lookup"} 9
registry_http_request_duration_seconds_count{class="check"} 11
registry_http_request_duration_seconds_count{class="command"} 3
registry_http_request_duration_seconds_count{class="refused"} 5
registry_http_connections 0
registry_http_connections_accepted_total 28
registry_http_connections_closed_total{reason="done"} 28
registry_http_connections_closed_total{reason="late"} 0
registry_http_connections_closed_total{reason="room"} 0
registry_http_connections_closed_total{reason="failed"} 0
"#;

/// Sends what each row says, and gives how many bytes were sent and came.
fn talk<R: Machine>(alloc: Global, rt: &R, address: SocketAddr) -> io::Result<(u64, u64)> {
    let (mut sent, mut came) = (0u64, 0u64);
    for row in &rows_of(alloc, ROWS)? {
        let (times, text) = cut(row);
        let bytes = bytes_of(alloc, text)?;
        for _connection in 0..times.parse::<u32>().unwrap_or(0) {
            let answer = io::read_to_string(alloc, send_bytes(rt, address, &bytes)?)?;
            sent = sent.saturating_add(bytes.len() as u64);
            came = came.saturating_add(answer.len() as u64);
        }
    }
    Ok((sent, came))
}

/// Serves those that send by a node of one worker, until all their connections are closed.
fn serve<R: Machine>(alloc: Global, rt: &R, traffic: &Traffic) -> io::Result<(u64, u64)> {
    let (mut listeners, mut addresses) = (Vec::new(alloc), Vec::new(alloc));
    listen_all(rt, 1, &mut listeners, &mut addresses)?;
    let address = *addresses.first().ok_or(AllocError)?;
    let size = Size {
        nodes: 1,
        workers: 1,
        limit: Some(CONNECTIONS),
    };
    thread::scope(thread::scope_env(), rt, |scope| -> io::Result<(u64, u64)> {
        let _server = scope.spawn(move || {
            let mut endpoints = Listening::new(alloc, listeners);
            serve_nodes(rt, alloc, size, &NoGate, traffic, &mut endpoints)
        });
        let told = talk(alloc, rt, address);
        if told.is_err() {
            use_up(rt, &addresses, CONNECTIONS);
        }
        told
    })
}

/// The lines that are wanted and don't stand on the page.
fn missing(alloc: Global, traffic: &Traffic) -> Made<String> {
    let mut families = Vec::new(alloc);
    traffic_families(alloc, traffic, &mut families)?;
    let page = page_text(alloc, &families)?;
    let text = str::from_utf8(&page).unwrap_or("");
    let mut missing = String::new(alloc);
    for wanted in &rows_of(alloc, LINES)? {
        if !text.lines().any(|line| line == *wanted) {
            missing.push_str(wanted)?;
            missing.push('\n')?;
        }
    }
    Ok(missing)
}

/// Compares the bytes that were counted with those that were sent and came, and the page with the lines.
pub(crate) fn count_all<R: Machine>(alloc: Global, rt: &R, tally: &mut Tally) -> io::Result<()> {
    let traffic = Traffic::new();
    let (sent, came) = serve(alloc, rt, &traffic)?;
    let wanted = format!(in alloc; "{sent} sent, {came} came")?;
    let (sent, came) = (
        traffic.request_bytes.count(),
        traffic.response_bytes.count(),
    );
    let counted = format!(in alloc; "{sent} sent, {came} came")?;
    tally.count("bytes", wanted.as_bytes(), counted.as_bytes())?;
    let missing = missing(alloc, &traffic)?;
    Ok(tally.count("lines that are missing", b"", missing.as_bytes())?)
}

#[test]
fn requests_and_connections_are_counted(rt: HostRuntime) -> Result<(), Fail> {
    let tally = tried(rt.alloc(), &rt, Trial::Counted)?;
    assert_eq!(rt; (tally.cases(), tally.others()), (2, ""));
    Ok(())
}
