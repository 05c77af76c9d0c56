// The response to a request for a page.
ghost use Rattle.std.specs.Prelude.{◌≡◌, ◌++◌, IfOk, OnOk};
ghost use Rattle.reg_metrics.specs.Responses.{answer_text, length_text, ready_text, response_text, status_text, told_text};

use crate::asked::PageRequest;
use crate::stage::Stage;
use itoa::Buffer;
use std::alloc::{AllocError, Global};

/// Makes the whole response to what is asked; the connection closes after it. `page` is the page of
/// numbers. The only error is out of memory.
pub fn answer_to(
    alloc: Global,
    asked: PageRequest,
    stage: Stage,
    page: &[u8],
) -> Result<Vec<u8>, AllocError>
    ensures { IfOk result (λ text. text.items ≡ answer_text asked stage page.now) }
{
    match asked {
        PageRequest::Metrics => response(
            alloc,
            "200 OK",
            "text/plain; version=0.0.4; charset=utf-8",
            "",
            page,
        ),
        PageRequest::Ready => ready(alloc, stage),
        PageRequest::NotFound => told(alloc, "404 Not Found", "not found\n"),
        PageRequest::NotAllowed => response(
            alloc,
            "405 Method Not Allowed",
            "text/plain; charset=utf-8",
            "Allow: GET\r\n",
            b"method not allowed\n",
        ),
        PageRequest::Malformed => told(alloc, "400 Bad Request", "bad request\n"),
    }
}

/// Makes the response that says in one word whether commands are answered, or why not.
fn ready(alloc: Global, stage: Stage) -> Result<Vec<u8>, AllocError>
    ensures { IfOk result (λ text. text.items ≡ ready_text stage) }
{
    match stage {
        Stage::Ready => told(alloc, "200 OK", "ready\n"),
        Stage::Starting => told(alloc, "503 Service Unavailable", "starting\n"),
        Stage::Lost => told(alloc, "503 Service Unavailable", "lost\n"),
        Stage::Declined => told(alloc, "503 Service Unavailable", "declined\n"),
        Stage::Full => told(alloc, "503 Service Unavailable", "full\n"),
        Stage::Unlawful => told(alloc, "503 Service Unavailable", "unlawful\n"),
        Stage::Unreachable => told(alloc, "503 Service Unavailable", "unreachable\n"),
        Stage::Ended => told(alloc, "503 Service Unavailable", "ended\n"),
    }
}

fn told(alloc: Global, status: &str, line: &str) -> Result<Vec<u8>, AllocError>
    ensures { IfOk result (λ text. text.items ≡ told_text status.now line.now) }
{
    let text = response(
        alloc,
        status,
        "text/plain; charset=utf-8",
        "",
        line.as_bytes(),
    )?;
    Ok(text)
}

fn response(
    alloc: Global,
    status: &str,
    kind: &str,
    fields: &str,
    body: &[u8],
) -> Result<Vec<u8>, AllocError>
    ensures { IfOk result (λ text. text.items ≡ response_text status.now kind.now fields.now body.now) }
{
    let mut out = Vec::new(alloc);
    push_status(&mut out, status, kind)?;
    push_length(&mut out, body.len())?;
    push(&mut out, fields)?;
    push(&mut out, "Connection: close\r\n\r\n")?;
    out.extend_from_slice(body)?;
    Ok(out)
}

fn push_status(out: &mut Vec<u8>, status: &str, kind: &str) -> Result<(), AllocError>
    ensures { OnOk result (out.new.items ≡ out.old.items ++ status_text status.now kind.now) }
{
    push(out, "HTTP/1.1 ")?;
    push(out, status)?;
    push(out, "\r\nContent-Type: ")?;
    push(out, kind)?;
    push(out, "\r\n")
}

fn push_length(out: &mut Vec<u8>, len: usize) -> Result<(), AllocError>
    ensures { OnOk result (out.new.items ≡ out.old.items ++ length_text len) }
{
    let mut digits = Buffer::new();
    push(out, "Content-Length: ")?;
    push(out, digits.format(len as u64))?;
    push(out, "\r\n")
}

fn push(out: &mut Vec<u8>, text: &str) -> Result<(), AllocError>
    ensures { OnOk result (out.new.items ≡ out.old.items ++ text.now) }
{
    out.extend_from_slice(text.as_bytes())?;
    Ok(())
}
