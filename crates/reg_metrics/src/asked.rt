// What a request for a page asks.
ghost use Rattle.std.specs.Prelude.{◌≡◌, ◌==◌};
ghost use Rattle.std.specs.List.{before_first, after_first};
ghost use Rattle.reg_metrics.specs.Requests.{asked_at, asked_by, asked_in, is_version};

/// What a request asks, by its first line.
#[derive(Clone, Copy, Debug, PartialEq, Eq)]
pub enum PageRequest {
    /// `GET /metrics`.
    Metrics,
    /// `GET /ready`.
    Ready,
    /// Another path.
    NotFound,
    /// Another method.
    NotAllowed,
    /// No request of HTTP/1.1 or 1.0.
    Malformed,
}

/// Returns what the head of a request asks, by its first line.
pub fn asked_in(head: &[u8]) -> PageRequest
    ensures { result ≡ asked_in head.now }
{
    let (line, _fields) = split_once(head, b'\r');
    let (method, rest) = split_once(line, b' ');
    asked_by(method, rest)
}

/// Returns what is asked by a method and the rest of the line after it.
fn asked_by(method: &[u8], rest: &[u8]) -> PageRequest
    ensures { result ≡ asked_by method.now rest.now }
{
    let (target, version) = split_once(rest, b' ');
    if !is_version(version) {
        return PageRequest::Malformed;
    }
    let (path, _query) = split_once(target, b'?');
    asked_at(method, path)
}

fn is_version(text: &[u8]) -> bool
    ensures { result ≡ is_version text.now }
{
    text == b"HTTP/1.1".as_slice() || text == b"HTTP/1.0".as_slice()
}

/// Returns what a method asks at a path.
fn asked_at(method: &[u8], path: &[u8]) -> PageRequest
    ensures { result ≡ asked_at method.now path.now }
{
    let is_get = method == b"GET".as_slice();
    if path == b"/metrics".as_slice() {
        if is_get {
            PageRequest::Metrics
        } else {
            PageRequest::NotAllowed
        }
    } else if path == b"/ready".as_slice() {
        if is_get {
            PageRequest::Ready
        } else {
            PageRequest::NotAllowed
        }
    } else {
        PageRequest::NotFound
    }
}

/// Returns the bytes before the first separator, and those after it.
fn split_once(bytes: &[u8], separator: u8) -> (&[u8], &[u8])
    ensures before { result.0.now ≡ before_first (λ b. b == separator) bytes.now }
    ensures after { result.1.now ≡ after_first (λ b. b == separator) bytes.now }
{
    match bytes.iter().position(|b| *b == separator) {
        Some(i) => (&bytes[..i], &bytes[i + 1..]),
        None => (bytes, b""),
    }
}
