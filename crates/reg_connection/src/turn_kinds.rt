// Which turn of a node's workers a request takes, by its method and its target.
ghost use Rattle.std.specs.Prelude.{◌≡◌, ◌==◌, ℕ, List};
ghost use Rattle.std.specs.List.{after_first, before_first};
ghost use Rattle.httparse.specs.Grammar.{RequestHead};
ghost use Rattle.reg_messages.specs.Head.{front_of, head, is_skipped, within_limit, IsHead};
ghost use Rattle.reg_requests.specs.Asked.{asked_of};
ghost use Rattle.reg_http.specs.Requests.{request_of};
ghost use Rattle.reg_connection.specs.TurnKinds.{TakesTurn, kind_in, kind_of, kind_of_action, kind_on, skip_blank};

use reg_http::Paths;
use reg_messages::HEAD_LIMIT;
use reg_routes::{Action, Route, is_path, path_of};
use std::str;

/// The kind of a request that may hold a worker for long. Each takes a *turn* of its kind, a slot
/// of which a node has fewer than workers.
#[derive(Clone, Copy, Debug, PartialEq, Eq)]
pub enum TurnKind {
    /// A command, which may wait for the pen (the writer of the log) and for the disk.
    Command,
    /// A check, which may compare large schemas.
    Check,
}

/// Returns the turn that the request at the front of the bytes takes, once its head is whole;
/// `None` if it looks something up, or is refused whatever its fields and its body say.
pub fn turn_kind(paths: &Paths, bytes: &[u8]) -> Option<TurnKind>
    ensures { result ≡ kind_in bytes.now }
{
    let (method, rest) = split_once(skip_blank(within_limit(bytes)), b' ');
    let (target, _) = split_once(rest, b' ');
    kind_of(paths, method, target)
}

/// States that commands take a turn of commands, checks one of checks, and other queries none.
pub fn requests_take_their_turns()
    ensures { (text bytes after : List ℕ) (h : RequestHead) → front_of text ≡ head bytes after → IsHead bytes h
        → TakesTurn (asked_of (request_of h after)) (kind_in text) }
{}

/// Returns the bytes in which a head is looked for.
fn within_limit(bytes: &[u8]) -> &[u8]
    ensures { result.now ≡ within_limit bytes.now }
{
    if bytes.len() > HEAD_LIMIT {
        &bytes[..HEAD_LIMIT]
    } else {
        bytes
    }
}

/// Returns the bytes without the CR and LF bytes at their front.
fn skip_blank(bytes: &[u8]) -> &[u8]
    ensures { result.now ≡ skip_blank bytes.now }
{
    let mut left = bytes;
    while let [b, rest @ ..] = left {
        if !is_skipped(*b) {
            return left;
        }
        left = rest;
    }
    left
}

fn is_skipped(b: u8) -> bool
    ensures { result ≡ is_skipped b }
{
    b == b'\r' || b == b'\n'
}

/// Returns the bytes before the first separator, and those after it.
fn split_once(bytes: &[u8], separator: u8) -> (&[u8], &[u8])
    ensures before { result.0.now ≡ before_first (λ b. b == separator) bytes.now }
    ensures after { result.1.now ≡ after_first (λ b. b == separator) bytes.now }
{
    match bytes.iter().position(|b| *b == separator) {
        Some(i) => (&bytes[..i], &bytes[i + 1..]),
        None => (bytes, b""),
    }
}

/// Returns the turn of a method at a target.
fn kind_of(paths: &Paths, method: &[u8], target: &[u8]) -> Option<TurnKind>
    ensures { result ≡ kind_of method.now target.now }
{
    match str::from_utf8(method) {
        Ok(method) => kind_by(paths, method, target),
        Err(_) => None,
    }
}

/// Returns the turn of a method, which is a text, at a target. No path offers a GET that takes one,
/// so most requests need no look at their path here.
#[tactic(auto, using(crate::proofs::Gets::get_takes_none))]
fn kind_by(paths: &Paths, method: &str, target: &[u8]) -> Option<TurnKind>
    ensures { result ≡ kind_of method.now target.now }
{
    if method == "GET" {
        return None;
    }
    match str::from_utf8(target) {
        Ok(target) => kind_at(paths, method, target),
        Err(_) => None,
    }
}

/// Returns the turn of a method at a target, which are texts.
fn kind_at(paths: &Paths, method: &str, target: &str) -> Option<TurnKind>
    ensures { result ≡ kind_of method.now target.now }
{
    if !is_path(target) {
        return None;
    }
    match paths.route_of(path_of(target)) {
        Some(route) => kind_on(route, method),
        None => None,
    }
}

/// Returns the turn of a method at a path.
fn kind_on(route: Route, method: &str) -> Option<TurnKind>
    ensures { result ≡ kind_on method.now route }
{
    match route.action(method) {
        Some(action) => kind_of_action(action),
        None => None,
    }
}

/// Returns the turn of an action.
fn kind_of_action(action: Action) -> Option<TurnKind>
    ensures { result ≡ kind_of_action action }
{
    match action {
        Action::Register
        | Action::DeleteSubject
        | Action::DeleteVersion
        | Action::SetLevel
        | Action::ClearLevel
        | Action::SetMode
        | Action::ClearMode => Some(TurnKind::Command),
        Action::Check => Some(TurnKind::Check),
        Action::SchemaById
        | Action::IdVersions
        | Action::Subjects
        | Action::Lookup
        | Action::Versions
        | Action::Version
        | Action::VersionSchema
        | Action::Level
        | Action::Mode => None,
    }
}
