// The values of options.
ghost use Rattle.std.specs.Prelude.{◌≡◌, ◌≤◌, ℕ, IfOk, MatchOption, codes, option_map, unwrap_or};
ghost use Rattle.std.specs.List.{list_all};
ghost use Rattle.std.specs.Char.{is_ascii_digit};
ghost use Rattle.std.specs.Net.Grammar.{IsSocketText};
ghost use Rattle.clap.specs.Words.{first_of, found_of, rows_of};
ghost use Rattle.log_arguments.specs.Values.{Finds, IsAddressOf, IsFlagOr, IsNumberOr, IsOffsetOf, IsPlaceIn, SpellsWithin, has_flag, is_decimal, path_in, value_of};

use crate::fault::{Fault, Origin};
use crate::settings::Settings;
use clap::ArgMatches;
use std::net::SocketAddr;

/// The greatest offset.
const OFFSET_LIMIT: u64 = 9_223_372_036_854_775_807;

/// Where nodes listen, how many there are, and how many workers each has.
#[derive(Clone, Copy)]
pub(crate) struct Place {
    pub(crate) listen: SocketAddr,
    pub(crate) nodes: usize,
    pub(crate) workers: u32,
}

/// An option whose value is a number, the variable that sets it, and the numbers that it takes.
#[derive(Clone, Copy)]
pub(crate) struct Numbered {
    option: &'static str,
    variable: &'static str,
    otherwise: u64,
    least: u64,
    most: u64,
}

/// How many nodes there are.
const NODES: Numbered = Numbered {
    option: "nodes",
    variable: "NODES",
    otherwise: 1,
    least: 1,
    most: 3,
};

/// How many seconds may pass without a check of the store.
pub(crate) const CHECK_EVERY: Numbered = Numbered {
    option: "check-every",
    variable: "CHECK_EVERY",
    otherwise: 5,
    least: 0,
    most: 3_600,
};

/// Returns the place in the options and the settings. By default, that is 127.0.0.1:8081, one node
/// and four workers. `least` is the least number of workers.
pub(crate) fn place_in<'a>(
    found: &ArgMatches<'a>,
    set: Settings<'a>,
    least: u64,
) -> Result<Place, Fault<'a>>
    ensures { Finds (λ place. IsPlaceIn least (rows_of (found_of found.now)) set.entry place.listen place.nodes place.workers) result }
{
    let listen = listen_in(found, set.listen)?;
    let nodes = number_in(found, set.nodes, NODES)?;
    let of_workers = Numbered {
        option: "workers",
        variable: "WORKERS",
        otherwise: 4,
        least,
        most: 16,
    };
    let workers = number_in(found, set.workers, of_workers)?;
    let port = u64::from(listen.port());
    let most = 65_536 - nodes;
    if port < 1 || most < port {
        return Err(Fault::Port {
            origin: origin_of(found, "listen", "LISTEN"),
            listen,
            nodes,
            most,
        });
    }
    Ok(Place {
        listen,
        nodes: nodes as usize,
        workers: workers as u32,
    })
}

fn listen_in<'a>(found: &ArgMatches<'a>, set: Option<&'a str>) -> Result<SocketAddr, Fault<'a>>
    ensures { Finds (IsSocketText (unwrap_or (value_of (codes "listen") (rows_of (found_of found.now)) set.entry) (codes "127.0.0.1:8081"))) result }
{
    let text = listen_text(found, set);
    match text.parse::<SocketAddr>() {
        Ok(listen) => Ok(listen),
        Err(_) => Err(Fault::Address(origin_of(found, "listen", "LISTEN"), text)),
    }
}

fn listen_text<'a>(found: &ArgMatches<'a>, set: Option<&'a str>) -> &'a str
    ensures { result.now ≡ unwrap_or (value_of (codes "listen") (rows_of (found_of found.now)) set.entry) (codes "127.0.0.1:8081") }
{
    match value_in(found, set, "listen") {
        Some(text) => text,
        None => "127.0.0.1:8081",
    }
}

/// Returns the number of an option or of its variable, or `otherwise` if neither is given.
pub(crate) fn number_in<'a>(
    found: &ArgMatches<'a>,
    set: Option<&'a str>,
    of: Numbered,
) -> Result<u64, Fault<'a>>
    requires { of.otherwise ≤ of.most }
    ensures number { Finds (IsNumberOr of.otherwise of.least of.most (value_of of.option.now (rows_of (found_of found.now)) set.entry)) result }
    ensures within { IfOk result (λ number. number ≤ of.most) }
{
    let Some(text) = value_in(found, set, of.option) else {
        return Ok(of.otherwise);
    };
    match number_within(text, of.least, of.most) {
        Some(number) => Ok(number),
        None => Err(Fault::Number {
            origin: origin_of(found, of.option, of.variable),
            text,
            least: of.least,
            most: of.most,
        }),
    }
}

/// Returns the offset of an option; `None` if it isn't given.
pub(crate) fn offset_in<'a>(
    found: &ArgMatches<'a>,
    option: &'static str,
) -> Result<Option<u64>, Fault<'a>>
    ensures { Finds (IsOffsetOf (first_of option.now (rows_of (found_of found.now)))) result }
{
    let Some(text) = text_in(found, option) else {
        return Ok(None);
    };
    match number_within(text, 0, OFFSET_LIMIT) {
        Some(offset) => Ok(Some(offset)),
        None => Err(Fault::Offset { option, text }),
    }
}

/// Returns the address of `--metrics` or of its variable; `None` if neither is given.
pub(crate) fn metrics_in<'a>(
    found: &ArgMatches<'a>,
    set: Option<&'a str>,
) -> Result<Option<SocketAddr>, Fault<'a>>
    ensures { Finds (IsAddressOf (value_of (codes "metrics") (rows_of (found_of found.now)) set.entry)) result }
{
    let Some(text) = value_in(found, set, "metrics") else {
        return Ok(None);
    };
    match text.parse::<SocketAddr>() {
        Ok(address) => Ok(Some(address)),
        Err(_) => Err(Fault::Metrics(origin_of(found, "metrics", "METRICS"), text)),
    }
}

/// Returns whether an option without a value is given, or else what its variable says.
pub(crate) fn switch_in<'a>(
    found: &ArgMatches<'a>,
    set: Option<&'a str>,
    option: &'static str,
    variable: &'static str,
) -> Result<bool, Fault<'a>>
    ensures { Finds (IsFlagOr (has_flag option.now (rows_of (found_of found.now))) set.entry) result }
{
    if has_flag(found, option) {
        return Ok(true);
    }
    match set {
        None => Ok(false),
        Some(text) if text == "true" => Ok(true),
        Some(text) if text == "false" => Ok(false),
        Some(text) => Err(Fault::Switch(variable, text)),
    }
}

/// Returns the value of an option, or else what is set for it.
fn value_in<'a>(found: &ArgMatches<'a>, set: Option<&'a str>, option: &str) -> Option<&'a str>
    ensures { option_map (λ text. text.now) result ≡ value_of option.now (rows_of (found_of found.now)) set.entry }
{
    match text_in(found, option) {
        Some(text) => Some(text),
        None => set,
    }
}

/// Returns where the value of an option stands, which is given or set.
fn origin_of(found: &ArgMatches<'_>, option: &'static str, variable: &'static str) -> Origin {
    match text_in(found, option) {
        Some(_) => Origin::Option(option),
        None => Origin::Variable(variable),
    }
}

/// Returns the path of an argument; `None` if it isn't given or is `-`, which means the input or
/// the output.
pub(crate) fn path_in<'a>(found: &ArgMatches<'a>, argument: &str) -> Option<&'a str>
    ensures { option_map (λ path. path.now) result ≡ path_in argument.now (rows_of (found_of found.now)) }
{
    let path = text_in(found, argument)?;
    if path == "-" {
        return None;
    }
    Some(path)
}

/// Returns whether an option without a value is given.
pub(crate) fn has_flag(found: &ArgMatches<'_>, option: &str) -> bool
    ensures { result ≡ has_flag option.now (rows_of (found_of found.now)) }
{
    match text_in(found, option) {
        Some(text) => text == "true",
        None => false,
    }
}

/// Returns the text of an argument; `None` if it isn't given.
pub(crate) fn text_in<'a>(found: &ArgMatches<'a>, argument: &str) -> Option<&'a str>
    ensures { option_map (λ text. text.now) result ≡ first_of argument.now (rows_of (found_of found.now)) }
{
    found.get_str(argument)
}

/// Returns the number that a text spells in decimal digits, if it is within the bounds. Only `0`
/// itself has a leading zero.
fn number_within(text: &str, least: u64, most: u64) -> Option<u64>
    ensures { MatchOption result ((number : ℕ) → ¬ SpellsWithin least most text.now number) (SpellsWithin least most text.now) }
{
    if !is_decimal(text) {
        return None;
    }
    match text.parse::<u64>() {
        Ok(number) if least <= number && number <= most => Some(number),
        _ => None,
    }
}

/// Returns whether a text is decimal digits without a leading zero, except `0` itself.
fn is_decimal(text: &str) -> bool
    ensures { result ≡ is_decimal text.now }
{
    let digits = text.as_bytes();
    if digits.is_empty() || (digits.len() > 1 && digits[0] == b'0') {
        return false;
    }
    has_only_digits(digits)
}

fn has_only_digits(bytes: &[u8]) -> bool
    ensures { result ≡ list_all is_ascii_digit bytes.now }
{
    bytes.iter().all(|b| b.is_ascii_digit())
}
