// The inside of a JSON string, written piece by piece (RFC 8259, section 7).
ghost use Rattle.std.specs.Prelude.{◌≡◌, ◌++◌, ◌∷◌, [], ℕ, List, IsTrue, OnOk, Some, string_bytes, option_copied};
ghost use Rattle.json.specs.Print.{escape, escape_byte, quoted as spec_quoted};

use reg_modes::reg_records::quoted;
use std::alloc::{AllocError, Global};
use std::fmt;

/// A text that ends inside of a JSON string. What is written to it is escaped and appended, piece
/// by piece.
#[derive(Drop)]
pub(crate) struct InString {
    pub text: String,
    memory: Global,
}

impl InString {
    /// Begins with this text.
    pub(crate) fn of(memory: Global, text: String) -> InString
        ensures { result.text ≡ text }
    {
        InString { text, memory }
    }
}

impl fmt::Write for InString {
    ghost use Rattle.std.specs.Prelude.{◌≡◌, ◌++◌, string_bytes};
    ghost use Rattle.json.specs.Print.{escape};

    ghost write_str_gives = { λ s bs t. string_bytes t.text ≡ string_bytes s.text ++ escape bs };

    fn write_str(&mut self, s: &str) -> fmt::Result {
        Ok(push_escaped(self.memory, &mut self.text, s)?)
    }
}

/// Appends a part, escaped for a JSON string.
fn push_escaped(alloc: Global, text: &mut String, part: &str) -> Result<(), AllocError>
    ensures { OnOk result (string_bytes text.new ≡ string_bytes text.old ++ escape part.now) }
{
    if is_plain(part) {
        return text.push_str(part);
    }
    let written = quoted(alloc, part)?;
    match between_quotes(written.as_str()) {
        Some(inside) => text.push_str(inside),
        None => unreachable!(),
    }
}

/// Returns whether a text needs no escapes. Each byte is looked at, which is faster than stopping
/// at the first that isn't plain.
fn is_plain(text: &str) -> bool
    ensures { IsTrue result → escape text.now ≡ text.now }
{
    let mut plain = true;
    for byte in text.as_bytes() {
        plain &= is_plain_byte(*byte);
    }
    plain
}

fn is_plain_byte(byte: u8) -> bool
    ensures { IsTrue result → escape_byte byte ≡ byte ∷ [] }
{
    (byte >= b' ') & (byte != b'"') & (byte != b'\\')
}

/// Returns what is between the quotes of a JSON string.
fn between_quotes(written: &str) -> Option<&str>
    ensures { (text : List ℕ) → written.now ≡ spec_quoted text → option_copied result ≡ Some (escape text) }
{
    let Some(rest) = written.strip_prefix('"') else {
        return None;
    };
    rest.strip_suffix('"')
}
