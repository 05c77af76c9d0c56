// Texts as they are written in a line.
ghost use Rattle.std.specs.Prelude.{◌≡◌, ◌++◌, OnOk};
ghost use Rattle.exposition.specs.Escapes.{escaped, escaped_byte};

use std::alloc::AllocError;

/// Appends a text unchanged. The only error is out of memory.
pub(crate) fn push(out: &mut Vec<u8>, text: &str) -> Result<(), AllocError>
    ensures { OnOk result (out.new.items ≡ out.old.items ++ text.now) }
{
    out.extend_from_slice(text.as_bytes())?;
    Ok(())
}

/// Appends a text, escaped for quotes or for a help text. The only error is out of memory.
pub(crate) fn push_escaped(out: &mut Vec<u8>, in_quotes: bool, text: &str) -> Result<(), AllocError>
    ensures { OnOk result (out.new.items ≡ out.old.items ++ escaped in_quotes text.now) }
{
    for b in text.as_bytes() {
        push_byte(out, in_quotes, *b)?;
    }
    Ok(())
}

fn push_byte(out: &mut Vec<u8>, in_quotes: bool, b: u8) -> Result<(), AllocError>
    ensures { OnOk result (out.new.items ≡ out.old.items ++ escaped_byte in_quotes b) }
{
    if b == b'\\' {
        push(out, "\\\\")
    } else if b == b'\n' {
        push(out, "\\n")
    } else if in_quotes && b == b'"' {
        push(out, "\\\"")
    } else {
        out.push(b)?;
        Ok(())
    }
}
