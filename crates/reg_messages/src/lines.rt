// The bytes before a head, and the empty line after it.
ghost use Rattle.std.specs.Prelude.{◌≡◌, ◌<◌, ◌≤◌, ◌+◌, [], length, take, drop, true, IfSome, IfNone};
ghost use Rattle.std.specs.List.{list_all};
ghost use Rattle.reg_messages.specs.Head.{ends_in_empty_line, is_skipped};
ghost use Rattle.reg_messages.specs.HeadReading.{HasNoEnd};
ghost use Rattle.reg_messages.specs.Extent.{BeginsKept, EndsFirst};

use crate::head::{ends_in_empty_line, is_skipped};

/// Returns how many CR and LF bytes are at the front.
pub(crate) fn blank_len(bytes: &[u8]) -> usize
    ensures fits { result ≤ length bytes.now }
    ensures blank { list_all is_skipped (take result bytes.now) ≡ true }
    ensures next { BeginsKept (drop result bytes.now) }
{
    let mut len = 0;
    while len < bytes.len() {
        if !is_skipped(bytes[len]) {
            return len;
        }
        len += 1;
    }
    len
}

/// Returns how many bytes there are up to the end of the first empty line; `None` if there is none.
pub(crate) fn head_len(bytes: &[u8]) -> Option<usize>
    ensures fits { IfSome result (λ n. n ≤ length bytes.now) }
    ensures found { IfSome result (λ n. EndsFirst bytes.now n) }
    ensures none { IfNone result (HasNoEnd [] bytes.now) }
{
    let mut len = 0;
    while len < bytes.len() {
        if ends_empty_line(bytes, len) {
            return Some(len + 1);
        }
        len += 1;
    }
    None
}

/// Returns whether the byte at that place ends an empty line.
fn ends_empty_line(bytes: &[u8], at: usize) -> bool
    requires within { at < length bytes.now }
    ensures { result ≡ ends_in_empty_line (take (at + 1) bytes.now) }
{
    bytes[at] == b'\n' && ends_in_empty_line(&bytes[..at + 1])
}
