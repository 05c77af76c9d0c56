// Fields at their places in the bytes of a head; only copies of them take memory.
ghost use Rattle.std.specs.Prelude.{◌≡◌, All, IfOk, length};
ghost use Rattle.httparse.specs.Spans.{IsHeaderWithin};
ghost use Rattle.reg_messages.specs.Places.{fields_at};

use crate::field::{Fields, HeaderField};
use base_text::Listed;
use httparse::spans::HeaderSpan;
use std::alloc::{AllocError, Global};

/// The fields of a head, by the places that the parser found.
#[derive(Clone, Copy)]
pub(crate) struct PlacedFields<'h> {
    bytes: &'h [u8],
    spans: &'h [HeaderSpan],
    ghost within: { All (IsHeaderWithin (length bytes.now)) spans.now },
}

impl<'h> PlacedFields<'h> {
    /// Makes the fields at these places in the bytes.
    pub(crate) fn of(bytes: &'h [u8], spans: &'h [HeaderSpan]) -> PlacedFields<'h>
        requires within { All (IsHeaderWithin (length bytes.now)) spans.now }
        ensures bytes { result.bytes.now ≡ bytes.now }
        ensures spans { result.spans.now ≡ spans.now }
    {
        PlacedFields { bytes, spans }
    }
}

impl<'h> Fields<'h> for PlacedFields<'h> {
    ghost fields = { λ placed. fields_at placed.bytes.now placed.spans.now };

    fn split_first(self) -> Option<(&'h [u8], &'h [u8], PlacedFields<'h>)> {
        match self.spans.split_first() {
            Some((span, spans)) => Some((
                span.name.of(self.bytes),
                span.value.of(self.bytes),
                PlacedFields {
                    bytes: self.bytes,
                    spans,
                },
            )),
            None => None,
        }
    }
}

/// Copies the fields. The only error is out of memory.
pub(crate) fn copied<'f, F: Fields<'f>>(
    alloc: Global,
    fields: F,
) -> Result<Listed<HeaderField>, AllocError>
    ensures { IfOk result (λ copies. copies ≡ F.fields fields) }
{
    let mut copies = Vec::new(alloc);
    let mut left = fields;
    while let Some((name, value, rest)) = left.split_first() {
        copies.push(HeaderField {
            name: Listed::from(Vec::from_slice(alloc, name)?),
            value: Listed::from(Vec::from_slice(alloc, value)?),
        })?;
        left = rest;
    }
    Ok(Listed::from(copies))
}
