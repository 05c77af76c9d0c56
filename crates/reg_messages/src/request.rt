// A request, as it was read.
use crate::field::HeaderField;
use base_text::{Listed, Text};
use http::Method;

/// A request (RFC 9112) with a valid head.
#[derive(Debug, Drop)]
pub struct Request {
    pub method: Method,
    /// The target as it was sent, with its escapes.
    pub target: Text,
    pub fields: Listed<HeaderField>,
    /// The body; `None` if the input ended before its end.
    pub body: Option<Listed<u8>>,
}
