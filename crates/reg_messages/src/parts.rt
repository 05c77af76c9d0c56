// The parts of a request that a registry uses, lent and not copied.
ghost use Rattle.std.specs.Prelude.{◌≡◌, option_map};
ghost use Rattle.reg_messages.specs.Parts.{parts_of};

use crate::request::Request;
use crate::types::has_accepted_types;
use std::marker::Model;

/// The parts of a request that the registry uses, lent. Contracts see them as texts and bytes.
#[derive(Debug, Drop)]
pub struct RequestParts<'r> {
    method: &'r str,
    target: &'r str,
    is_accepted: bool,
    body: Option<&'r [u8]>,
}

impl<'r> Model for RequestParts<'r> {
    ghost use Rattle.std.specs.Prelude.{option_map};
    ghost use Rattle.reg_messages.specs.Parts.{Parts};

    ghost Value = { Parts };

    ghost view = { λ p. record {
      method = p.method.now;
      target = p.target.now;
      is_accepted = p.is_accepted;
      body = option_map (λ b. b.now) p.body;
    } };
}

impl<'r> RequestParts<'r> {
    /// Puts these parts together.
    pub(crate) fn new(
        method: &'r str,
        target: &'r str,
        is_accepted: bool,
        body: Option<&'r [u8]>,
    ) -> RequestParts<'r>
        ensures { result ≡ record { method = method.now; target = target.now; is_accepted = is_accepted; body = option_map (λ b. b.now) body.entry } }
    {
        RequestParts {
            method,
            target,
            is_accepted,
            body,
        }
    }

    /// Returns the method.
    pub fn method(&self) -> &'r str
        ensures { result.now ≡ self.now.method }
    {
        self.method
    }

    /// Returns the target as it was sent, with its escapes.
    pub fn target(&self) -> &'r str
        ensures { result.now ≡ self.now.target }
    {
        self.target
    }

    /// Returns whether each Content-Type field has an accepted type.
    pub fn is_accepted(&self) -> bool
        ensures { result ≡ self.now.is_accepted }
    {
        self.is_accepted
    }

    /// Returns the body; `None` if the input ended before its end.
    pub fn body(&self) -> Option<&'r [u8]>
        ensures { option_map (λ b. b.now) result ≡ self.now.body }
    {
        self.body
    }
}

/// A request whose parts can be lent.
pub trait LendsParts {
    ghost use Rattle.std.specs.Prelude.{◌≡◌};
    ghost use Rattle.reg_messages.specs.Parts.{Parts};

    /// The parts.
    ghost parts: { Self → Parts };

    /// Lends the parts.
    fn parts(&self) -> RequestParts<'_>
        ensures { result ≡ parts self.now };
}

impl LendsParts for Request {
    ghost use Rattle.reg_messages.specs.Parts.{parts_of};

    ghost parts = { parts_of };

    fn parts(&self) -> RequestParts<'_> {
        let body = match &self.body {
            Some(body) => Some(body.as_slice()),
            None => None,
        };
        RequestParts::new(
            self.method.as_str(),
            self.target.as_str(),
            has_accepted_types(self.fields.as_slice()),
            body,
        )
    }
}

impl<'r> LendsParts for RequestParts<'r> {
    ghost parts = { λ parts. parts };

    fn parts(&self) -> RequestParts<'_> {
        RequestParts::new(self.method, self.target, self.is_accepted, self.body)
    }
}
