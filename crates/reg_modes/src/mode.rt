// The modes and their names.
ghost use Rattle.std.specs.Prelude.{◌≡◌};
ghost use Rattle.reg_modes.specs.Mode.{mode_named, mode_text, standing_mode};

use std::fmt;

/// Which commands a scope permits, as in the Confluent Schema Registry API.
#[derive(Clone, Copy, Debug, PartialEq, Eq)]
pub enum Mode {
    /// Permits all commands except registrations with an id.
    Readwrite,
    /// Permits only changes of modes.
    Readonly,
    /// Permits all commands except registrations without an id.
    Import,
}

impl Mode {
    /// Parses the name of a mode; the case of ASCII letters is ignored. Takes no memory.
    pub fn parse(name: &str) -> Option<Mode>
        ensures { result ≡ mode_named name.now }
    {
        if name.eq_ignore_ascii_case("READWRITE") {
            Some(Mode::Readwrite)
        } else if name.eq_ignore_ascii_case("READONLY") {
            Some(Mode::Readonly)
        } else if name.eq_ignore_ascii_case("IMPORT") {
            Some(Mode::Import)
        } else {
            None
        }
    }

    /// Returns the mode that a name in a record means. A name that is no mode's means `Readonly`.
    pub(crate) fn standing(name: &str) -> Mode
        ensures { result ≡ standing_mode name.now }
    {
        Mode::parse(name).unwrap_or(Mode::Readonly)
    }

    /// Returns the mode's name, in capitals.
    pub fn as_str(self) -> &'static str
        ensures { result.now ≡ mode_text self }
    {
        match self {
            Mode::Readwrite => "READWRITE",
            Mode::Readonly => "READONLY",
            Mode::Import => "IMPORT",
        }
    }
}

impl fmt::Display for Mode {
    ghost use Rattle.std.specs.Prelude.{Some};
    ghost use Rattle.reg_modes.specs.Mode.{mode_text};

    ghost output = { λ mode. Some (mode_text mode) };

    fn fmt<W: fmt::Write>(&self, f: &mut fmt::Formatter<W>) -> fmt::Result {
        write!(f, "{}", self.as_str())
    }
}
