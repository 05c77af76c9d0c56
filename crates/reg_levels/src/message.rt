// What is told of a pair that clashes.
use crate::direction::Direction;
use avro_resolve::Trail;
use std::fmt;

/// The message of a pair that clashes: `version V, DIRECTION, at TRAIL: CLASH`. It is formatted
/// only when it is written, since a trail's text may be far longer than the trail.
#[derive(Clone, Copy, Debug)]
pub struct ClashMessage<'a> {
    pub version: u32,
    pub direction: Direction,
    pub trail: &'a Trail,
}

impl fmt::Display for ClashMessage<'_> {
    ghost use Rattle.std.specs.Prelude.{Some};
    ghost use Rattle.reg_levels.specs.Message.{text_of};

    ghost output = { λ message. Some (text_of message) };

    fn fmt<W: fmt::Write>(&self, f: &mut fmt::Formatter<W>) -> fmt::Result {
        let kind = &self.trail.kind;
        write!(
            f,
            "version {}, {}, at {}: {kind}",
            self.version, self.direction, self.trail
        )
    }
}
