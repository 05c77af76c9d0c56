// What a check of a level says.
ghost use Rattle.std.specs.Prelude.{◌≡◌, Some, None, true, false, IfOk, option_map};
ghost use Rattle.reg_levels.specs.LevelVerdict.{passed};
ghost use Rattle.reg_levels.specs.Message as message;

use crate::direction::Direction;
use crate::message::ClashMessage;
use avro_resolve::Trail;
use avro_resolve::base_text::Text;
use std::alloc::{AllocError, Global};

/// The verdict of a level check. If the level isn't met, the verdict has the version, the direction
/// and the trail of the first required pair that clashes; if it is met, these are `None`.
#[derive(Debug, Drop)]
pub struct LevelVerdict {
    pub ok: bool,
    pub version: Option<u32>,
    pub direction: Option<Direction>,
    pub trail: Option<Trail>,
}

impl LevelVerdict {
    /// Writes the clash as `version V, DIRECTION, at TRAIL: CLASH`; `None` if none is reported.
    ///
    /// The only error is out of memory.
    pub fn message(&self, alloc: Global) -> Result<Option<Text>, AllocError>
        ensures { IfOk result (λ m. m ≡ message.message_of self.now) }
    {
        match self.clash_message() {
            Some(clash) => Ok(Some(Text::of_string(format!(in alloc; "{clash}")?)?)),
            None => Ok(None),
        }
    }

    /// Returns the text of [`LevelVerdict::message`] to be formatted where it is written. Takes no
    /// memory.
    pub fn clash_message(&self) -> Option<ClashMessage<'_>>
        ensures { option_map message.text_of result ≡ message.message_of self.now }
    {
        match (self.version, self.direction, &self.trail) {
            (Some(version), Some(direction), Some(trail)) => Some(ClashMessage {
                version,
                direction,
                trail,
            }),
            _ => None,
        }
    }

    /// Returns the verdict of a level that is met.
    pub fn passed() -> LevelVerdict
        ensures { result ≡ passed }
    {
        LevelVerdict {
            ok: true,
            version: None,
            direction: None,
            trail: None,
        }
    }

    /// Returns the verdict of a level that isn't met, with the pair that clashes.
    pub fn failed(version: u32, direction: Direction, trail: Trail) -> LevelVerdict
        ensures { result ≡ record { ok = false; version = Some version; direction = Some direction; trail = Some trail } }
    {
        LevelVerdict {
            ok: false,
            version: Some(version),
            direction: Some(direction),
            trail: Some(trail),
        }
    }
}

impl Clone for LevelVerdict {
    ghost is_clone = { λ verdict copy. copy ≡ verdict };

    fn clone(&self) -> Result<LevelVerdict, AllocError> {
        let trail = match &self.trail {
            Some(trail) => Some(trail.clone()?),
            None => None,
        };
        Ok(LevelVerdict {
            ok: self.ok,
            version: self.version,
            direction: self.direction,
            trail,
        })
    }
}
