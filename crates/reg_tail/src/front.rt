// The line of a log's floor, at the front of a file.
ghost use Rattle.std.specs.Prelude.{IfErr, IfOk};
ghost use Rattle.reg_tail.specs.Front.{BeginsAs, HasFloorFault};

use reg_records::{LineError, LogFault, is_floor_line, line_len, read_floor};

/// The line of a log's floor.
#[derive(Clone, Copy, Debug, PartialEq, Eq)]
pub(crate) struct Front {
    /// Its length in bytes, with its LF; 0 if the log has none.
    pub len: usize,
    /// Its number of lines: one or none.
    pub lines: u64,
    /// The floor; 0 if no line says one.
    pub floor: u64,
}

/// Reads the line of the floor at the front of a file, if there is one.
pub(crate) fn front_of(file: &[u8]) -> Result<Front, LogFault>
    ensures front { IfOk result (BeginsAs file.now) }
    ensures fault { IfErr result (HasFloorFault file.now) }
{
    if !is_floor_line(file) {
        return Ok(Front {
            len: 0,
            lines: 0,
            floor: 0,
        });
    }
    let Some(end) = line_len(file) else {
        return Err(LogFault::Line(LineError::Truncated));
    };
    let floor = read_floor(&file[..end])?;
    Ok(Front {
        len: end + 1,
        lines: 1,
        floor,
    })
}
