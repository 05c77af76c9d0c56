// The lines of the input, counted as they come.
use crate::watching::{SharedBoard, date};
use std::io::{self, ErrorKind, Read};
use std::time::Clock;

/// The beginning of a line that says where a log ends.
const END_MARK: &[u8] = b"end ";

/// A reader of the lines of a followed log, which counts them. They end with the input or with an
/// empty line; a line right behind that which says where they end is an error. The empty line is
/// given once it is known what follows it, and the lines before it don't wait for that.
#[derive(Drop)]
pub(crate) struct CountedLines<I: Drop, R: Drop> {
    rt: R,
    input: I,
    board: SharedBoard,
    /// Whether nothing of the next line has come.
    is_at_start: bool,
    /// Whether the empty line has come. It isn't given yet.
    has_ended: bool,
    /// How many bytes behind the empty line are those of `END_MARK`.
    marked: usize,
    /// Whether another byte followed those.
    is_other: bool,
}

impl<I: Read + Drop, R: Clock + Drop> CountedLines<I, R> {
    pub(crate) fn new(rt: R, input: I, board: SharedBoard) -> CountedLines<I, R> {
        CountedLines {
            rt,
            input,
            board,
            is_at_start: true,
            has_ended: false,
            marked: 0,
            is_other: false,
        }
    }

    /// Counts the lines that end in these bytes, which came next. Returns how many bytes stand
    /// before an empty line; all of them if none is there.
    fn count(&mut self, bytes: &[u8]) -> usize {
        let mut lines: u64 = 0;
        let mut len = bytes.len();
        for place in 0..bytes.len() {
            if bytes[place] != b'\n' {
                self.is_at_start = false;
                continue;
            }
            if self.is_at_start {
                self.has_ended = true;
                len = place;
                break;
            }
            lines = lines.saturating_add(1);
            self.is_at_start = true;
        }
        if lines > 0 {
            self.board.lines.lines.add(lines);
            self.board.lines.last.set(date(&self.rt));
        }
        if bytes.is_empty() || self.has_ended {
            self.board.marks.has_ended.set(true);
        }
        len
    }

    /// Looks at bytes that came behind the empty line.
    fn look_behind(&mut self, bytes: &[u8]) {
        for b in bytes {
            match END_MARK.get(self.marked) {
                Some(wanted) if *wanted == *b && !self.is_other => {
                    self.marked = self.marked.saturating_add(1)
                }
                _ => self.is_other = self.marked < END_MARK.len(),
            }
        }
    }

    /// Returns whether a line that says where the log ends stands behind the empty line. Reads as
    /// many bytes as that takes.
    fn is_whole(&mut self) -> io::Result<bool> {
        let mut next = [0; 1];
        for _byte in 0..END_MARK.len() {
            if self.is_other || self.marked >= END_MARK.len() || self.input.read(&mut next)? == 0 {
                break;
            }
            self.look_behind(&next);
        }
        Ok(self.marked == END_MARK.len())
    }

    /// Refuses a line that says where the log ends.
    fn refuse_whole(&mut self) -> io::Result<()> {
        if self.is_whole()? {
            self.board.is_whole.set(true);
            return Err(io::Error::from(ErrorKind::InvalidData));
        }
        Ok(())
    }
}

impl<I: Read + Drop, R: Clock + Drop> Read for CountedLines<I, R> {
    fn read(&mut self, buf: &mut [u8]) -> io::Result<usize> {
        if !self.has_ended {
            let read = self.input.read(buf)?;
            let bytes = buf.get(..read).unwrap_or(&[]);
            let len = self.count(bytes);
            if !self.has_ended {
                return Ok(read);
            }
            self.look_behind(bytes.get(len.saturating_add(1)..).unwrap_or(&[]));
            if 0 < len && len <= buf.len() {
                return Ok(len);
            }
        }
        self.refuse_whole()?;
        match buf.first_mut() {
            Some(first) => {
                *first = b'\n';
                Ok(1)
            }
            None => Ok(0),
        }
    }
}
