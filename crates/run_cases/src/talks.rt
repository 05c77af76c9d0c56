// Conversations: texts in pieces, the answers to their requests, and what a desk notes.
use crate::cases::{bytes_told, outcome_of, responses_of};
use crate::desk::NotingDesk;
use reg_conversation::{PieceError, converse_in_pieces};
use reg_http::ServeError;
use reg_records::Device;
use std::alloc::Global;
use test_tools::{Made, Tally, halves};

/// How many bytes a piece has.
static SIZES: [usize; 4] = [1, 100, 4096, usize::MAX];

/// The most bytes of a text that is cut at each place.
const SHORT: usize = 1000;

/// A row: its text, the responses, and what is wanted in all.
#[derive(Clone, Copy)]
struct Talk<'a> {
    alloc: Global,
    row: &'a str,
    text: &'a [u8],
    responses: &'a [u8],
    wanted: &'a [u8],
}

impl<'a> Talk<'a> {
    /// Compares what comes of the text in pieces: what is written, and then whether it ends well and what is noted.
    fn try_pieces(&self, tally: &mut Tally, pieces: &[&[u8]]) -> Made<()> {
        let mut writer = Device::new(Vec::new(self.alloc));
        let mut desk = NotingDesk::new(self.alloc);
        let ended = converse_in_pieces(self.alloc, pieces, &mut writer, &mut desk);
        let end = format!(in self.alloc; "{} {}", ended.is_ok(), desk.notes.as_str())?;
        let came = outcome_of(self.alloc, writer.into_inner().as_slice(), end.as_str())?;
        tally.compare(self.row, self.wanted, came.as_slice())
    }

    /// The text in pieces of that size.
    fn pieces_of(&self, size: usize) -> Made<Vec<&'a [u8]>> {
        let mut pieces = Vec::new(self.alloc);
        for piece in self.text.chunks(size.max(1)) {
            pieces.push(piece)?;
        }
        Ok(pieces)
    }

    /// Tries single bytes with a writer of so little room: it has a front of the responses, and the caller hears of it.
    fn try_room(&self, tally: &mut Tally, singles: &[&[u8]], room: usize) -> Made<()> {
        let mut bytes = [0u8; 512];
        let mut writer = Device::new(&mut bytes[..room.min(512)]);
        let mut desk = NotingDesk::new(self.alloc);
        let ended = converse_in_pieces(self.alloc, singles, &mut writer, &mut desk);
        let is_met = ended == Err(PieceError::Failed(ServeError::WriteFault))
            && writer.faults() == 1
            && bytes.get(..room) == self.responses.get(..room);
        if is_met {
            return Ok(());
        }
        let came = format!(in self.alloc; "otherwise in a room of {room} bytes")?;
        tally.compare(self.row, self.responses, came.as_bytes())
    }

    /// Tries pieces of each size; a short text also in two pieces, cut at each place, and with writers that are full after each number
    /// of bytes.
    fn try_all(&self, tally: &mut Tally) -> Made<()> {
        tally.count(self.row, b"", b"")?;
        for size in &SIZES {
            self.try_pieces(tally, &self.pieces_of(*size)?)?;
        }
        if self.text.len() > SHORT {
            return Ok(());
        }
        for place in 0..=self.text.len() {
            let (front, rest) = self.text.split_at(place);
            self.try_pieces(tally, &[front, rest])?;
        }
        let singles = self.pieces_of(1)?;
        for room in 0..self.responses.len() {
            self.try_room(tally, &singles, room)?;
        }
        Ok(())
    }
}

/// Tries the text of a row however it is cut.
pub(crate) fn try_talk(tally: &mut Tally, row: &str) -> Made<()> {
    let alloc = tally.alloc;
    let (text, told) = halves(row);
    let Some((answers, notes)) = told.split_once(" => ") else {
        return tally.refuse(row);
    };
    let (text, responses) = (bytes_told(alloc, text)?, responses_of(alloc, answers)?);
    let notes = if notes == "-" { "" } else { notes };
    let end = format!(in alloc; "true {notes}")?;
    let wanted = outcome_of(alloc, responses.as_slice(), end.as_str())?;
    let talk = Talk {
        alloc,
        row,
        text: text.as_slice(),
        responses: responses.as_slice(),
        wanted: wanted.as_slice(),
    };
    talk.try_all(tally)
}
