// Inputs that end, readers that fail and writers that fail at each place, in `fold`, in `sketch` and in `serve` at a desk that notes.
use crate::cases::{end_of, outcome_of, push_answer, responses_of};
use crate::desk::{NotingDesk, served};
use reg_records::Device;
use std::alloc::Global;
use std::io::{BufRead, ErrorKind, Write};
use test_tools::{Fault, Made, NO_FAULT, PiecedBytes, Taking, Tally, halves, push_bytes, rows_of};

/// How many parts, and how many bytes of the input, the responses and the notes, stand up to a place.
#[derive(Clone, Copy, Drop)]
struct Front {
    count: usize,
    read: usize,
    written: usize,
    noted: usize,
    /// Whether more than a line's end stands after them.
    is_begun: bool,
}

const START: Front = Front {
    count: 0,
    read: 0,
    written: 0,
    noted: 0,
    is_begun: false,
};

/// The input, the responses and the notes, each one after the other, with the places where each part ends.
#[derive(Drop)]
struct Parts {
    input: Vec<u8>,
    output: Vec<u8>,
    notes: String,
    /// How many parts in front are lines of a log.
    lines: usize,
    ends: Vec<Front>,
}

fn is_blank(bytes: &[u8]) -> bool {
    for byte in bytes {
        if *byte != b'\r' && *byte != b'\n' {
            return false;
        }
    }
    true
}

impl Parts {
    fn new(alloc: Global) -> Parts {
        Parts {
            input: Vec::new(alloc),
            output: Vec::new(alloc),
            notes: String::new(alloc),
            lines: 0,
            ends: Vec::new(alloc),
        }
    }

    /// Adds a part, the response to it, and what is noted; `-` is for none, and a part without a response is a line.
    fn push(&mut self, alloc: Global, part: &str, told: &str) -> Made<()> {
        let (answer, notes) = told.split_once(" => ").unwrap_or((told, "-"));
        push_bytes(&mut self.input, part)?;
        if answer == "-" {
            self.lines = self.lines.saturating_add(1);
        } else {
            push_answer(alloc, &mut self.output, answer)?;
        }
        if notes != "-" {
            self.notes.push_str(notes)?;
        }
        let mut end = self.whole();
        end.count = end.count.saturating_add(1);
        self.ends.push(end)?;
        Ok(())
    }

    /// All that was added.
    fn whole(&self) -> Front {
        Front {
            count: self.ends.len(),
            read: self.input.len(),
            written: self.output.len(),
            noted: self.notes.len(),
            is_begun: false,
        }
    }

    /// What is made of so many bytes of the input.
    fn front_of(&self, place: usize) -> Front {
        let mut front = START;
        for end in &self.ends {
            if end.read <= place {
                front = *end;
            }
        }
        let begun = self.input.as_slice().get(front.read..place);
        front.is_begun = !is_blank(begun.unwrap_or(b""));
        front
    }

    /// All up to the request whose response comes after so many flushes.
    fn answering(&self, flushes: usize) -> Front {
        match self.ends.get(self.lines.saturating_add(flushes)) {
            Some(end) => *end,
            None => self.whole(),
        }
    }

    /// All up to the first request whose response doesn't fit into so much room.
    fn full_at(&self, room: usize) -> Front {
        for end in &self.ends {
            if end.written > room {
                return *end;
            }
        }
        self.whole()
    }

    /// The responses up to there.
    fn output_to(&self, front: Front) -> &[u8] {
        self.output.as_slice().get(..front.written).unwrap_or(b"")
    }

    /// The notes up to there.
    fn notes_to(&self, front: Front) -> &str {
        self.notes.as_str().get(..front.noted).unwrap_or("")
    }
}

/// How many bytes a read or a write moves.
static SIZES: [usize; 3] = [1, 100, usize::MAX];

/// The errors of a reader, and how often in a row each comes. An interruption is no fault.
static READ_FAULTS: [(ErrorKind, u64); 7] = [
    (ErrorKind::Interrupted, 1),
    (ErrorKind::Interrupted, 1000),
    (ErrorKind::BrokenPipe, 1),
    (ErrorKind::TimedOut, 1),
    (ErrorKind::WouldBlock, 1),
    (ErrorKind::UnexpectedEof, 1),
    (ErrorKind::OutOfMemory, u64::MAX),
];

/// The errors of a writer, which come once.
static WRITE_FAULTS: [ErrorKind; 3] = [
    ErrorKind::Interrupted,
    ErrorKind::BrokenPipe,
    ErrorKind::WriteZero,
];

/// An error of a writer, how many of its first writes and its first flushes answer it, whether all is written, and how many faults and
/// interruptions are counted: after an interruption it is tried again, unless 1,048,576 of them come in a row.
type WriteRow = (ErrorKind, u64, u64, bool, u64, u64);

static WRITE_ROWS: [WriteRow; 10] = [
    (ErrorKind::Interrupted, 0, 0, true, 0, 0),
    (ErrorKind::Interrupted, 1, 1, true, 0, 0),
    (ErrorKind::Interrupted, 1_048_575, 1_048_575, true, 0, 0),
    (ErrorKind::Interrupted, 1_048_576, 0, false, 0, 1_048_576),
    (ErrorKind::Interrupted, 0, 1_048_576, false, 0, 1_048_576),
    (ErrorKind::BrokenPipe, 1, 0, false, 1, 0),
    (ErrorKind::BrokenPipe, 0, 1, false, 1, 0),
    (ErrorKind::TimedOut, 1, 0, false, 1, 0),
    (ErrorKind::TimedOut, 0, 1, false, 1, 0),
    (ErrorKind::WouldBlock, 0, u64::MAX, false, 1, 0),
];

/// How an input ends: as it does, or by a fault.
#[derive(Clone, Copy, PartialEq, Eq)]
enum End {
    Input,
    ReadFault,
    WriteFault,
}

/// An input in parts, and what is tried on it: `serve`, or a command of the program.
#[derive(Clone, Copy)]
struct Cuts<'a> {
    alloc: Global,
    command: &'a str,
    parts: &'a Parts,
}

impl Cuts<'_> {
    /// How a call of `serve` ended, and what was noted.
    fn served<R: BufRead, W: Write>(
        self,
        reader: &mut Device<R>,
        writer: &mut Device<W>,
    ) -> Made<String> {
        let mut desk = NotingDesk::new(self.alloc);
        let end = served(self.alloc, reader, writer, &mut desk)?;
        let (end, notes) = (end.as_str(), desk.notes.as_str());
        format!(in self.alloc; "{end}\n{notes}")
    }

    /// How the input ended, and the faults of its reader and its writer.
    fn told<R: BufRead, W: Write>(
        self,
        reader: &mut Device<R>,
        writer: &mut Device<W>,
    ) -> Made<String> {
        let end = match self.command {
            "serve" => self.served(reader, writer)?,
            command => end_of(self.alloc, command, reader, writer)?,
        };
        let (end, read, written) = (end.as_str(), reader.faults(), writer.faults());
        format!(in self.alloc; "{end}\nfaults {read} {written}")
    }

    /// How the input is to end there: `serve` with what is noted, `fold` with an error in a line of the log, else well.
    fn ended_at(self, front: Front) -> Made<String> {
        let next = front.count.saturating_add(1);
        match self.command {
            "serve" => {
                let requests = if front.is_begun { next } else { front.count };
                format!(in self.alloc; "{requests} served\n{}", self.parts.notes_to(front))
            }
            "fold" if front.is_begun && next <= self.parts.lines => {
                format!(in self.alloc; "line {next}: Truncated\n2")
            }
            "sketch" if front.count == 0 => String::from_str(self.alloc, "reader: Truncated\n2"),
            "sketch" if front.count == 1 => String::from_str(self.alloc, "writer: Truncated\n2"),
            _ => String::from_str(self.alloc, "0"),
        }
    }

    /// What is to be told at that end: of a command its status, else what was noted.
    fn told_at(self, front: Front, end: End) -> Made<String> {
        let told = match self.command {
            "serve" => self.parts.notes_to(front),
            _ => "1",
        };
        match end {
            End::Input => {
                let told = self.ended_at(front)?;
                format!(in self.alloc; "{}\nfaults 0 0", told.as_str())
            }
            End::ReadFault => format!(in self.alloc; "ReadFault\n{told}\nfaults 1 0"),
            End::WriteFault => format!(in self.alloc; "WriteFault\n{told}\nfaults 0 1"),
        }
    }

    /// What is wanted of a reader: the requests before are answered, and one in which the input ends is refused.
    fn wanted_at(self, front: Front, end: End) -> Made<Vec<u8>> {
        let mut output = Vec::from_slice(self.alloc, self.parts.output_to(front))?;
        let is_cut = front.is_begun && front.count >= self.parts.lines;
        if end == End::Input && is_cut && self.command != "sketch" {
            output.extend_from_slice(responses_of(self.alloc, "400")?.as_slice())?;
        }
        let told = self.told_at(front, end)?;
        outcome_of(self.alloc, output.as_slice(), told.as_str())
    }

    /// Tries a reader.
    fn try_reader(
        self,
        tally: &mut Tally,
        reader: PiecedBytes<'_>,
        wanted: &[u8],
        case: &str,
    ) -> Made<()> {
        let mut reader = Device::new(reader);
        let mut writer = Device::new(Vec::new(self.alloc));
        let end = self.told(&mut reader, &mut writer)?;
        let came = outcome_of(self.alloc, writer.into_inner().as_slice(), end.as_str())?;
        tally.compare(case, wanted, came.as_slice())
    }

    /// Tries the input where it ends after each number of bytes.
    fn try_ends(self, tally: &mut Tally, size: usize) -> Made<()> {
        for place in 0..=self.parts.input.len() {
            let front = self.parts.input.as_slice().get(..place).unwrap_or(b"");
            let wanted = self.wanted_at(self.parts.front_of(place), End::Input)?;
            let case = format!(in self.alloc; "ends after {place} bytes, read by {size}")?;
            let reader = PiecedBytes::new(front, size, NO_FAULT);
            self.try_reader(tally, reader, wanted.as_slice(), case.as_str())?;
        }
        Ok(())
    }

    /// Tries a reader that answers an error after so many reads of so many bytes.
    fn try_read_fault(self, tally: &mut Tally, size: usize, fault: Fault) -> Made<()> {
        let (length, reads) = (self.parts.input.len(), fault.left);
        let place = reads.saturating_mul(size).min(length);
        let is_unread = self.command == "sketch" && place == length;
        let (place, end) = if is_unread || fault.kind == ErrorKind::Interrupted {
            (length, End::Input)
        } else {
            (place, End::ReadFault)
        };
        let wanted = self.wanted_at(self.parts.front_of(place), end)?;
        let case = format!(in self.alloc; "fails after {reads} reads of {size} bytes")?;
        let reader = PiecedBytes::new(self.parts.input.as_slice(), size, fault);
        self.try_reader(tally, reader, wanted.as_slice(), case.as_str())
    }

    /// What comes of a writer, with how much of the input is left.
    fn came_of(self, writer: &mut Device<Taking>) -> Made<String> {
        let mut reader = Device::new(self.parts.input.as_slice());
        let end = self.told(&mut reader, writer)?;
        let (end, left) = (end.as_str(), reader.into_inner().len());
        format!(in self.alloc; "{end}\n{left} left")
    }

    /// What is wanted of a writer that took so many bytes: the request whose response failed is done, and nothing after it is read.
    fn wanted_of(self, taken: usize, front: Front, end: End) -> Made<Vec<u8>> {
        let told = self.told_at(front, end)?;
        let left = self.parts.input.len().saturating_sub(front.read);
        let told = format!(in self.alloc; "{}\n{left} left", told.as_str())?;
        let output = self.parts.output_to(self.parts.whole());
        outcome_of(
            self.alloc,
            output.get(..taken).unwrap_or(output),
            told.as_str(),
        )
    }

    /// Tries a writer that answers an error after so many writes and flushes. What it took is a front of the output, and where
    /// each write takes one byte, all that came before the error.
    fn try_writer(self, tally: &mut Tally, size: usize, fault: Fault) -> Made<()> {
        let mut device = Device::new(Taking::new(self.alloc, size, fault));
        let came = self.came_of(&mut device)?;
        let writer = device.into_inner();
        let came = outcome_of(self.alloc, writer.taken.as_slice(), came.as_str())?;
        let wanted = if fault.kind == ErrorKind::Interrupted {
            self.wanted_of(usize::MAX, self.parts.whole(), End::Input)?
        } else {
            let made = fault.left.saturating_sub(writer.flushes);
            let taken = if size == 1 { made } else { writer.taken.len() };
            self.wanted_of(taken, self.parts.answering(writer.flushes), End::WriteFault)?
        };
        let case = format!(in self.alloc; "fails after {} writes of {size} bytes", fault.left)?;
        tally.compare(case.as_str(), wanted.as_slice(), came.as_slice())
    }

    /// Tries writers that answer the error after each number of writes and flushes that there are.
    fn try_write_faults(self, tally: &mut Tally, size: usize, kind: ErrorKind) -> Made<()> {
        let times = 1;
        let left = usize::MAX;
        let fault = Fault { left, kind, times };
        let mut device = Device::new(Taking::new(self.alloc, size, fault));
        self.came_of(&mut device)?;
        for left in 0..usize::MAX - device.into_inner().fault.left {
            self.try_writer(tally, size, Fault { left, kind, times })?;
        }
        Ok(())
    }

    /// Tries a writer of single bytes whose first writes, and whose first flush behind a response, answer an error.
    fn try_write_row(self, tally: &mut Tally, row: &WriteRow) -> Made<()> {
        let (kind, writes, flushes, is_whole, faults, interruptions) = *row;
        let (left, times) = (self.parts.answering(0).written, flushes);
        let first = Fault {
            left: 0,
            kind,
            times: writes,
        };
        let later = Fault { left, kind, times };
        let mut writer = Device::new(Taking::interrupted(self.alloc, 1, first, later, 0));
        let came = self.came_of(&mut writer)?;
        let ends_well = !came.as_str().starts_with("WriteFault\n");
        let counted = (writer.faults(), writer.interruptions());
        let came = (ends_well, writer.into_inner().is_flushed, counted);
        let came = format!(in self.alloc; "{came:?}")?;
        let wanted = (is_whole, is_whole, (faults, interruptions));
        let wanted = format!(in self.alloc; "{wanted:?}")?;
        let case = format!(in self.alloc; "{writes} writes and {flushes} flushes fail: {kind:?}")?;
        tally.compare(case.as_str(), wanted.as_bytes(), came.as_bytes())
    }

    /// Tries a writer of so much room, which is too little.
    fn try_room(self, tally: &mut Tally, room: usize) -> Made<()> {
        let mut bytes = [0u8; 1024];
        let mut reader = Device::new(self.parts.input.as_slice());
        let mut writer = Device::new(&mut bytes[..room.min(1024)]);
        let end = self.told(&mut reader, &mut writer)?;
        let (end, left) = (end.as_str(), reader.into_inner().len());
        let came = format!(in self.alloc; "{end}\n{left} left")?;
        let came = outcome_of(self.alloc, bytes.get(..room).unwrap_or(b""), came.as_str())?;
        let wanted = self.wanted_of(room, self.parts.full_at(room), End::WriteFault)?;
        let case = format!(in self.alloc; "room for {room} bytes")?;
        tally.compare(case.as_str(), wanted.as_slice(), came.as_slice())
    }

    /// Tries readers and writers of that size, which fail after each number of reads, of writes and flushes.
    fn try_size(self, tally: &mut Tally, size: usize) -> Made<()> {
        self.try_ends(tally, size)?;
        for (kind, times) in &READ_FAULTS {
            let (kind, times) = (*kind, *times);
            for left in 0..=self.parts.input.len().div_ceil(size.max(1)) {
                self.try_read_fault(tally, size, Fault { left, kind, times })?;
            }
        }
        for kind in &WRITE_FAULTS {
            self.try_write_faults(tally, size, *kind)?;
        }
        Ok(())
    }

    fn try_all(self, tally: &mut Tally) -> Made<()> {
        for size in &SIZES {
            self.try_size(tally, *size)?;
        }
        for row in &WRITE_ROWS {
            self.try_write_row(tally, row)?;
        }
        for room in 0..self.parts.whole().written {
            self.try_room(tally, room)?;
        }
        Ok(())
    }
}

/// Tries a command on the input whose parts are the rows, each of which is counted.
pub(crate) fn try_cuts(tally: &mut Tally, command: &str, text: &str) -> Made<()> {
    let alloc = tally.alloc;
    let mut parts = Parts::new(alloc);
    for row in &rows_of(alloc, text)? {
        let (part, told) = halves(row);
        if told.is_empty() {
            tally.refuse(row)?;
        } else {
            parts.push(alloc, part, told)?;
            tally.count(row, b"", b"")?;
        }
    }
    let parts = &parts;
    let cuts = Cuts {
        alloc,
        command,
        parts,
    };
    cuts.try_all(tally)
}
