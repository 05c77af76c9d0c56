// What is reported on standard error.
ghost use Rattle.std.specs.Prelude.{◌≡◌, ◌++◌, [], codes, decimal};
ghost use Rattle.reg_records.specs.Device.{interruptions_of};
ghost use Rattle.reg_responses.specs.Writing.{Writes};
ghost use Rattle.reg_program.specs.Ended.{errors_written};
ghost use Rattle.reg_program.specs.Telling.{part_text, parts_text};

use crate::ended::Ended;
use crate::folding::FoldError;
use crate::sketching::SketchError;
use itoa::Buffer;
use reg_records::Device;
use reg_responses::{WriteFault, write_whole};
use std::io::Write;

/// A part of a report.
#[derive(Clone, Copy)]
pub(crate) enum Part {
    Text(&'static str),
    Number(u64),
}

/// Reports how the program ends, without taking memory. Fails if the writer does.
pub(crate) fn tell<E: Write>(errors: &mut Device<E>, ended: &Ended) -> Result<(), WriteFault>
    ensures { Writes E.contents errors.old errors.new (errors_written ended.now) result }
{
    errors.begin_count();
    write_parts(errors, &parts_of(ended))
}

/// Writes the parts, one after the other.
fn write_parts<E: Write>(errors: &mut Device<E>, parts: &[Part]) -> Result<(), WriteFault>
    requires { interruptions_of errors.old ≡ 0 }
    ensures { Writes E.contents errors.old errors.new (parts_text parts.now) result }
{
    for part in parts {
        write_part(errors, part)?;
    }
    Ok(())
}

fn write_part<E: Write>(errors: &mut Device<E>, part: &Part) -> Result<(), WriteFault>
    ensures { Writes E.contents errors.old errors.new (part_text part.now) result }
{
    match part {
        Part::Text(text) => write_whole(errors, text.as_bytes()),
        Part::Number(number) => {
            let mut buffer = Buffer::new();
            write_whole(errors, buffer.format(*number).as_bytes())
        }
    }
}

/// Returns the report of an end, in parts.
fn parts_of(ended: &Ended) -> [Part; 5]
    ensures { parts_text result ≡ errors_written ended.now }
{
    match ended {
        Ended::Usage => line(
            "usage: registryd fold | registryd sketch | registryd serve PORT NODES WORKERS",
            "",
        ),
        Ended::Folded(folded) => {
            if folded.foreign > 0 {
                numbered("foreign ", folded.foreign, "", "")
            } else {
                nothing()
            }
        }
        Ended::Failed(FoldError::Log { line, fault }) => {
            numbered("line ", *line, ": ", fault.name())
        }
        Ended::Failed(FoldError::ReadFault) => line("ReadFault", ""),
        Ended::Failed(FoldError::WriteFault) => line("WriteFault", ""),
        Ended::Failed(FoldError::OutOfMemory) => line("OutOfMemory", ""),
        Ended::Sketched => nothing(),
        Ended::Unsketched(SketchError::Reader(fault)) => line("reader: ", fault.name()),
        Ended::Unsketched(SketchError::Writer(fault)) => line("writer: ", fault.name()),
        Ended::Unsketched(SketchError::ReadFault) => line("ReadFault", ""),
        Ended::Unsketched(SketchError::WriteFault) => line("WriteFault", ""),
        Ended::Unsketched(SketchError::OutOfMemory) => line("OutOfMemory", ""),
    }
}

/// Makes a line of two texts.
fn line(first: &'static str, second: &'static str) -> [Part; 5]
    ensures { parts_text result ≡ first.now ++ (second.now ++ codes "\n") }
{
    [
        Part::Text(first),
        Part::Text(second),
        Part::Text("\n"),
        Part::Text(""),
        Part::Text(""),
    ]
}

/// Makes a line with a number in it.
fn numbered(before: &'static str, number: u64, after: &'static str, name: &'static str) -> [Part; 5]
    ensures { parts_text result ≡ before.now ++ (decimal number ++ (after.now ++ (name.now ++ codes "\n"))) }
{
    [
        Part::Text(before),
        Part::Number(number),
        Part::Text(after),
        Part::Text(name),
        Part::Text("\n"),
    ]
}

fn nothing() -> [Part; 5]
    ensures { parts_text result ≡ [] }
{
    [Part::Text(""); 5]
}
