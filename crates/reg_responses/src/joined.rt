// Pieces joined to a text, which takes memory.
ghost use Rattle.std.specs.Prelude.{◌≡◌, ◌++◌, IfOk, OnOk, decimal, string_bytes};
ghost use Rattle.reg_responses.specs.Pieces.{listed, listed_more, piece_text, pieces_text};

use crate::pieces::Piece;
use reg_leader::base_text::Text;
use reg_leader::reg_records::quoted;
use std::alloc::{AllocError, Global};
use std::fmt::Write;

/// Joins the pieces to one text. The only error is out of memory.
pub(crate) fn joined(alloc: Global, pieces: &[Piece<'_>]) -> Result<Text, AllocError>
    ensures { IfOk result (λ text. text ≡ pieces_text pieces.now) }
{
    let mut text = String::new(alloc);
    for piece in pieces {
        push_piece(alloc, &mut text, piece)?;
    }
    Text::of_string(text)
}

fn push_piece(alloc: Global, text: &mut String, piece: &Piece<'_>) -> Result<(), AllocError>
    ensures { OnOk result (string_bytes text.new ≡ string_bytes text.old ++ piece_text piece.now) }
{
    match piece {
        Piece::Text(part) => text.push_str(part),
        Piece::Number(number) => write!(text, "{number}"),
        Piece::Quoted(part) => text.push_str(&quoted(alloc, part)?),
        Piece::Listed(numbers) => push_listed(text, numbers),
    }
}

fn push_listed(text: &mut String, numbers: &[u32]) -> Result<(), AllocError>
    ensures { OnOk result (string_bytes text.new ≡ string_bytes text.old ++ listed numbers.now) }
{
    match numbers {
        [] => Ok(()),
        [first, rest @ ..] => push_first(text, *first, rest),
    }
}

fn push_first(text: &mut String, first: u32, rest: &[u32]) -> Result<(), AllocError>
    ensures { OnOk result (string_bytes text.new ≡ string_bytes text.old ++ (decimal first ++ listed_more rest.now)) }
{
    write!(text, "{first}")?;
    push_more(text, rest)
}

fn push_more(text: &mut String, numbers: &[u32]) -> Result<(), AllocError>
    ensures { OnOk result (string_bytes text.new ≡ string_bytes text.old ++ listed_more numbers.now) }
{
    for number in numbers {
        write!(text, ",{number}")?;
    }
    Ok(())
}
