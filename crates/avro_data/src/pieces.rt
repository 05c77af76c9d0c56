// Texts in pieces.
ghost use Rattle.std.specs.Prelude.{◌≡◌, ◌++◌, [], OnOk, decimal};
ghost use Rattle.avro_data.specs.Pieces.{piece_text, pieces_text};

use base_text::Text;
use std::alloc::{AllocError, Global};
use std::marker::Model;

/// A piece of a text.
#[derive(Drop)]
pub enum Piece {
    /// A fixed text of the program.
    Fixed(&'static str),
    /// A text that is shared with others.
    Shared(Text),
    /// A number, in decimal digits.
    Number(usize),
}

/// A text in pieces, which contracts see as the list of its bytes.
///
/// Each name in it is shared and not copied, so it may be longer than what memory holds.
#[derive(Drop)]
pub struct PiecedText {
    items: Vec<Piece>,
}

impl Model for PiecedText {
    ghost use Rattle.std.specs.Prelude.{List, ℕ};
    ghost use Rattle.avro_data.specs.Pieces.{pieces_text};

    ghost Value = { List ℕ };

    ghost view = { λ p. pieces_text p.items.items };
}

impl PiecedText {
    /// Makes an empty text, which takes no memory.
    pub fn new(alloc: Global) -> PiecedText
        ensures { result ≡ [] }
    {
        PiecedText {
            items: Vec::new(alloc),
        }
    }

    /// Returns the pieces, in their order.
    pub fn as_slice(&self) -> &[Piece]
        ensures { pieces_text result.now ≡ self.now }
    {
        &self.items
    }

    /// Appends a fixed text of the program. The only error is out of memory.
    pub fn push_fixed(&mut self, text: &'static str) -> Result<(), AllocError>
        ensures { OnOk result (self.new ≡ self.old ++ text.now) }
    {
        push(&mut self.items, Piece::Fixed(text))
    }

    /// Appends a text, which is shared and not copied. The only error is out of memory.
    pub fn push_shared(&mut self, text: &Text) -> Result<(), AllocError>
        ensures { OnOk result (self.new ≡ self.old ++ text.now) }
    {
        let shared = text.clone()?;
        push(&mut self.items, Piece::Shared(shared))
    }

    /// Appends a number, in decimal digits. The only error is out of memory.
    pub fn push_number(&mut self, number: usize) -> Result<(), AllocError>
        ensures { OnOk result (self.new ≡ self.old ++ decimal number) }
    {
        push(&mut self.items, Piece::Number(number))
    }
}

fn push(items: &mut Vec<Piece>, piece: Piece) -> Result<(), AllocError>
    ensures { OnOk result (pieces_text items.new.items ≡ pieces_text items.old.items ++ piece_text piece) }
{
    items.push(piece)?;
    Ok(())
}
