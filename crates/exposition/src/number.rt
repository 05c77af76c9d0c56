// The numbers of samples: whole numbers, and seconds.
ghost use Rattle.std.specs.Prelude.{◌≡◌, ◌+◌, ◌*◌, ◌<◌, ◌++◌, OnOk};
ghost use Rattle.exposition.specs.Lawful.{IsShort};
ghost use Rattle.exposition.specs.Numbers.{fraction, number_text, places, whole};

use crate::escaping::push;
use itoa::Buffer;
use std::alloc::AllocError;
use std::marker::Model;

/// A number of 0 or more with at most six places after its point. Contracts see it in millionths.
#[derive(Drop)]
pub struct Number {
    units: u64,
    millionths: u32,
}

impl Model for Number {
    ghost use Rattle.std.specs.Prelude.{ℕ, ◌+◌, ◌*◌, ◌^◌, ◌<◌};

    ghost Value = { ℕ };

    ghost view = { λ n. n.units * 1000000 + n.millionths };

    ghost invariant = { λ n. (n.units < 2 ^ 64) × (n.millionths < 1000000) };
}

impl Number {
    /// Makes a whole number.
    pub fn whole(number: u64) -> Number
        ensures { result ≡ whole number }
    {
        Number {
            units: number,
            millionths: 0,
        }
    }

    /// Makes a number of seconds from microseconds.
    pub fn seconds(microseconds: u64) -> Number
        ensures { result ≡ microseconds }
    {
        Number {
            units: microseconds / 1_000_000,
            millionths: (microseconds % 1_000_000) as u32,
        }
    }

    /// Returns its whole part and its millionths.
    pub(crate) fn parts(&self) -> (u64, u32)
        ensures value { result.0 * 1000000 + result.1 ≡ self.now }
        ensures bound { result.1 < 1000000 }
        ensures short { IsShort self.now }
    {
        (self.units, self.millionths)
    }
}

/// Appends a number, given as its whole part and its millionths. The only error is out of memory.
pub(crate) fn push_number(out: &mut Vec<u8>, units: u128, millionths: u32) -> Result<(), AllocError>
    requires { millionths < 1000000 }
    ensures { OnOk result (out.new.items ≡ out.old.items ++ number_text (units * 1000000 + millionths)) }
{
    let mut digits = Buffer::new();
    push(out, digits.format(units))?;
    push_fraction(out, millionths)
}

#[tactic(auto, unfolding(crate::specs::Numbers::fraction))]
fn push_fraction(out: &mut Vec<u8>, millionths: u32) -> Result<(), AllocError>
    requires { millionths < 1000000 }
    ensures { OnOk result (out.new.items ≡ out.old.items ++ fraction millionths) }
{
    if millionths == 0 {
        return Ok(());
    }
    push(out, ".")?;
    push_places(out, millionths)
}

/// Appends the places after the point, by long division.
fn push_places(out: &mut Vec<u8>, millionths: u32) -> Result<(), AllocError>
    requires { millionths < 1000000 }
    ensures { OnOk result (out.new.items ≡ out.old.items ++ places 6 millionths) }
{
    let mut rest = millionths;
    for _place in 0..6_u32 {
        if rest == 0 {
            return Ok(());
        }
        rest *= 10;
        out.push(b'0' + (rest / 1_000_000) as u8)?;
        rest %= 1_000_000;
    }
    Ok(())
}
