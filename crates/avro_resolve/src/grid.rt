// A set of pairs of numbers, of which many may have one first number.
ghost use Rattle.std.specs.Prelude.{◌≡◌, ◌≢◌, ◌↔◌, ◌<◌, ℕ, ◌||◌, false, not, IsTrue, IfOk, OnOk, unwrap_or};
ghost use Rattle.std.specs.Int.{bit_at};
ghost use Rattle.avro_resolve.specs.Seen.{in_grid, word_at, same_numbers};

use std::alloc::{AllocError, Global};
use std::collections::BTreeMap;

/// A set of pairs of numbers. Each word has the pairs of one first number and 64 second numbers.
#[derive(Drop)]
pub struct Grid {
    pub words: BTreeMap<(usize, usize), u64>,
}

impl Grid {
    /// Makes an empty set.
    pub fn none(alloc: Global) -> Grid
        ensures { (i j : ℕ) → in_grid result i j ≡ false }
    {
        Grid {
            words: BTreeMap::new(alloc),
        }
    }

    /// Adds a pair and returns whether it is new.
    pub fn insert(&mut self, i: usize, j: usize) -> Result<bool, AllocError>
        ensures new { IfOk result (λ b. b ≡ not (in_grid self.old i j)) }
        ensures added { OnOk result ((k l : ℕ) → in_grid self.new k l ≡ (same_numbers i j k l || in_grid self.old k l)) }
    {
        let bit = j % 64;
        match self.words.get_mut(&(i, j / 64)) {
            Some(bits) => {
                let new = !has_bit(*bits, bit);
                *bits = with_bit(*bits, bit);
                Ok(new)
            }
            None => {
                self.words.insert((i, j / 64), with_bit(0, bit))?;
                Ok(true)
            }
        }
    }
}

pub fn with_bit(bits: u64, k: usize) -> u64
    requires { k < 64 }
    ensures set { bit_at result k ≡ 1 }
    ensures others { (i : ℕ) → i ≢ k → bit_at result i ≡ bit_at bits i }
{
    bits | (1 << k)
}

pub fn without_bit(bits: u64, k: usize) -> u64
    requires { k < 64 }
    ensures cleared { bit_at result k ≡ 0 }
    ensures others { (i : ℕ) → i < 64 → i ≢ k → bit_at result i ≡ bit_at bits i }
{
    bits & !(1 << k)
}

pub fn has_bit(bits: u64, k: usize) -> bool
    requires { k < 64 }
    ensures { IsTrue result ↔ (bit_at bits k ≡ 1) }
{
    bits & (1 << k) != 0
}

/// Returns the position of the lowest bit that is set, from 0. `bits` must not be 0.
pub fn lowest_bit(bits: u64) -> usize
    requires { bits ≢ 0 }
    ensures within { result < 64 }
    ensures set { bit_at bits result ≡ 1 }
{
    bits.trailing_zeros() as usize
}
