// Sets of numbers, a bit for each number.
ghost use Rattle.std.specs.Prelude.{◌≡◌, ◌≢◌, ◌<◌, ◌+◌, ◌*◌, ◌/◌, ℕ, ◌||◌, ◌==◌, false, length, get_or, slice_set, IfOk};
ghost use Rattle.avro_resolve.specs.Worklist.{has_number};

use crate::grid::{has_bit, with_bit};
use std::alloc::{AllocError, Global};

/// A set of numbers below a bound, with one word for each 64 numbers.
#[derive(Drop)]
pub struct Numbers {
    pub words: Vec<u64>,
}

impl Numbers {
    /// Makes an empty set of numbers up to `many`. The only error is out of memory.
    pub fn none(alloc: Global, many: usize) -> Result<Numbers, AllocError>
        ensures none { IfOk result (λ s. (k : ℕ) → has_number s.words.items k ≡ false) }
        ensures room { IfOk result (λ s. many < 64 * length s.words.items) }
        ensures words { IfOk result (λ s. (j : ℕ) → get_or s.words.items j 0 ≡ 0) }
        ensures size { IfOk result (λ s. length s.words.items ≡ many / 64 + 1) }
    {
        Ok(Numbers {
            words: vec![in alloc; 0; many / 64 + 1]?,
        })
    }

    /// Returns whether the set has a number.
    pub fn has(&self, k: usize) -> bool
        requires { k < 64 * length self.now.words.items }
        ensures { result ≡ has_number self.now.words.items k }
    {
        has_bit(self.words[k / 64], k % 64)
    }

    /// Returns whether the word at `place` is 0.
    pub fn is_empty_at(&self, place: usize) -> bool
        requires { place < length self.now.words.items }
        ensures { result ≡ (get_or self.now.words.items place 0 == 0) }
    {
        self.words[place] == 0
    }

    /// Adds a number.
    pub fn insert(&mut self, k: usize)
        requires { k < 64 * length self.old.words.items }
        ensures added { (l : ℕ) → has_number self.new.words.items l ≡ ((k == l) || has_number self.old.words.items l) }
        ensures others { (j : ℕ) → j ≢ k / 64 → get_or self.new.words.items j 0 ≡ get_or self.old.words.items j 0 }
        ensures room { length self.new.words.items ≡ length self.old.words.items }
    {
        let place = k / 64;
        let word = self.words[place];
        self.words[place] = with_bit(word, k % 64);
    }

    /// Removes the numbers of the word at `place` and returns its bits.
    pub fn take_word(&mut self, place: usize) -> u64
        requires { place < length self.old.words.items }
        ensures word { result ≡ get_or self.old.words.items place 0 }
        ensures words { self.new.words.items ≡ slice_set self.old.words.items place 0 }
    {
        let word = self.words[place];
        self.words[place] = 0;
        word
    }
}
