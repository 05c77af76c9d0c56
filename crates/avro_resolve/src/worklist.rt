// A worklist: numbers to look at, each once.
ghost use Rattle.std.specs.Prelude.{◌≡◌, ◌≢◌, ◌<◌, ◌*◌, ℕ, ◌&&◌, ◌||◌, ◌==◌, ◌++◌, [], ◌∷◌, true, false, not, cond, None, length, IfOk, IfSome, OnOk};
ghost use Rattle.avro_resolve.specs.Worklist.{has_number, is_of_word, is_met, waits, IsOrderly};

use crate::grid::{lowest_bit, without_bit};
use crate::numbers::Numbers;
use std::alloc::{AllocError, Global};

/// A worklist: the numbers met so far, and those of them that still wait to be looked at. It takes
/// two bits for each number, and at most one position for each 64 of them.
#[derive(Drop)]
pub struct Worklist {
    pub met: Numbers,
    /// The numbers that wait, except those of the current word.
    pub waiting: Numbers,
    /// The positions of the words of `waiting` that aren't 0.
    pub places: Vec<usize>,
    /// The bits of the current word that still wait. `place` is that word's position.
    pub bits: u64,
    pub place: usize,
}

impl Worklist {
    /// Makes an empty worklist of numbers up to `many`. The only error is out of memory.
    pub fn none(alloc: Global, many: usize) -> Result<Worklist, AllocError>
        ensures met { IfOk result (λ a. (k : ℕ) → is_met a k ≡ false) }
        ensures waits { IfOk result (λ a. (k : ℕ) → waits a k ≡ false) }
        ensures room { IfOk result (λ a. many < 64 * length a.met.words.items) }
        ensures orderly { IfOk result IsOrderly }
    {
        let met = Numbers::none(alloc, many)?;
        let waiting = Numbers::none(alloc, many)?;
        Ok(Worklist {
            met,
            waiting,
            places: Vec::new(alloc),
            bits: 0,
            place: 0,
        })
    }

    /// Adds a number, unless it was met before. The only error is out of memory.
    pub fn meet(&mut self, k: usize) -> Result<(), AllocError>
        requires room { k < 64 * length self.old.met.words.items }
        requires orderly { IsOrderly self.old }
        ensures met { OnOk result ((l : ℕ) → is_met self.new l ≡ ((k == l) || is_met self.old l)) }
        ensures waits { OnOk result ((l : ℕ) → waits self.new l ≡ (((k == l) && not (is_met self.old k)) || waits self.old l)) }
        ensures room { OnOk result (length self.new.met.words.items ≡ length self.old.met.words.items) }
        ensures orderly { OnOk result (IsOrderly self.new) }
    {
        if self.met.has(k) {
            return Ok(());
        }
        let place = k / 64;
        let is_new = self.waiting.is_empty_at(place);
        add_place(&mut self.places, place, is_new)?;
        self.met.insert(k);
        self.waiting.insert(k);
        Ok(())
    }

    /// Takes a waiting number. `None` if none waits.
    pub fn next(&mut self) -> Option<usize>
        requires { IsOrderly self.old }
        ensures waits { IfSome result (λ k. waits self.old k ≡ true) }
        ensures left { IfSome result (λ k. (l : ℕ) → waits self.new l ≡ (not (k == l) && waits self.old l)) }
        ensures none { result ≡ None → (l : ℕ) → waits self.old l ≡ false }
        ensures met { self.new.met.words.items ≡ self.old.met.words.items }
        ensures orderly { IsOrderly self.new }
    {
        self.take_up();
        if self.bits == 0 {
            return None;
        }
        let bit = lowest_bit(self.bits);
        self.bits = without_bit(self.bits, bit);
        Some(self.place * 64 + bit)
    }

    /// Moves to another word if nothing of the current one waits.
    fn take_up(&mut self)
        requires { IsOrderly self.old }
        ensures waits { (l : ℕ) → waits self.new l ≡ waits self.old l }
        ensures none { self.new.bits ≡ 0 → (l : ℕ) → has_number self.new.waiting.words.items l ≡ false }
        ensures met { self.new.met.words.items ≡ self.old.met.words.items }
        ensures orderly { IsOrderly self.new }
    {
        'words: while self.bits == 0 {
            let Some(place) = self.places.pop() else {
                return;
            };
            self.bits = self.waiting.take_word(place);
            self.place = place;
        }
    }
}

/// Adds a position if it is new.
fn add_place(places: &mut Vec<usize>, place: usize, is_new: bool) -> Result<(), AllocError>
    ensures { OnOk result (places.new.items ≡ cond is_new (places.old.items ++ place ∷ []) places.old.items) }
{
    if is_new {
        places.push(place)?;
    }
    Ok(())
}
