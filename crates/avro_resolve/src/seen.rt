// The set of pairs that were seen.
ghost use Rattle.std.specs.Prelude.{◌≡◌, ℕ, ◌||◌, false, not, IfOk, OnOk};
ghost use Rattle.avro_resolve.specs.Seen.{is_seen, IsFair, is_further, IsFairFurther, are_further, AreFair, same_pair, same_numbers};

use crate::firsts::{Firsts, Known};
use crate::grid::Grid;
use crate::obligations::Pair;
use std::alloc::{AllocError, Global};

/// The set of pairs that were seen. It keeps the first partner of each of the reader's types, which
/// is usually the only one, and the further pairs apart.
#[derive(Drop)]
pub struct SeenPairs {
    pub first: Firsts,
    pub further: Option<Further>,
    memory: Global,
    writers: usize,
}

/// The pairs whose reader's type already had another partner. It keeps the first partner of each of
/// the writer's types, and the other pairs apart.
#[derive(Drop)]
pub struct Further {
    pub first: Firsts,
    pub others: Grid,
}

impl SeenPairs {
    /// Makes an empty set for schemas of so many nodes. The only error is out of memory.
    pub fn none(alloc: Global, readers: usize, writers: usize) -> Result<SeenPairs, AllocError>
        ensures none { IfOk result (λ s. (p : _) → is_seen s p ≡ false) }
        ensures fair { IfOk result IsFair }
    {
        Ok(SeenPairs {
            first: Firsts::none(alloc, readers)?,
            further: None,
            memory: alloc,
            writers,
        })
    }

    /// Adds a pair, and says whether it is new.
    pub fn insert(&mut self, pair: Pair) -> Result<bool, AllocError>
        requires { IsFair self.old }
        ensures new { IfOk result (λ b. b ≡ not (is_seen self.old pair)) }
        ensures seen { OnOk result ((p : _) → is_seen self.new p ≡ (same_pair pair p || is_seen self.old p)) }
        ensures fair { OnOk result (IsFair self.new) }
    {
        let i = pair.reader.index;
        let j = pair.writer.index;
        match self.first.join(i, j) {
            Known::New => Ok(true),
            Known::Same => Ok(false),
            Known::Other => Ok(insert_further(&mut self.further, self.memory, self.writers, i, j)?),
        }
    }
}

/// Adds a further pair, perhaps the first, and returns whether it is new.
fn insert_further(
    further: &mut Option<Further>,
    alloc: Global,
    writers: usize,
    i: usize,
    j: usize,
) -> Result<bool, AllocError>
    requires { AreFair further.old }
    ensures new { IfOk result (λ b. b ≡ not (are_further further.old i j)) }
    ensures added { OnOk result ((k l : ℕ) → are_further further.new k l ≡ (same_numbers i j k l || are_further further.old k l)) }
    ensures fair { OnOk result (AreFair further.new) }
{
    match further {
        Some(pairs) => pairs.insert(i, j),
        None => {
            let mut pairs = Further::none(alloc, writers)?;
            let new = pairs.insert(i, j)?;
            *further = Some(pairs);
            Ok(new)
        }
    }
}

impl Further {
    /// Makes an empty set for a writer's schema of so many nodes.
    fn none(alloc: Global, writers: usize) -> Result<Further, AllocError>
        ensures none { IfOk result (λ f. (i j : ℕ) → is_further f i j ≡ false) }
        ensures fair { IfOk result IsFairFurther }
    {
        Ok(Further {
            first: Firsts::none(alloc, writers)?,
            others: Grid::none(alloc),
        })
    }

    /// Adds a pair, and says whether it is new.
    fn insert(&mut self, i: usize, j: usize) -> Result<bool, AllocError>
        requires { IsFairFurther self.old }
        ensures new { IfOk result (λ b. b ≡ not (is_further self.old i j)) }
        ensures added { OnOk result ((k l : ℕ) → is_further self.new k l ≡ (same_numbers i j k l || is_further self.old k l)) }
        ensures fair { OnOk result (IsFairFurther self.new) }
    {
        match self.first.join(j, i) {
            Known::New => Ok(true),
            Known::Same => Ok(false),
            Known::Other => Ok(self.others.insert(i, j)?),
        }
    }
}
