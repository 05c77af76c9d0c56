// Feeds of numbers, whose names are picked where they are made.
mod named;
mod published;
mod racing;
mod together;

ghost use Rattle.std.specs.Prelude.{◌≡◌};

use reg_feed::{FeedName, Fold};
use std::alloc::AllocError;
use std::marker::{Brand, Model};

/// A sum, which refuses so many items first. Contracts see the sum alone.
#[derive(Drop)]
struct Sum {
    total: u64,
    refusals: u64,
}

impl Model for Sum {
    ghost use Rattle.std.specs.Prelude.{ℕ};

    ghost Value = { ℕ };

    ghost view = { λ s. s.total };
}

impl Fold<u64> for Sum {
    ghost use Rattle.std.specs.Prelude.{◌+◌, ◌^◌, ◌-◌, min};

    ghost applied = { λ total item. min (total + item) (2 ^ 64 - 1) };

    fn take_item(&mut self, item: &u64, _other: &Sum) -> Result<(), AllocError> {
        if self.refusals > 0 {
            self.refusals -= 1;
            return Err(AllocError);
        }
        self.total = self.total.saturating_add(*item);
        Ok(())
    }

    fn again(&self) -> Result<Sum, AllocError> {
        self.clone()
    }
}

impl Clone for Sum {
    ghost is_clone = { λ sum copy. copy ≡ sum };

    fn clone(&self) -> Result<Sum, AllocError> {
        Ok(Sum {
            total: self.total,
            refusals: self.refusals,
        })
    }
}

/// Each call picks its own.
impl FeedName<u64, Sum> for Brand {
    ghost book = { record { number = 0; log_name = 0; cells_name = 0 } };

    ghost first = { 0 };
}

/// A sum that refuses nothing.
fn sum_of(total: u64) -> Sum {
    Sum { total, refusals: 0 }
}
