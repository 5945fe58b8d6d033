//! What cells ask of counted values.
ghost use Rattle.std.specs.Prelude.{◌≡◌};

use crate::counted::Counted;
use crate::numbers::Numbers;
use cube_core::Squares;
use std::alloc::{AllocError, Global};

impl Numbers for Counted {
    ghost use Rattle.std.specs.Prelude.{true};

    ghost bag = { λ c. c };

    ghost keeps = { true };

    fn new(alloc: Global) -> Counted {
        Counted::new(alloc)
    }

    fn add(&mut self, value: i64) -> Result<(), AllocError> {
        self.add(value)
    }

    fn merge(&mut self, more: &Counted) -> Result<(), AllocError> {
        self.merge(more)
    }

    fn shrink_to_fit(&mut self) {
        self.shrink_to_fit();
    }

    fn bring_in_order(&mut self) {
        self.bring_in_order();
    }

    fn least(&self) -> Option<i64> {
        self.least()
    }

    fn greatest(&self) -> Option<i64> {
        self.greatest()
    }

    fn len(&self) -> u64 {
        self.len()
    }

    fn is_empty(&self) -> bool {
        self.is_empty()
    }

    fn different(&self) -> Result<u64, AllocError> {
        self.different()
    }

    fn in_order(&self) -> Result<Vec<(i64, u64)>, AllocError> {
        self.in_order()
    }

    fn at_place(&self, place: u64) -> i64 {
        self.at_place(place)
    }

    fn squares(&self) -> Squares {
        self.squares()
    }
}
