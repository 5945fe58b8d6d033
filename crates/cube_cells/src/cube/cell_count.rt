//! How many cells a walk hands over.

use super::bottom_up::TakesCells;
use super::codes::Codes;
use crate::cell::Cell;
use cube_values::Numbers;
use std::alloc::AllocError;

/// How many cells were handed over, each counted under each of its keys; none of them is kept.
#[derive(Drop)]
pub struct CellCount {
    pub cells: u64,
}

impl<N: Numbers> TakesCells<N> for CellCount {
    ghost use Rattle.std.specs.Prelude.{◌≡◌, ◌+◌};

    ghost takes = { λ old codes cell new. new.cells ≡ old.cells + 1 };

    fn take_cell(&mut self, keys: &[Codes], cell: &Cell<N>) -> Result<(), AllocError> {
        match self.cells.checked_add(keys.len() as u64) {
            Some(cells) => {
                self.cells = cells;
                Ok(())
            }
            None => Err(AllocError),
        }
    }
}
