//! The tables of a cube: one for each kept grouping set.
ghost use Rattle.std.specs.Prelude.{◌≡◌, [], ◌∷◌, true, length, All, IfOk};
ghost use Rattle.std.specs.List.{AllZip};
ghost use Rattle.cube_cells.specs.Coded.{AreNewCells};
ghost use Rattle.cube_cells.specs.Levels.{IsNewLevel, IsReordered, IsUnderKey, cells_of};
ghost use Rattle.std.specs.HashMap.{hasher_of};

use super::cell_key::CellKey;
use super::codes::Codes;
use crate::cell::Cell;
use cube_values::{Counted, Numbers};
use std::alloc::{AllocError, Global};
use std::collections::HashMap;

/// Cells by their codes, which are hashed under a key that the schema brings: whoever writes a feed chooses them.
pub type Cells<N = Counted> = HashMap<Codes, Cell<N>, CellKey>;

/// A grouping set with its cells.
#[derive(Drop)]
pub struct Level<N: Numbers = Counted> {
    pub set: u8,
    pub cells: Cells<N>,
}

/// The levels of these sets over no fact.
pub fn new_levels<N: Numbers>(
    alloc: Global,
    key: CellKey,
    measures: usize,
    sets: &[u8],
) -> Result<Vec<Level<N>>, AllocError>
    ensures new { IfOk result (λ levels. AllZip (IsNewLevel measures) sets.now levels.items) }
    ensures key { IfOk result (λ levels. All (IsUnderKey key) levels.items) }
{
    let mut levels = Vec::with_capacity(alloc, sets.len())?;
    for set in sets {
        let cells = new_cells(alloc, key, measures, *set == 0)?;
        levels.push(Level { set: *set, cells })?;
    }
    Ok(levels)
}

/// Makes room in each level for so many more cells. The cells are those that there were, in any order.
pub fn reserve_in_levels<N: Numbers>(levels: &mut [Level<N>], more: usize) -> Result<(), AllocError>
    ensures { AllZip IsReordered levels.old levels.new }
{
    for place in 0..levels.len() {
        levels[place].cells.reserve(more)?;
    }
    Ok(())
}

/// How many cells levels have. The only error is that numbers to count them with ran out.
pub fn count_in<N: Numbers>(levels: &[Level<N>]) -> Result<usize, AllocError>
    ensures { IfOk result (λ number. number ≡ length (cells_of levels.now)) }
{
    let mut number: usize = 0;
    for level in levels {
        let Some(more) = number.checked_add(level.cells.len()) else {
            return Err(AllocError);
        };
        number = more;
    }
    Ok(number)
}

/// The level of one set alone.
pub fn one_level<N: Numbers>(alloc: Global, level: Level<N>) -> Result<Vec<Level<N>>, AllocError>
    ensures { IfOk result (λ levels. levels.items ≡ level ∷ []) }
{
    let mut levels = Vec::with_capacity(alloc, 1)?;
    levels.push(level)?;
    Ok(levels)
}

/// The cells of no fact: the grand total, where its set is kept.
pub fn new_cells<N: Numbers>(
    alloc: Global,
    key: CellKey,
    measures: usize,
    has_total: bool,
) -> Result<Cells<N>, AllocError>
    ensures new { IfOk result (λ cells. AreNewCells has_total measures cells.entries) }
    ensures key { IfOk result (λ cells. hasher_of cells ≡ key) }
{
    if has_total {
        total_cells(alloc, key, measures)
    } else {
        Ok(HashMap::with_hasher(alloc, key))
    }
}

// The cell of the grand total over no facts.
fn total_cells<N: Numbers>(
    alloc: Global,
    key: CellKey,
    measures: usize,
) -> Result<Cells<N>, AllocError>
    ensures new { IfOk result (λ cells. AreNewCells true measures cells.entries) }
    ensures key { IfOk result (λ cells. hasher_of cells ≡ key) }
{
    let mut cells = HashMap::with_hasher(alloc, key);
    cells.insert(Codes::total(), Cell::empty(alloc, measures)?)?;
    Ok(cells)
}
