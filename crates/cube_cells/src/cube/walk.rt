//! The walk over the levels of the kept grouping sets: the one key in each that covers a fact.
ghost use Rattle.std.specs.Prelude.{◌≡◌, ◌≤◌, ◌<◌, [], ◌∷◌, ℕ, All, IsTrue, OnOk, OnErr, None, length, get_or};
ghost use Rattle.std.specs.List.{list_all, AllZip};
ghost use Rattle.std.specs.Option.{option_map};
ghost use Rattle.cube_values.specs.Bag.{Bag};
ghost use Rattle.cube_cells.specs.Coded.{coded_at};
ghost use Rattle.cube_cells.specs.Cube.{cell_holds};
ghost use Rattle.cube_cells.specs.Levels.{HasRoomInLevel, level_holds, table_at, AddsInLevel, TakesInLevel, SameInLevel, ChangesFirst};
ghost use Rattle.cube_cells.specs.declared.cube.levels.Level.{Level};
ghost use Rattle.cube_cells.specs.Walk.{LosesFact, HasRoom, AddsIn, TakesIn, SameCoded, AreApart};

use super::codes::Codes;
use super::levels::{Cells, Level};
use crate::cell::Cell;
use cube_values::Numbers;
use std::alloc::{AllocError, Global};

/// Adds a fact with these codes and measures to its cell of each level, or to none.
pub fn add_to_sets(
    alloc: Global,
    levels: &mut [Level],
    codes: &Codes,
    values: &[Option<i64>],
) -> Result<(), AllocError>
    requires { All (HasRoomInLevel codes.now values.now) levels.old }
    ensures added { OnOk result (AllZip (AddsInLevel codes.now values.now) levels.old levels.new) }
    ensures err { OnErr result (AllZip (SameInLevel codes.now) levels.old levels.new) }
{
    for place in 0..levels.len() {
        if let Err(error) = add_to_level(alloc, &mut levels[place], codes, values) {
            take_from_sets(levels, place, codes, values);
            return Err(error);
        }
    }
    Ok(())
}

/// Takes a fact with these codes and measures from its cell of each of the first levels.
pub fn take_from_sets(levels: &mut [Level], number: usize, codes: &Codes, values: &[Option<i64>])
    requires within { number ≤ length levels.old }
    requires held { (i : ℕ) (unused : Level Bag) → i < number →
        IsTrue (level_holds codes.now values.now (get_or levels.old i unused)) }
    ensures { ChangesFirst (TakesInLevel codes.now values.now) number levels.old levels.new }
{
    for place in 0..number {
        take_from_level(&mut levels[place], codes, values);
    }
}

/// Whether in each level the key with these codes is a cell that holds the measures.
pub fn hold_in_sets(levels: &[Level], codes: &Codes, values: &[Option<i64>]) -> bool
    ensures { result ≡ list_all (level_holds codes.now values.now) levels.now }
{
    levels.iter().all(|level| holds_at(&level.cells, &codes.kept(level.set), values))
}

/// The cell with these codes: it is in the level of their set.
pub fn find_cell<'c, N: Numbers>(levels: &'c [Level<N>], codes: &Codes) -> Option<&'c Cell<N>>
    ensures { option_map (λ cell. cell.now) result ≡ coded_at (table_at levels.now codes.now) codes.now }
{
    let set = codes.mask();
    for level in levels {
        if level.set == set {
            return level.cells.get(codes);
        }
    }
    None
}

// Adds to the cell of a level.
fn add_to_level(
    alloc: Global,
    level: &mut Level,
    codes: &Codes,
    values: &[Option<i64>],
) -> Result<(), AllocError>
    requires { HasRoomInLevel codes.now values.now level.old }
    ensures added { OnOk result (AddsInLevel codes.now values.now level.old level.new) }
    ensures err { OnErr result (SameInLevel codes.now level.old level.new) }
{
    let key = codes.kept(level.set);
    add_to_cell(alloc, &mut level.cells, key, values)
}

// Takes from the cell of a level.
fn take_from_level(level: &mut Level, codes: &Codes, values: &[Option<i64>])
    requires { IsTrue (level_holds codes.now values.now level.old) }
    ensures { TakesInLevel codes.now values.now level.old level.new }
{
    let key = codes.kept(level.set);
    take_from_cell(&mut level.cells, key, values);
}

fn holds_at(cells: &Cells, codes: &Codes, values: &[Option<i64>]) -> bool
    ensures { result ≡ cell_holds values.now (coded_at cells.now.entries codes.now) }
{
    match cells.get(codes) {
        None => false,
        Some(cell) => cell.holds(values),
    }
}

/// Adds to the cell of a key, which is filled before it is put in where it is new.
pub fn add_to_cell(
    alloc: Global,
    cells: &mut Cells,
    codes: Codes,
    values: &[Option<i64>],
) -> Result<(), AllocError>
    requires { HasRoom values.now codes (coded_at cells.old.entries codes) }
    ensures added { OnOk result (AddsIn (codes ∷ []) values.now cells.old.entries cells.new.entries) }
    ensures err { OnErr result (SameCoded (codes ∷ []) cells.old.entries cells.new.entries) }
    ensures apart { AreApart cells.old.entries → AreApart cells.new.entries }
{
    if let Some(cell) = cells.get_mut(&codes) {
        return cell.plus(values);
    }
    put_cell(alloc, cells, codes, values)
}

/// Adds to the cell of a key, where the cells are no longer asked if memory runs out.
pub fn gather_at<N: Numbers>(
    alloc: Global,
    cells: &mut Cells<N>,
    codes: Codes,
    values: &[Option<i64>],
) -> Result<(), AllocError>
    requires { HasRoom values.now codes (coded_at cells.old.entries codes) }
    ensures added { OnOk result (AddsIn (codes ∷ []) values.now cells.old.entries cells.new.entries) }
    ensures apart { AreApart cells.old.entries → AreApart cells.new.entries }
{
    if let Some(cell) = cells.get_mut(&codes) {
        return cell.gather(values);
    }
    put_cell(alloc, cells, codes, values)
}

/// Adds a fact with these codes and measures to its cell of each level, where the cells are no longer asked if memory runs
/// out.
pub fn gather_in_sets<N: Numbers>(
    alloc: Global,
    levels: &mut [Level<N>],
    codes: &Codes,
    values: &[Option<i64>],
) -> Result<(), AllocError>
    requires { All (HasRoomInLevel codes.now values.now) levels.old }
    ensures { OnOk result (AllZip (AddsInLevel codes.now values.now) levels.old levels.new) }
{
    for place in 0..levels.len() {
        gather_in_level(alloc, &mut levels[place], codes, values)?;
    }
    Ok(())
}

// Adds to the cell of a level, where the cells are no longer asked if memory runs out.
fn gather_in_level<N: Numbers>(
    alloc: Global,
    level: &mut Level<N>,
    codes: &Codes,
    values: &[Option<i64>],
) -> Result<(), AllocError>
    requires { HasRoomInLevel codes.now values.now level.old }
    ensures { OnOk result (AddsInLevel codes.now values.now level.old level.new) }
{
    let key = codes.kept(level.set);
    gather_at(alloc, &mut level.cells, key, values)
}

// Puts a cell of one fact in.
fn put_cell<N: Numbers>(
    alloc: Global,
    cells: &mut Cells<N>,
    codes: Codes,
    values: &[Option<i64>],
) -> Result<(), AllocError>
    requires { coded_at cells.old.entries codes ≡ None }
    ensures added { OnOk result (AddsIn (codes ∷ []) values.now cells.old.entries cells.new.entries) }
    ensures err { OnErr result (cells.new.entries ≡ cells.old.entries) }
    ensures apart { AreApart cells.old.entries → AreApart cells.new.entries }
{
    let mut cell = Cell::empty(alloc, values.len())?;
    cell.gather(values)?;
    cells.insert(codes, cell)?;
    Ok(())
}

// Takes from the cell of a key, which goes where no fact is left and it isn't the grand total.
fn take_from_cell(cells: &mut Cells, codes: Codes, values: &[Option<i64>])
    requires { IsTrue (cell_holds values.now (coded_at cells.old.entries codes)) }
    ensures taken { TakesIn (codes ∷ []) values.now cells.old.entries cells.new.entries }
    ensures apart { AreApart cells.old.entries → AreApart cells.new.entries }
{
    if minus_at(cells, &codes, values) == 0 && !codes.is_total() {
        let _ = cells.remove(&codes);
    }
}

// Takes from the cell of a key, and answers how many facts it has left.
fn minus_at(cells: &mut Cells, codes: &Codes, values: &[Option<i64>]) -> u64
    requires { IsTrue (cell_holds values.now (coded_at cells.old.entries codes.now)) }
    ensures taken { LosesFact codes.now values.now cells.old.entries cells.new.entries result }
    ensures apart { AreApart cells.old.entries → AreApart cells.new.entries }
{
    let Some(cell) = cells.get_mut(codes) else {
        return 0;
    };
    cell.minus(values);
    cell.count()
}
