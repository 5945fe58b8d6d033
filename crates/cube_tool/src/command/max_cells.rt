//! How many cells a cube may have.
ghost use Rattle.std.specs.Prelude.{◌≡◌, ◌<◌, ◌≤◌, IfErr, IfOk, OnOk};
ghost use Rattle.cube_build.specs.Parts.{facts_of_run, schema_of_run};
ghost use Rattle.cube_ledger.specs.Ledger.{all_facts};
ghost use Rattle.cube_tool.specs.MaxCells.{HasCellsOf, HasCellsWithin, RefusesCells, cells_named, lawful_cells};

use crate::command::failure::Failure;
use crate::fault::RunFault;
use cube_build::{Built, Taken};
use cube_live::count_of;
use std::alloc::AllocError;

// The most that a word may name: 2 to the power 63, less 1.
const MOST: u64 = 9_223_372_036_854_775_807;

/// How many cells a cube may have, as a word names it: digits alone with no leading zero, from 1 to 2 to the power 63 less 1.
/// None for any other word.
pub fn read_max_cells(word: &str) -> Option<u64>
    ensures { result ≡ cells_named word.now }
{
    match count_of(word.as_bytes()) {
        Some(number) => lawful_cells(number),
        None => None,
    }
}

// A number of cells, where that is lawful.
fn lawful_cells(number: u64) -> Option<u64>
    ensures { result ≡ lawful_cells number }
{
    if 1 <= number && number <= MOST {
        Some(number)
    } else {
        None
    }
}

/// Fails where the cube of the facts that one builder took has more cells than it may have, where there is a bound, or where
/// memory ran out. No cell is kept.
pub fn refuse_taken(max_cells: Option<u64>, taken: &Taken) -> Result<(), Failure>
    ensures within { OnOk result
        (HasCellsWithin max_cells taken.now.ledger.schema (all_facts taken.now.ledger.accounts)) }
    ensures beyond { IfErr result
        (RefusesCells max_cells taken.now.ledger.schema (all_facts taken.now.ledger.accounts)) }
{
    let Some(most) = max_cells else {
        return Ok(());
    };
    match count_taken(taken) {
        Ok(number) => refuse_more(most, number),
        Err(_) => Err(Failure::Run(RunFault::Full)),
    }
}

// How many cells the cube of the facts that one builder took has. The only error is that memory ran out, or numbers to count
// them with.
fn count_taken(taken: &Taken) -> Result<u64, AllocError>
    ensures { IfOk result
        (HasCellsOf taken.now.ledger.schema (all_facts taken.now.ledger.accounts)) }
{
    taken.cells().count_cells()
}

/// Fails where a cube that was built has more cells than it may have, where there is a bound, or where numbers to count them
/// with ran out.
pub fn refuse_built(max_cells: Option<u64>, built: &Built) -> Result<(), Failure>
    ensures within { OnOk result (HasCellsWithin max_cells (schema_of_run built.now) (facts_of_run built.now)) }
    ensures beyond { IfErr result
        (RefusesCells max_cells (schema_of_run built.now) (facts_of_run built.now)) }
{
    let Some(most) = max_cells else {
        return Ok(());
    };
    match built.count_cells() {
        Ok(number) => refuse_more(most, number),
        Err(_) => Err(Failure::Run(RunFault::Full)),
    }
}

// Fails where so many cells are more than there may be.
fn refuse_more(most: u64, number: u64) -> Result<(), Failure>
    ensures within { OnOk result (number ≤ most) }
    ensures beyond { IfErr result (λ failure. (failure ≡ Failure.TooManyCells) × (most < number)) }
{
    if number <= most {
        Ok(())
    } else {
        Err(Failure::TooManyCells)
    }
}
