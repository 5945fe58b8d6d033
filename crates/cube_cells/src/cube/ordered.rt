//! The cells of a cube in order.
ghost use Rattle.std.specs.Prelude.{◌≡◌, ◌≤◌, ◌<◌, ◌++◌, [], true, IfOk, OnOk, OnErr, length, map, get_or, All};
ghost use Rattle.std.specs.List.{AllZip, list_all};
ghost use Rattle.std.specs.List.Sorted.{IsPermutation, IsSortedBy};
ghost use Rattle.std.specs.Ordering.{is_lt};
ghost use Rattle.cube_core.specs.Order.{key_cmp};
ghost use Rattle.cube_core.specs.Layout.{is_aggregate_of, suffices};
ghost use Rattle.cube_core.specs.declared.key.Key.{Key};
ghost use Rattle.cube_cells.specs.Codes.{Dictionaries, coords_at, key_at};
ghost use Rattle.cube_cells.specs.Rows.{AreAnswersOf, AreRowsInOrder, IsRowOf};
ghost use Rattle.cube_cells.specs.Tally.{Tally};
ghost use Rattle.cube_cells.specs.declared.cube.codes.Codes.{Codes};

use super::codes::Codes;
use super::dictionary::{Dictionary, compare_keys};
use super::keyed::KeyedCell;
use super::ranks::KeyRanks;
use crate::cell::Cell;
use cube_core::{Agg, Key, Row, Sequence};
use cube_values::Numbers;
use std::alloc::{AllocError, Global};
use std::marker::Model;

/// Where a row comes from: a cell, and the ranks of its key.
#[derive(Drop)]
pub struct Place<'c> {
    pub ranks: KeyRanks,
    pub codes: &'c Codes,
    pub cell: &'c Cell,
}

// A cell, and the codes of its key by these dictionaries.
#[derive(Drop)]
struct Coded<'c> {
    dictionaries: &'c [Dictionary],
    codes: &'c Codes,
    cell: &'c Cell,
}

/// Cells of a cube, or of several, in the order of their keys, with the aggregates that their rows answer.
///
/// It holds no row: each cell and its key are read where they lie.
#[derive(Drop)]
pub struct OrderedCells<'c> {
    alloc: Global,
    aggregates: &'c [Agg],
    cells: Vec<Coded<'c>>,
}

impl<'c> Model for OrderedCells<'c> {
    ghost use Rattle.std.specs.Prelude.{[], ◌≡◌, ◌≤◌, true, All, length, map};
    ghost use Rattle.std.specs.List.{list_all};
    ghost use Rattle.cube_core.specs.Layout.{is_aggregate_of};
    ghost use Rattle.cube_cells.specs.Codes.{key_at};
    ghost use Rattle.cube_cells.specs.Rows.{CellsInOrder};

    ghost Value = { CellsInOrder };

    ghost view = { λ o. record {
      aggregates = o.aggregates.now;
      cells = map (λ coded.
          (key_at coded.dictionaries.now coded.codes.now.codes, coded.cell.now)) o.cells.items;
    } };

    ghost invariant = { λ o. All (λ coded. (length coded.dictionaries.now ≤ 8)
        × (list_all (is_aggregate_of (length coded.cell.now.bags)) o.aggregates.now ≡ true)) o.cells.items };
}

impl<'c> OrderedCells<'c> {
    /// The cells of these places. The only error is that memory ran out.
    pub(super) fn of(
        alloc: Global,
        aggregates: &'c [Agg],
        dictionaries: &'c [Dictionary],
        places: &[Place<'c>],
    ) -> Result<OrderedCells<'c>, AllocError>
        requires dictionaries { length dictionaries.now ≤ 8 }
        requires aggregates { All (λ place. list_all
            (is_aggregate_of (length place.cell.now.bags)) aggregates.now ≡ true) places.now }
        ensures { IfOk result (λ ordered. (ordered.aggregates ≡ aggregates.now) ×
            (ordered.cells ≡ map (λ place.
            (key_at dictionaries.now place.codes.now.codes, place.cell.now)) places.now)) }
    {
        let cells = coded_cells(alloc, dictionaries, places)?;
        Ok(OrderedCells {
            alloc,
            aggregates,
            cells,
        })
    }

    /// Puts the cells of another cube after these, to be sorted with them. The only error is that memory ran out.
    pub fn append(&mut self, other: OrderedCells<'c>) -> Result<(), AllocError>
        requires { other.aggregates ≡ self.old.aggregates }
        ensures aggregates { self.new.aggregates ≡ self.old.aggregates }
        ensures cells { OnOk result (self.new.cells ≡ self.old.cells ++ other.entry.cells) }
        ensures err { OnErr result (self.new.cells ≡ self.old.cells) }
    {
        let mut more = other.cells;
        self.cells.append(&mut more)?;
        Ok(())
    }

    /// Puts the cells in the order of their keys; those that stand in order together are merged. The only error is
    /// that memory ran out.
    pub fn sort(&mut self) -> Result<(), AllocError>
        ensures aggregates { self.new.aggregates ≡ self.old.aggregates }
        ensures same { IsPermutation self.old.cells self.new.cells }
        ensures order { OnOk result
            (IsSortedBy (λ a b. is_lt (key_cmp a.0 b.0)) self.new.cells) }
    {
        self.cells.sort_by(|a, b| {
            compare_keys(
                a.dictionaries,
                &a.codes.codes,
                b.dictionaries,
                &b.codes.codes,
            )
        })?;
        Ok(())
    }

    /// How many cells there are.
    pub fn len(&self) -> usize
        ensures { result ≡ length self.now.cells }
    {
        self.cells.len()
    }

    /// What the rows answer.
    pub fn aggregates(&self) -> &[Agg]
        ensures { result.now ≡ self.now.aggregates }
    {
        self.aggregates
    }

    /// The cell at a place, counted from 0, with its key.
    pub fn cell_at(&self, place: usize) -> KeyedCell<'_>
        requires { place < length self.now.cells }
        ensures cell { (unused : Key × Tally) → result ≡ get_or self.now.cells place unused }
        ensures aggregates { list_all (is_aggregate_of (length result.1.bags)) self.now.aggregates ≡ true }
    {
        let found = &self.cells[place];
        KeyedCell {
            dictionaries: found.dictionaries,
            codes: found.codes,
            cell: found.cell,
        }
    }

    // The row of the cell at a place.
    fn row_at(&self, place: usize) -> Result<Row, AllocError>
        requires { place < length self.now.cells }
        ensures { IfOk result (λ row. (unused : Key × Tally) →
            IsRowOf self.now.aggregates (get_or self.now.cells place unused) row) }
    {
        let coded = &self.cells[place];
        let key = key_in(self.alloc, coded.dictionaries, coded.codes)?;
        row_of(self.alloc, self.aggregates, key, coded.cell)
    }

    /// The rows of the cells, in their order. The only error is that memory ran out.
    pub fn rows(&self) -> Result<Vec<Row>, AllocError>
        ensures { IfOk result (λ rows. AreRowsInOrder self.now rows.items) }
    {
        let mut rows = Vec::with_capacity(self.alloc, self.len())?;
        for place in 0..self.len() {
            rows.push(self.row_at(place)?)?;
        }
        Ok(rows)
    }
}

// The cells of places. Neither a cell nor its codes are read, which lie in memory that no cache holds: who prints reads both
// at once, and several print.
fn coded_cells<'c>(
    alloc: Global,
    dictionaries: &'c [Dictionary],
    places: &[Place<'c>],
) -> Result<Vec<Coded<'c>>, AllocError>
    ensures { IfOk result (λ cells. map {B = Dictionaries × (Codes × Tally)}
        (λ coded. (coded.dictionaries.now, (coded.codes.now, coded.cell.now))) cells.items
        ≡ map (λ place. (dictionaries.now, (place.codes.now, place.cell.now))) places.now) }
{
    let mut cells = Vec::with_capacity(alloc, places.len())?;
    for place in places {
        cells.push(Coded {
            dictionaries,
            codes: place.codes,
            cell: place.cell,
        })?;
    }
    Ok(cells)
}

// The key of codes.
fn key_in(alloc: Global, dictionaries: &[Dictionary], codes: &Codes) -> Result<Key, AllocError>
    requires { length dictionaries.now ≤ 8 }
    ensures { IfOk result (λ key. key ≡ key_at dictionaries.now codes.now.codes) }
{
    let mut coords = Vec::with_capacity(alloc, dictionaries.len())?;
    for (place, dictionary) in dictionaries.iter().enumerate() {
        coords.push(dictionary.coord_at(alloc, codes.codes[place])?)?;
    }
    Ok(Key {
        coords: Sequence::from_vec(coords),
    })
}

/// The row of a key with a cell, whose aggregates can be answered by what it keeps. The only error is that memory ran out.
pub fn row_of<N: Numbers>(
    alloc: Global,
    aggregates: &[Agg],
    key: Key,
    cell: &Cell<N>,
) -> Result<Row, AllocError>
    requires measures { list_all (is_aggregate_of (length cell.now.bags)) aggregates.now ≡ true }
    requires keeps { list_all (suffices N.keeps) aggregates.now ≡ true }
    ensures { IfOk result (IsRowOf aggregates.now (key, cell.now)) }
{
    let mut answers = Vec::with_capacity(alloc, aggregates.len())?;
    for aggregate in aggregates {
        answers.push(cell.try_answer(aggregate)?)?;
    }
    Ok(Row {
        key,
        answers: Sequence::from_vec(answers),
    })
}
