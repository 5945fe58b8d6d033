//! Questions to the finest cells of some facts: slices, rolling a key up along a dimension, and drilling down from it, each by
//! a walk to those grouping sets alone that can have a row of the answer.
ghost use Rattle.std.specs.Prelude.{◌≡◌, ◌<◌, ◌≤◌, ◌∷◌, [], Bool, List, IfOk, OnOk, filter, length, true};
ghost use Rattle.cube_core.specs.GroupingSet.{is_all_at};
ghost use Rattle.cube_core.specs.Query.{AreRowsWhere, drill_fault, drills_down, matches, rolled_up};
ghost use Rattle.cube_core.specs.declared.fact.Fact.{Fact};
ghost use Rattle.cube_core.specs.declared.key.Key.{Key};
ghost use Rattle.cube_cells.specs.Codes.{key_at};
ghost use Rattle.cube_cells.specs.Fill.{IsCubeOfAll};
ghost use Rattle.cube_cells.specs.FinestRows.{AddsWanted, can_be_grouped, can_be_of};
ghost use Rattle.cube_cells.specs.Rows.{AreWantsOf, GivesUnless, IsRowOf, IsRowOver};

use super::bottom_up::TakesCells;
use super::codes::{ALL, Codes};
use super::finest_cells::FinestCells;
use super::ordered::row_of;
use super::push_kept;
use super::queries::{FindsCodes, rolled_up, wants_below, wants_of};
use super::rows::{Want, are_wanted};
use super::sorted_texts::SortedTexts;
use crate::cell::Cell;
use cube_core::{Coord, Key, Pattern, QueryFault, Row};
use cube_values::Numbers;
use std::alloc::{AllocError, Global};

impl<N: Numbers> FindsCodes for FinestCells<N> {
    ghost dictionaries = { λ cells. cells.dictionaries };

    fn code_in(&self, dimension: usize, coord: &Coord) -> u32 {
        self.texts[dimension].code_of_coord(coord)
    }
}

impl<N: Numbers> FinestCells<N> {
    /// The rows of the cube of the facts, over all grouping sets of the schema, whose keys a pattern matches, in key order.
    /// The only error is that memory ran out, or numbers to count the facts with.
    pub fn slice(&self, pattern: &Pattern) -> Result<Vec<Row>, AllocError>
        ensures { IfOk result (λ rows. (facts : List Fact) → IsCubeOfAll facts self.now →
            AreRowsWhere (matches pattern.now) self.now.schema.grouping_sets
            (length self.now.schema.dimensions) self.now.schema.aggregates facts rows.items) }
    {
        let wanted = pattern.wanted();
        if wanted.len() != self.texts.len() {
            return Ok(Vec::new(self.alloc));
        }
        let wants = wants_of(self.alloc, self, wanted)?;
        self.rows_where(&wants)
    }

    /// The row of a key with ALL in a dimension, counted from 0; `None` exactly where that is no cell of the cube of the
    /// facts, as where its grouping set isn't one of the schema's. The only error is that memory ran out, or numbers to
    /// count the facts with.
    pub fn roll_up(&self, key: &Key, dim: usize) -> Result<Option<Row>, AllocError>
        requires dim { dim < length self.now.schema.dimensions }
        requires width { length key.now.coords ≡ length self.now.schema.dimensions }
        ensures { IfOk result (λ row. (facts : List Fact) → IsCubeOfAll facts self.now →
            IsRowOver self.now.schema.grouping_sets (length self.now.schema.dimensions)
            self.now.schema.aggregates facts (rolled_up dim key.now) row) }
    {
        let above = rolled_up(self.alloc, key, dim)?;
        let coords = above.coords.as_slice();
        let wants = wants_below(self.alloc, self, coords, coords.len())?;
        let mut rows = self.rows_where(&wants)?;
        Ok(rows.pop())
    }

    /// The rows of the cube of the facts whose keys drill down from a key along a dimension, counted from 0: ALL there is
    /// replaced by a value or null. They come in key order.
    ///
    /// The error is `NotRolled` exactly where the key isn't ALL in the dimension, else `NotGrouped` where the key's
    /// grouping set with the dimension isn't one of the schema's, else `Memory`, also where numbers to count the facts with
    /// run out.
    pub fn drill_down(&self, key: &Key, dim: usize) -> Result<Vec<Row>, QueryFault>
        requires dim { dim < length self.now.schema.dimensions }
        requires width { length key.now.coords ≡ length self.now.schema.dimensions }
        ensures { GivesUnless (drill_fault self.now.schema.grouping_sets dim key.now)
            (λ rows. (facts : List Fact) → IsCubeOfAll facts self.now →
            AreRowsWhere (drills_down dim key.now) self.now.schema.grouping_sets
            (length self.now.schema.dimensions) self.now.schema.aggregates facts rows.items) result }
    {
        if let Some(fault) = self.schema.drill_fault(key, dim) {
            return Err(fault);
        }
        let rows = self.rows_under(key, dim)?;
        Ok(rows)
    }

    // The rows of the keys that drill down from a key along a dimension.
    fn rows_under(&self, key: &Key, dim: usize) -> Result<Vec<Row>, AllocError>
        requires dim { dim < length self.now.schema.dimensions }
        requires width { length key.now.coords ≡ length self.now.schema.dimensions }
        requires rolled { is_all_at key.now dim ≡ true }
        ensures { IfOk result (λ rows. (facts : List Fact) → IsCubeOfAll facts self.now →
            AreRowsWhere (drills_down dim key.now) self.now.schema.grouping_sets
            (length self.now.schema.dimensions) self.now.schema.aggregates facts rows.items) }
    {
        let wants = wants_below(self.alloc, self, key.coords.as_slice(), dim)?;
        self.rows_where(&wants)
    }

    // The rows of the cells whose codes are wanted.
    fn rows_where(&self, wants: &[Want]) -> Result<Vec<Row>, AllocError>
        requires { length wants.now ≤ 8 }
        ensures { IfOk result (λ rows. (test : Key → Bool) →
            AreWantsOf self.now.dictionaries test wants.now →
            (facts : List Fact) → IsCubeOfAll facts self.now →
            AreRowsWhere test self.now.schema.grouping_sets (length self.now.schema.dimensions)
            self.now.schema.aggregates facts rows.items) }
    {
        let sets = sets_where(self.alloc, wants, self.schema.grouping_sets())?;
        let rows = Vec::new(self.alloc);
        let mut wanted = WantedRows {
            cells: self,
            wants,
            rows,
        };
        self.walk_sets(&sets, &mut wanted)?;
        Ok(wanted.rows)
    }

    // The row of a cell.
    fn row_at(&self, codes: &Codes, cell: &Cell<N>) -> Result<Row, AllocError>
        requires { length cell.now.bags ≡ length self.now.schema.measures }
        ensures { IfOk result (IsRowOf self.now.schema.aggregates
            (key_at self.now.dictionaries codes.now.codes, cell.now)) }
    {
        let key = key_in(self.alloc, &self.texts, codes)?;
        row_of(self.alloc, self.schema.aggregates(), key, cell)
    }
}

/// Rows to which a walk adds that of each cell whose codes are wanted.
#[derive(Drop)]
pub struct WantedRows<'c, N: Numbers> {
    cells: &'c FinestCells<N>,
    wants: &'c [Want],
    rows: Vec<Row>,
}

impl<'c, N: Numbers> TakesCells<N> for WantedRows<'c, N> {
    ghost use Rattle.cube_cells.specs.FinestRows.{TakesWanted};

    ghost takes = { TakesWanted };

    fn take_cell(&mut self, keys: &[Codes], cell: &Cell<N>) -> Result<(), AllocError> {
        if cell.measures() != self.cells.schema().measures().len() {
            return Ok(());
        }
        for codes in keys {
            put_if_wanted(&mut self.rows, self.cells, self.wants, codes, cell)?;
        }
        Ok(())
    }
}

// Puts the row of a cell last if its codes are wanted.
fn put_if_wanted<N: Numbers>(
    rows: &mut Vec<Row>,
    cells: &FinestCells<N>,
    wants: &[Want],
    codes: &Codes,
    cell: &Cell<N>,
) -> Result<(), AllocError>
    requires { length cell.now.bags ≡ length cells.now.schema.measures }
    ensures { OnOk result (AddsWanted cells.now wants.now ((codes.now, cell.now) ∷ []) rows.old.items rows.new.items) }
{
    if !are_wanted(wants, &codes.codes) {
        return Ok(());
    }
    let row = cells.row_at(codes, cell)?;
    rows.push(row)?;
    Ok(())
}

// The key of codes of dimensions with these texts.
fn key_in(alloc: Global, texts: &[SortedTexts], codes: &Codes) -> Result<Key, AllocError>
    requires { length texts.now ≤ 8 }
    ensures { IfOk result (λ key. key ≡ key_at texts.now codes.now.codes) }
{
    let mut coords = Vec::with_capacity(alloc, texts.len())?;
    for (place, one) in texts.iter().enumerate() {
        coords.push(one.coord_ref_at(codes.codes[place]))?;
    }
    Key::new(alloc, &coords)
}

// The grouping sets in which codes that are wanted can be, in their order.
fn sets_where(alloc: Global, wants: &[Want], sets: &[u8]) -> Result<Vec<u8>, AllocError>
    ensures { IfOk result (λ found. found.items ≡ filter (can_be_of wants.now) sets.now) }
{
    let mut found = Vec::with_capacity(alloc, sets.len())?;
    for set in sets {
        push_kept(&mut found, *set, can_be_of(wants, *set))?;
    }
    Ok(found)
}

// Whether codes of a grouping set can be wanted.
fn can_be_of(wants: &[Want], set: u8) -> bool
    ensures { result ≡ can_be_of wants.now set }
{
    let Some((want, others)) = wants.split_first() else {
        return true;
    };
    can_be_grouped(want, set % 2 == 1) && can_be_of(others, set / 2)
}

// Whether a code of a dimension that is grouped, or isn't, can be wanted.
fn can_be_grouped(want: &Want, is_grouped: bool) -> bool
    ensures { result ≡ can_be_grouped want.now is_grouped }
{
    match want {
        Want::Any => true,
        Want::Code(wanted) => (*wanted != ALL) == is_grouped,
        Want::Not(unwanted) => *unwanted != ALL || is_grouped,
    }
}
