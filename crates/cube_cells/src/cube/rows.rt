//! The rows of a cube, in key order.
ghost use Rattle.std.specs.Prelude.{◌≡◌, ◌≤◌, ◌++◌, Bool, true, false, List, IfOk, OnOk, IsTrue, length, map, filter, All};
ghost use Rattle.std.specs.Cmp.Lexicographic.{slice_cmp};
ghost use Rattle.std.specs.List.Sorted.{IsPermutation, IsSortedBy};
ghost use Rattle.std.specs.Ordering.{nat_cmp, is_lt};
ghost use Rattle.cube_core.specs.Cube.{AreRowsOver};
ghost use Rattle.cube_core.specs.Order.{key_cmp};
ghost use Rattle.cube_core.specs.declared.fact.Fact.{Fact};
ghost use Rattle.cube_core.specs.declared.key.Key.{Key};
ghost use Rattle.cube_core.specs.declared.key.Row.{Row};
ghost use Rattle.cube_cells.specs.Codes.{are_codes, key_at, IsDictionary};
ghost use Rattle.cube_cells.specs.Coded.{decoded};
ghost use Rattle.cube_cells.specs.Cube.{IsCubeOf};
ghost use Rattle.cube_cells.specs.Levels.{cells_of};
ghost use Rattle.cube_cells.specs.Places.{ArePlacesOf};
ghost use Rattle.cube_cells.specs.Ranks.{ranks_of};
ghost use Rattle.cube_cells.specs.Rows.{AreRowsInOrder, AreRowsOf, AreWantsOf, is_wanted_code, are_wanted_codes};

use super::Cube;
use super::codes::Codes;
use super::dictionary::{Dictionary, compare_keys};
use super::levels::{Cells, Level};
use super::ordered::{OrderedCells, Place};
use super::ranks::{Ranks, ranks_of, ranks_of_all};
use crate::cell::Cell;
use cube_core::Row;
use std::alloc::{AllocError, Global};

/// What is wanted of the code of a dimension.
#[derive(Clone, Copy)]
pub enum Want {
    Any,
    Code(u32),
    Not(u32),
}

impl Cube {
    /// The rows of all cells in key order: dimension by dimension, texts by their bytes, then null, then ALL.
    pub fn rows(&self) -> Result<Vec<Row>, AllocError>
        ensures rows { IfOk result (λ rows.
            AreRowsOf (λ key. true) self.now.schema.aggregates self.now.cells rows.items) }
        ensures cube { IfOk result (λ rows. (facts : List Fact) → IsCubeOf self.now facts →
            AreRowsOver self.now.sets (length self.now.schema.dimensions)
            self.now.schema.aggregates facts rows.items) }
    {
        self.rows_where(&[])
    }

    /// The cells in the order of their keys, for rows that are made one at a time. The only error is that memory ran out.
    pub fn ordered(&self) -> Result<OrderedCells<'_>, AllocError>
        ensures rows { IfOk result (λ ordered. (rows : List Row) → AreRowsInOrder ordered rows →
            AreRowsOf (λ key. true) self.now.schema.aggregates self.now.cells rows) }
        ensures cube { IfOk result (λ ordered. (rows : List Row) → AreRowsInOrder ordered rows →
            (facts : List Fact) → IsCubeOf self.now facts →
            AreRowsOver self.now.sets (length self.now.schema.dimensions)
            self.now.schema.aggregates facts rows) }
        ensures aggregates { IfOk result (λ ordered.
            ordered.aggregates ≡ self.now.schema.aggregates) }
    {
        self.ordered_where(&[])
    }

    /// The rows of the cells whose codes are wanted, where these are few: no text is looked at but theirs.
    pub(super) fn few_rows_where(&self, wants: &[Want]) -> Result<Vec<Row>, AllocError>
        ensures { IfOk result (λ rows. (test : Key → Bool) →
            AreWantsOf self.now.dictionaries test wants.now →
            AreRowsOf test self.now.schema.aggregates self.now.cells rows.items) }
    {
        let places = few_places_in_order(self.alloc, &self.dictionaries, &self.levels, wants)?;
        let aggregates = self.schema.aggregates();
        OrderedCells::of(self.alloc, aggregates, &self.dictionaries, &places)?.rows()
    }

    /// The rows of the cells whose codes are wanted.
    pub(super) fn rows_where(&self, wants: &[Want]) -> Result<Vec<Row>, AllocError>
        ensures { IfOk result (λ rows. (test : Key → Bool) →
            AreWantsOf self.now.dictionaries test wants.now →
            AreRowsOf test self.now.schema.aggregates self.now.cells rows.items) }
    {
        self.ordered_where(wants)?.rows()
    }

    // The cells whose codes are wanted, in the order of their keys.
    fn ordered_where(&self, wants: &[Want]) -> Result<OrderedCells<'_>, AllocError>
        ensures rows { IfOk result (λ ordered. (test : Key → Bool) →
            AreWantsOf self.now.dictionaries test wants.now →
            (rows : List Row) → AreRowsInOrder ordered rows →
            AreRowsOf test self.now.schema.aggregates self.now.cells rows) }
        ensures aggregates { IfOk result (λ ordered.
            ordered.aggregates ≡ self.now.schema.aggregates) }
    {
        let ranks = ranks_of_all(self.alloc, &self.dictionaries)?;
        let places = places_in_order(self.alloc, &ranks, &self.levels, wants)?;
        OrderedCells::of(
            self.alloc,
            self.schema.aggregates(),
            &self.dictionaries,
            &places,
        )
    }
}

// The cells whose codes are wanted, by their keys.
fn few_places_in_order<'c>(
    alloc: Global,
    dictionaries: &[Dictionary],
    levels: &'c [Level],
    wants: &[Want],
) -> Result<Vec<Place<'c>>, AllocError>
    ensures cells { IfOk result (λ places. IsPermutation
        (filter (λ cell. are_wanted_codes wants.now cell.0.codes) (cells_of levels.now))
        (map (λ place. (place.codes.now, place.cell.now)) places.items)) }
    ensures order { IfOk result (λ places. IsSortedBy (λ a b. is_lt (key_cmp
        (key_at dictionaries.now a.codes.now.codes)
        (key_at dictionaries.now b.codes.now.codes))) places.items) }
{
    let mut places = places_of(alloc, &[], levels, wants)?;
    places.sort_unstable_by(|a, b| {
        compare_keys(dictionaries, &a.codes.codes, dictionaries, &b.codes.codes)
    });
    Ok(places)
}

// The cells whose codes are wanted, by the ranks of their keys.
fn places_in_order<'c>(
    alloc: Global,
    ranks: &[Ranks],
    levels: &'c [Level],
    wants: &[Want],
) -> Result<Vec<Place<'c>>, AllocError>
    requires ranks { length ranks.now ≤ 8 }
    ensures cells { IfOk result (λ places. IsPermutation
        (filter (λ cell. are_wanted_codes wants.now cell.0.codes) (cells_of levels.now))
        (map (λ place. (place.codes.now, place.cell.now)) places.items)) }
    ensures ranks { IfOk result (λ places.
        All (λ place. place.ranks ≡ ranks_of ranks.now place.codes.now.codes) places.items) }
    ensures order { IfOk result (λ places.
        IsSortedBy (λ a b. is_lt (slice_cmp nat_cmp a.ranks b.ranks)) places.items) }
{
    let mut places = places_of(alloc, ranks, levels, wants)?;
    places.sort_unstable_by(|a, b| a.ranks.cmp(&b.ranks));
    Ok(places)
}

// The cells whose codes are wanted.
fn places_of<'c>(
    alloc: Global,
    ranks: &[Ranks],
    levels: &'c [Level],
    wants: &[Want],
) -> Result<Vec<Place<'c>>, AllocError>
    requires { length ranks.now ≤ 8 }
    ensures { IfOk result (λ places. ArePlacesOf ranks.now wants.now (cells_of levels.now) places.items) }
{
    let mut places = Vec::new(alloc);
    for level in levels {
        push_places(&mut places, ranks, &level.cells, wants)?;
    }
    Ok(places)
}

// Puts the cells of a table whose codes are wanted at the end.
fn push_places<'c>(
    places: &mut Vec<Place<'c>>,
    ranks: &[Ranks],
    cells: &'c Cells,
    wants: &[Want],
) -> Result<(), AllocError>
    requires { length ranks.now ≤ 8 }
    ensures cells { OnOk result
        (map (λ place. (place.codes.now, place.cell.now)) places.new.items
        ≡ map (λ place. (place.codes.now, place.cell.now)) places.old.items
        ++ filter (λ cell. are_wanted_codes wants.now cell.0.codes) cells.now.entries) }
    ensures ranks { OnOk result
        (All (λ place. place.ranks ≡ ranks_of ranks.now place.codes.now.codes) places.old.items →
        All (λ place. place.ranks ≡ ranks_of ranks.now place.codes.now.codes) places.new.items) }
{
    for (codes, cell) in cells {
        if are_wanted(wants, &codes.codes) {
            let ranks = ranks_of(ranks, codes);
            places.push(Place { ranks, codes, cell })?;
        }
    }
    Ok(())
}

/// Whether each code is wanted, as far as both lists go.
pub fn are_wanted(wants: &[Want], codes: &[u32]) -> bool
    ensures { result ≡ are_wanted_codes wants.now codes.now }
{
    let Some((want, other_wants)) = wants.split_first() else {
        return true;
    };
    let Some((code, other_codes)) = codes.split_first() else {
        return true;
    };
    is_wanted(want, *code) && are_wanted(other_wants, other_codes)
}

fn is_wanted(want: &Want, code: u32) -> bool
    ensures { result ≡ is_wanted_code want.now code }
{
    match want {
        Want::Any => true,
        Want::Code(wanted) => code == *wanted,
        Want::Not(unwanted) => code != *unwanted,
    }
}
