//! Queries of a cube: slices, rolling a key up along a dimension, and drilling down from it (Gray et al. 1997).
ghost use Rattle.std.specs.Prelude.{◌≡◌, ◌<◌, [], true, List, IfOk, get_or, length};
ghost use Rattle.cube_core.specs.GroupingSet.{is_all_at};
ghost use Rattle.cube_core.specs.Query.{AreRowsWhere, matches, rolled_up, drills_down, drill_fault};
ghost use Rattle.cube_core.specs.declared.fact.Fact.{Fact};
ghost use Rattle.cube_cells.specs.Codes.{Dictionaries, IsCodeOf};
ghost use Rattle.cube_cells.specs.Cube.{IsCubeOf};
ghost use Rattle.cube_cells.specs.Rows.{IsRowAt, IsRowOver, AreRowsOf, GivesUnless, IsWantBelow, AreWantsBelow, IsWantMatched, AreWantsMatched};

use super::Cube;
use super::codes::ALL;
use super::ordered::row_of;
use super::rows::Want;
use cube_core::{Coord, Key, Pattern, QueryFault, Row, Sequence};
use std::alloc::{AllocError, Global};

/// What has texts with codes in some dimensions.
pub trait FindsCodes {
    // The texts of each dimension.
    ghost dictionaries: { Self → Dictionaries };

    /// The code of a coordinate in a dimension, counted from 0.
    fn code_in(&self, dimension: usize, coord: &Coord) -> u32
        requires { dimension < length (dictionaries self.now) }
        ensures { IsCodeOf (get_or (dictionaries self.now) dimension []) coord.now result };
}

impl FindsCodes for Cube {
    ghost dictionaries = { λ cube. cube.dictionaries };

    fn code_in(&self, dimension: usize, coord: &Coord) -> u32 {
        self.dictionaries[dimension].code_of_coord(coord)
    }
}

impl Cube {
    /// The rows of the cells whose keys a pattern matches, in key order. The only error is that memory ran out.
    pub fn slice(&self, pattern: &Pattern) -> Result<Vec<Row>, AllocError>
        ensures rows { IfOk result (λ rows. AreRowsOf (matches pattern.now)
            self.now.schema.aggregates self.now.cells rows.items) }
        ensures cube { IfOk result (λ rows. (facts : List Fact) → IsCubeOf self.now facts →
            AreRowsWhere (matches pattern.now) self.now.sets (length self.now.schema.dimensions)
            self.now.schema.aggregates facts rows.items) }
    {
        let wanted = pattern.wanted();
        if wanted.len() != self.dictionaries.len() {
            return Ok(Vec::new(self.alloc));
        }
        let wants = wants_of(self.alloc, self, wanted)?;
        self.rows_where(&wants)
    }

    /// The row of a key with ALL in a dimension, counted from 0; `None` exactly where that is no cell, as where its
    /// grouping set isn't kept. The only error is that memory ran out.
    pub fn roll_up(&self, key: &Key, dim: usize) -> Result<Option<Row>, AllocError>
        requires dim { dim < length self.now.schema.dimensions }
        requires width { length key.now.coords ≡ length self.now.schema.dimensions }
        ensures row { IfOk result
            (IsRowAt self.now.schema.aggregates self.now.cells (rolled_up dim key.now)) }
        ensures cube { IfOk result (λ row. (facts : List Fact) → IsCubeOf self.now facts →
            IsRowOver self.now.sets (length self.now.schema.dimensions)
            self.now.schema.aggregates facts (rolled_up dim key.now) row) }
    {
        let above = rolled_up(self.alloc, key, dim)?;
        let Some(cell) = self.get(&above) else {
            return Ok(None);
        };
        let row = row_of(self.alloc, self.schema.aggregates(), above, cell)?;
        Ok(Some(row))
    }

    /// The rows of the keys that drill down from a key along a dimension, counted from 0: ALL there is replaced by
    /// a value or null. They come in key order.
    ///
    /// The error is `NotRolled` exactly where the key isn't ALL in the dimension, else `NotGrouped` where the
    /// key's grouping set with the dimension isn't one of the schema's, else `Memory`. A set of another part gives
    /// no rows.
    pub fn drill_down(&self, key: &Key, dim: usize) -> Result<Vec<Row>, QueryFault>
        requires dim { dim < length self.now.schema.dimensions }
        requires width { length key.now.coords ≡ length self.now.schema.dimensions }
        ensures rows { GivesUnless (drill_fault self.now.schema.grouping_sets dim key.now)
            (λ rows. AreRowsOf (drills_down dim key.now)
            self.now.schema.aggregates self.now.cells rows.items) result }
        ensures cube { IfOk result (λ rows. (facts : List Fact) → IsCubeOf self.now facts →
            AreRowsWhere (drills_down dim key.now) self.now.sets (length self.now.schema.dimensions)
            self.now.schema.aggregates facts rows.items) }
    {
        if let Some(fault) = self.schema.drill_fault(key, dim) {
            return Err(fault);
        }
        let rows = self.rows_below(key, dim)?;
        Ok(rows)
    }

    // The rows of the keys that drill down from a key along a dimension.
    fn rows_below(&self, key: &Key, dim: usize) -> Result<Vec<Row>, AllocError>
        requires dim { dim < length self.now.schema.dimensions }
        requires width { length key.now.coords ≡ length self.now.schema.dimensions }
        requires rolled { is_all_at key.now dim ≡ true }
        ensures { IfOk result (λ rows. AreRowsOf (drills_down dim key.now)
            self.now.schema.aggregates self.now.cells rows.items) }
    {
        let wants = wants_below(self.alloc, self, key.coords.as_slice(), dim)?;
        self.few_rows_where(&wants)
    }
}

/// A copy of a key with ALL in a dimension.
pub(super) fn rolled_up(alloc: Global, key: &Key, dim: usize) -> Result<Key, AllocError>
    requires { dim < length key.now.coords }
    ensures { IfOk result (λ above. above ≡ rolled_up dim key.now) }
{
    let mut coords = key.copy(alloc)?.coords.into_vec();
    coords[dim] = Coord::All;
    Ok(Key {
        coords: Sequence::from_vec(coords),
    })
}

/// What is wanted of the keys that drill down from coordinates along a dimension; of their key itself where there is no such
/// dimension.
pub(super) fn wants_below<T: FindsCodes>(
    alloc: Global,
    cube: &T,
    coords: &[Coord],
    dim: usize,
) -> Result<Vec<Want>, AllocError>
    requires { length coords.now ≡ length (T.dictionaries cube.now) }
    ensures long { IfOk result (λ wants. length wants.items ≡ length (T.dictionaries cube.now)) }
    ensures wants { IfOk result
        (λ wants. AreWantsBelow (T.dictionaries cube.now) dim coords.now wants.items) }
{
    let mut wants = Vec::with_capacity(alloc, coords.len())?;
    for (place, coord) in coords.iter().enumerate() {
        wants.push(want_below(cube, place, coord, place == dim))?;
    }
    Ok(wants)
}

// Any but ALL in the open dimension, else the code of a coordinate alone.
fn want_below<T: FindsCodes>(cube: &T, dimension: usize, coord: &Coord, is_open: bool) -> Want
    requires { dimension < length (T.dictionaries cube.now) }
    ensures { IsWantBelow (get_or (T.dictionaries cube.now) dimension []) coord.now is_open result }
{
    if is_open {
        Want::Not(ALL)
    } else {
        Want::Code(cube.code_in(dimension, coord))
    }
}

/// What is wanted of the keys that a pattern matches.
pub(super) fn wants_of<T: FindsCodes>(
    alloc: Global,
    cube: &T,
    wanted: &[Option<Coord>],
) -> Result<Vec<Want>, AllocError>
    requires { length wanted.now ≡ length (T.dictionaries cube.now) }
    ensures long { IfOk result (λ wants. length wants.items ≡ length (T.dictionaries cube.now)) }
    ensures wants { IfOk result
        (λ wants. AreWantsMatched (T.dictionaries cube.now) wanted.now wants.items) }
{
    let mut wants = Vec::with_capacity(alloc, wanted.len())?;
    for (place, coord) in wanted.iter().enumerate() {
        wants.push(want_of(cube, place, coord))?;
    }
    Ok(wants)
}

// Any code where no coordinate is wanted, else the code of the coordinate alone.
fn want_of<T: FindsCodes>(cube: &T, dimension: usize, wanted: &Option<Coord>) -> Want
    requires { dimension < length (T.dictionaries cube.now) }
    ensures { IsWantMatched (get_or (T.dictionaries cube.now) dimension []) wanted.now result }
{
    match wanted {
        None => Want::Any,
        Some(coord) => Want::Code(cube.code_in(dimension, coord)),
    }
}
