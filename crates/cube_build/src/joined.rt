//! The cells and the rows of all parts of a cube, in key order: what each part has, one part's after the other's, sorted.
ghost use Rattle.std.specs.Prelude.{◌≡◌, ◌<◌, Bool, List, IfOk, OnOk, length};
ghost use Rattle.std.specs.List.Sorted.{IsPermutation, IsSortedBy};
ghost use Rattle.std.specs.Ordering.{is_lt};
ghost use Rattle.cube_core.specs.Layout.{Layout};
ghost use Rattle.cube_core.specs.Order.{key_cmp};
ghost use Rattle.cube_core.specs.Query.{drills_down, matches, rolled_up};
ghost use Rattle.cube_core.specs.declared.key.Key.{Key as TheKey};
ghost use Rattle.cube_core.specs.declared.key.Row.{Row as TheRow};
ghost use Rattle.cube_cells.specs.Cube.{Lattice};
ghost use Rattle.cube_cells.specs.Rows.{AreRowsInOrder};
ghost use Rattle.cube_build.specs.Joined.{AnswersIn, AnswersInWhole, ArePartsOfOne, AreRowsOfWhole, EachSchema, HasCellsOfWhole, IsRowOfWhole, OrdersFirst};

use cube_cells::{Cube, OrderedCells};
use cube_core::{Key, Pattern, Row};
use std::alloc::AllocError;

/// What has a cube.
pub trait HoldsCube {
    ghost lattice: { Self → Lattice };

    /// Its cube.
    fn held(&self) -> &Cube
        ensures { result.now ≡ lattice self.now };
}

/// A question to a cube: that for its rows whose keys pass a test.
pub trait AsksCube {
    // Which keys pass.
    ghost test: { Self → TheKey → Bool };

    // A cube of this schema can be asked.
    ghost can_ask: { Self → Layout → Type 0 };

    /// The rows of a cube whose keys pass. The only error is that memory ran out.
    fn rows_of(&self, cube: &Cube) -> Result<Vec<Row>, AllocError>
        requires { can_ask self.now cube.now.schema }
        ensures { IfOk result (λ rows. AnswersIn (test self.now) cube.now rows.items) };
}

/// The question for the rows whose keys a pattern matches.
#[derive(Drop)]
pub struct Slice<'q> {
    pub pattern: &'q Pattern,
}

impl<'q> AsksCube for Slice<'q> {
    ghost test = { λ slice. matches slice.pattern.now };

    ghost can_ask = { λ _ _. Unit {0} };

    fn rows_of(&self, cube: &Cube) -> Result<Vec<Row>, AllocError> {
        cube.slice(self.pattern)
    }
}

/// The question for the rows that drill down from a key along a dimension, counted from 0.
#[derive(Drop)]
pub struct DrillDown<'q> {
    pub key: &'q Key,
    pub dim: usize,
}

impl<'q> AsksCube for DrillDown<'q> {
    ghost test = { λ drill. drills_down drill.dim drill.key.now };

    ghost can_ask = { λ drill s. (drill.dim < length s.dimensions)
        × (length drill.key.now.coords ≡ length s.dimensions) };

    fn rows_of(&self, cube: &Cube) -> Result<Vec<Row>, AllocError> {
        match cube.drill_down(self.key, self.dim) {
            Ok(rows) => Ok(rows),
            Err(_) => Err(AllocError),
        }
    }
}

/// The rows of all parts that a question is for, in key order. The only error is that memory ran out.
pub fn rows_of_parts<P: HoldsCube, Q: AsksCube>(
    parts: &[P],
    question: &Q,
) -> Result<Vec<Row>, AllocError>
    requires parts { ArePartsOfOne P.lattice parts.now }
    requires can_ask { EachSchema P.lattice (Q.can_ask question.now) parts.now }
    ensures { IfOk result (λ rows.
        AnswersInWhole P.lattice (Q.test question.now) parts.now rows.items) }
{
    let mut rows = question.rows_of(parts[0].held())?;
    if parts.len() == 1 {
        return Ok(rows);
    }
    for part in 1..parts.len() {
        rows.append(&mut question.rows_of(parts[part].held())?)?;
    }
    in_key_order(rows)
}

// The rows of several parts, each part's in key order and one after the other, in the key order of all. The only
// error is that memory ran out.
fn in_key_order(rows: Vec<Row>) -> Result<Vec<Row>, AllocError>
    ensures same { IfOk result (λ sorted. IsPermutation rows.items sorted.items) }
    ensures order { IfOk result (λ sorted.
        IsSortedBy (λ a b. is_lt (key_cmp a.key b.key)) sorted.items) }
{
    let mut rows = rows;
    rows.sort_by(|a, b| a.key.compare(&b.key))?;
    Ok(rows)
}

/// The row of a key with ALL in a dimension, counted from 0, by a look-up in each part; `None` exactly where that is no
/// cell of the whole cube. The only error is that memory ran out.
pub fn row_above<P: HoldsCube>(
    parts: &[P],
    key: &Key,
    dim: usize,
) -> Result<Option<Row>, AllocError>
    requires parts { ArePartsOfOne P.lattice parts.now }
    requires dim { EachSchema P.lattice (λ s. dim < length s.dimensions) parts.now }
    requires width { EachSchema P.lattice (λ s. length key.now.coords ≡ length s.dimensions) parts.now }
    ensures { IfOk result (IsRowOfWhole P.lattice (rolled_up dim key.now) parts.now) }
{
    for part in 0..parts.len() {
        if let Some(row) = parts[part].held().roll_up(key, dim)? {
            return Ok(Some(row));
        }
    }
    Ok(None)
}

/// How many cells all parts have. The only error is that numbers to count them with ran out.
pub fn count_parts<P: HoldsCube>(parts: &[P]) -> Result<u64, AllocError>
    ensures { IfOk result (HasCellsOfWhole P.lattice parts.now) }
{
    let mut number: u64 = 0;
    for part in 0..parts.len() {
        let Some(more) = number.checked_add(parts[part].held().count_cells()?) else {
            return Err(AllocError);
        };
        number = more;
    }
    Ok(number)
}

/// The cells of all parts in key order, for rows that are made one at a time. The only error is that memory ran out.
pub fn ordered_parts<P: HoldsCube>(parts: &[P]) -> Result<OrderedCells<'_>, AllocError>
    requires { ArePartsOfOne P.lattice parts.now }
    ensures { IfOk result (λ cells. (rows : List TheRow) → AreRowsInOrder cells rows →
        AreRowsOfWhole P.lattice parts.now rows) }
{
    let mut cells = parts[0].held().ordered()?;
    join_others(parts, &mut cells)?;
    Ok(cells)
}

// Puts the cells of the other parts behind those of the first, and all in key order.
fn join_others<'c, P: HoldsCube>(
    parts: &'c [P],
    cells: &mut OrderedCells<'c>,
) -> Result<(), AllocError>
    requires parts { ArePartsOfOne P.lattice parts.now }
    requires first { OrdersFirst P.lattice parts.now cells.old }
    ensures { OnOk result ((rows : List TheRow) → AreRowsInOrder cells.new rows →
        AreRowsOfWhole P.lattice parts.now rows) }
{
    if parts.len() == 1 {
        return Ok(());
    }
    for part in 1..parts.len() {
        cells.append(parts[part].held().ordered()?)?;
    }
    cells.sort()
}
