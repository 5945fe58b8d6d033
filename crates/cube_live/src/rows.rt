//! The texts of rows that questions are answered by.
ghost use Rattle.std.specs.Prelude.{◌≡◌, ◌<◌, [], ◌∷◌, length, IfOk};
ghost use Rattle.cube_core.specs.Layout.{cube_schema};
ghost use Rattle.cube_core.specs.Printed.{IsPrinted};
ghost use Rattle.cube_core.specs.Query.{matches, rolled_up};
ghost use Rattle.cube_build.specs.Joined.{AnswersIn};
ghost use Rattle.cube_ledger.specs.Ledger.{all_facts};
ghost use Rattle.cube_live.specs.Live.{CanAsk, CanAskOver};
ghost use Rattle.cube_live.specs.Shows.{AsksRows, IsTextWhere, asks_for, is_key};

use crate::request::Question;
use cube_build::{AsksCube, DrillDown, Parted, ordered_parts, rows_of_parts};
use cube_cells::{Cube, row_of};
use cube_core::{Key, Pattern, QueryFault, Row, Schema};
use cube_text::{print_cells, print_rows};
use std::alloc::{AllocError, Global};

/// The printed cube of the facts in all books. The only error is that memory ran out.
pub fn cube_text(alloc: Global, schema: &Schema, parted: &Parted) -> Result<Vec<u8>, AllocError>
    requires { parted.now.schema ≡ schema.now }
    ensures { IfOk result (λ text.
        IsPrinted schema.now (all_facts parted.now.accounts) text.items) }
{
    let Some(parts) = parted.parts() else {
        return Err(AllocError);
    };
    let cells = ordered_parts(parts)?;
    print_cells(alloc, schema, &cells)
}

/// The rows that a question asks for, as text: those of a slice without an open dimension and of a roll-up by a look-up in
/// each part. The only error is that memory ran out where there is such a drill-down.
pub fn rows_text(
    alloc: Global,
    schema: &Schema,
    parted: &Parted,
    question: &Question,
) -> Result<Vec<u8>, AllocError>
    requires schema { parted.now.schema ≡ schema.now }
    requires rows { AsksRows question.now }
    requires can_ask { CanAsk schema.now question.now }
    ensures { IfOk result (λ text. IsTextWhere (asks_for question.now) schema.now
        (all_facts parted.now.accounts) text.items) }
{
    let Some(parts) = parted.parts() else {
        return Err(AllocError);
    };
    let asked = Asked {
        alloc,
        schema,
        question,
    };
    let rows = rows_of_parts(parts, &asked)?;
    print_rows(alloc, schema, &rows)
}

// A question of rows, asked of cubes.
#[derive(Drop)]
struct Asked<'q> {
    alloc: Global,
    schema: &'q Schema,
    question: &'q Question,
}

impl<'q> AsksCube for Asked<'q> {
    ghost test = { λ asked. asks_for asked.question.now };

    ghost can_ask = { λ asked s. (s ≡ cube_schema asked.schema.now)
        × AsksRows asked.question.now × CanAskOver (length s.dimensions) asked.question.now };

    fn rows_of(&self, cube: &Cube) -> Result<Vec<Row>, AllocError> {
        match self.question {
            Question::Slice(pattern) => slice_rows(self.alloc, self.schema, cube, pattern),
            Question::Drill(key, dim) => DrillDown { key, dim: *dim }.rows_of(cube),
            Question::RollUp(key, dim) => roll_up_rows(self.alloc, cube, key, *dim),
            Question::Print | Question::Refusals | Question::RefusalsAfter(_, _) | Question::Sync =>
                Err(AllocError),
        }
    }
}

// The rows whose keys a pattern matches.
fn slice_rows(
    alloc: Global,
    schema: &Schema,
    cube: &Cube,
    pattern: &Pattern,
) -> Result<Vec<Row>, AllocError>
    requires { cube.now.schema ≡ cube_schema schema.now }
    ensures { IfOk result (λ rows. AnswersIn (matches pattern.now) cube.now rows.items) }
{
    match pattern.cell(alloc) {
        Ok(key) => cell_rows(alloc, schema, cube, key),
        Err(QueryFault::Memory) => Err(AllocError),
        Err(_) => cube.slice(pattern),
    }
}

// The row of a key, if the key is a cell.
fn cell_rows(alloc: Global, schema: &Schema, cube: &Cube, key: Key) -> Result<Vec<Row>, AllocError>
    requires { cube.now.schema ≡ cube_schema schema.now }
    ensures { IfOk result (λ rows. AnswersIn (is_key key) cube.now rows.items) }
{
    let Some(cell) = cube.get(&key) else {
        return Ok(Vec::new(alloc));
    };
    let row = row_of(alloc, schema.aggregates(), key, cell)?;
    one_row(alloc, row)
}

// A list of one row.
fn one_row(alloc: Global, row: Row) -> Result<Vec<Row>, AllocError>
    ensures { IfOk result (λ rows. rows.items ≡ row ∷ []) }
{
    let mut rows = Vec::with_capacity(alloc, 1)?;
    rows.push(row)?;
    Ok(rows)
}

// The row of a key with ALL in a dimension, if that is a cell.
fn roll_up_rows(
    alloc: Global,
    cube: &Cube,
    key: &Key,
    dimension: usize,
) -> Result<Vec<Row>, AllocError>
    requires dimension { dimension < length cube.now.schema.dimensions }
    requires width { length key.now.coords ≡ length cube.now.schema.dimensions }
    ensures { IfOk result (λ rows.
        AnswersIn (is_key (rolled_up dimension key.now)) cube.now rows.items) }
{
    match cube.roll_up(key, dimension)? {
        Some(row) => one_row(alloc, row),
        None => Ok(Vec::new(alloc)),
    }
}
