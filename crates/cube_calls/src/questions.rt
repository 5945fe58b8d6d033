//! Questions to a cube: `facts`, `rows`, `holds FACT`, `get CELL` (how many facts are in it), `slice PATTERN`,
//! `rollup DIM CELL`, `drill DIM CELL` and `code DIM TEXT`.
ghost use Rattle.std.specs.Prelude.{◌≡◌, ◌<◌, [], IfOk, length};
ghost use Rattle.cube_core.specs.Layout.{number_of_dimensions};

use crate::facts::fact_of;
use crate::script::{Printout, words_of};
use crate::text::text_of;
use anyhow::{Result, bail};
use cube_cells::{Cell, Cube};
use cube_core::{Key, Pattern, QueryFault, Row, Schema};
use std::alloc::{AllocError, Global};
use std::fmt::Display;

/// Asks a cube, whose own schema this is.
pub fn ask(
    alloc: Global,
    schema: &Schema,
    cube: &Cube,
    call: &str,
    out: &mut Printout,
) -> Result<()>
    requires schema { cube.now.schema ≡ schema.now }
    requires plain { schema.now.text_places ≡ [] }
{
    match words_of(call) {
        ("facts", "") => Ok(out.answer(cube.facts())?),
        ("rows", "") => Ok(answer_rows(alloc, cube, out)?),
        ("holds", fields) => answer_held(alloc, schema, cube, fields, out),
        (verb, words) => ask_for_lines(alloc, schema, cube, verb, words, out),
    }
}

// A question that is answered by lines, or by a fault.
fn ask_for_lines(
    alloc: Global,
    schema: &Schema,
    cube: &Cube,
    verb: &str,
    words: &str,
    out: &mut Printout,
) -> Result<()>
    requires schema { cube.now.schema ≡ schema.now }
    requires plain { schema.now.text_places ≡ [] }
{
    let lines = match verb {
        "get" => found(alloc, schema, cube, words),
        "slice" => sliced(alloc, schema, cube, words),
        "rollup" => rolled_up(alloc, schema, cube, words),
        "drill" => drilled(alloc, schema, cube, words),
        "code" => code_of(alloc, schema, cube, words),
        _ => bail!("no call of a cube"),
    };
    Ok(out.answer_lines(lines)?)
}

/// Prints the rows of a cube.
pub fn answer_rows(alloc: Global, cube: &Cube, out: &mut Printout) -> Result<(), AllocError> {
    let rows = cube.rows()?;
    let text = text_of(alloc, &rows)?;
    out.text.push_str(text.as_str())
}

fn answer_held(
    alloc: Global,
    schema: &Schema,
    cube: &Cube,
    fields: &str,
    out: &mut Printout,
) -> Result<()> {
    let is_held = cube.holds(&fact_of(alloc, schema, fields)?);
    Ok(out.answer(is_held)?)
}

fn found(alloc: Global, schema: &Schema, cube: &Cube, word: &str) -> Result<String, QueryFault> {
    let key = key_of(alloc, schema, word)?;
    Ok(line_of(alloc, cube.get(&key).map(Cell::count))?)
}

fn sliced(alloc: Global, schema: &Schema, cube: &Cube, word: &str) -> Result<String, QueryFault> {
    let pattern = Pattern::parse(alloc, schema, word)?;
    Ok(text_of(alloc, &cube.slice(&pattern)?)?)
}

fn drilled(alloc: Global, schema: &Schema, cube: &Cube, words: &str) -> Result<String, QueryFault>
    requires schema { cube.now.schema ≡ schema.now }
    requires plain { schema.now.text_places ≡ [] }
{
    let (key, place) = step_of(alloc, schema, words)?;
    Ok(text_of(alloc, &cube.drill_down(&key, place)?)?)
}

fn rolled_up(alloc: Global, schema: &Schema, cube: &Cube, words: &str) -> Result<String, QueryFault>
    requires schema { cube.now.schema ≡ schema.now }
    requires plain { schema.now.text_places ≡ [] }
{
    let (key, place) = step_of(alloc, schema, words)?;
    let row = cube.roll_up(&key, place)?;
    Ok(text_of_one(alloc, row)?)
}

// The line of a row, or one that says that there is none.
fn text_of_one(alloc: Global, row: Option<Row>) -> Result<String, AllocError> {
    match row {
        Some(row) => text_of(alloc, &[row]),
        None => String::from_str(alloc, "none\n"),
    }
}

fn code_of(alloc: Global, schema: &Schema, cube: &Cube, words: &str) -> Result<String, QueryFault>
    requires schema { cube.now.schema ≡ schema.now }
    requires plain { schema.now.text_places ≡ [] }
{
    let (name, text) = words_of(words);
    let place = place_of(schema, name)?;
    Ok(line_of(alloc, cube.code_of(place, text))?)
}

// A line with an answer, or one that says that there is none.
fn line_of<A: Display + Drop>(alloc: Global, answer: Option<A>) -> Result<String, AllocError> {
    match answer {
        Some(answer) => format!(in alloc; "{answer}\n"),
        None => String::from_str(alloc, "none\n"),
    }
}

// The cell and the place of the dimension that words name, the dimension first.
fn step_of(alloc: Global, schema: &Schema, words: &str) -> Result<(Key, usize), QueryFault>
    ensures key { IfOk result (λ step. length step.0.coords ≡ number_of_dimensions schema.now) }
    ensures place { IfOk result (λ step. step.1 < number_of_dimensions schema.now) }
{
    let (name, word) = words_of(words);
    let key = key_of(alloc, schema, word)?;
    let place = place_of(schema, name)?;
    Ok((key, place))
}

/// The key of the cell that a word spells.
pub fn key_of(alloc: Global, schema: &Schema, word: &str) -> Result<Key, QueryFault>
    ensures { IfOk result (λ key. length key.coords ≡ number_of_dimensions schema.now) }
{
    let key = Pattern::parse(alloc, schema, word)?.cell(alloc)?;
    if key.coords.len() != schema.number_of_dimensions() {
        return Err(QueryFault::Fields);
    }
    Ok(key)
}

/// The place of a dimension.
pub fn place_of(schema: &Schema, name: &str) -> Result<usize, QueryFault>
    ensures { IfOk result (λ place. place < number_of_dimensions schema.now) }
{
    let place = schema.dimension_of(name)?;
    if place >= schema.number_of_dimensions() {
        return Err(QueryFault::UnknownDimension);
    }
    Ok(place)
}
