//! Calls of a cube: `add FACT`, `remove FACT`, `gather FACT`, `fill` (with all facts that were gathered), and the
//! questions. The facts are as the cube counts them: a text that is counted is a number in them, behind the measures.
ghost use Rattle.std.specs.Prelude.{◌≡◌, [], OnOk};

use crate::facts::fact_of;
use crate::fills::fill;
use crate::questions::ask;
use crate::script::{Printout, words_of};
use anyhow::{Result, ensure};
use cube_cells::Cube;
use cube_core::{Fact, Schema};
use std::alloc::Global;

/// Does the calls on a cube of a part of the schema's sets.
pub fn run(
    alloc: Global,
    schema: &Schema,
    (part, of): (u32, u32),
    calls: &str,
    out: &mut Printout,
) -> Result<()> {
    ensure!(part < of, "no such part");
    ensure!(of <= 8, "more than eight parts");
    let mut cube = Cube::new_part(alloc, schema, part, of)?;
    let schema = schema.cube_schema(alloc)?;
    let mut gathered = Vec::new(alloc);
    obey_all(alloc, &schema, &mut cube, &mut gathered, calls, out)
}

fn obey_all(
    alloc: Global,
    schema: &Schema,
    cube: &mut Cube,
    gathered: &mut Vec<Fact>,
    calls: &str,
    out: &mut Printout,
) -> Result<()>
    requires schema { cube.old.schema ≡ schema.now }
    requires plain { schema.now.text_places ≡ [] }
{
    for call in calls.lines() {
        out.next_line();
        obey(alloc, schema, cube, gathered, call, out)?;
    }
    Ok(())
}

fn obey(
    alloc: Global,
    schema: &Schema,
    cube: &mut Cube,
    gathered: &mut Vec<Fact>,
    call: &str,
    out: &mut Printout,
) -> Result<()>
    requires schema { cube.old.schema ≡ schema.now }
    requires plain { schema.now.text_places ≡ [] }
    ensures { OnOk result (cube.new.schema ≡ cube.old.schema) }
{
    match words_of(call) {
        ("add", fields) => add_or_again(alloc, schema, cube, fields),
        ("remove", fields) => remove(alloc, schema, cube, fields, out),
        ("gather", fields) => gather(alloc, schema, gathered, fields),
        ("fill", "") => fill_or_again(schema, cube, gathered),
        _ => ask(alloc, schema, cube, call, out),
    }
}

// Adds a fact, and once more where memory ran out.
fn add_or_again(alloc: Global, schema: &Schema, cube: &mut Cube, fields: &str) -> Result<()>
    requires { cube.old.schema ≡ schema.now }
    ensures { cube.new.schema ≡ cube.old.schema }
{
    let fact = fact_of(alloc, schema, fields)?;
    match add(schema, cube, &fact) {
        Ok(()) => Ok(()),
        Err(_) => add(schema, cube, &fact),
    }
}

// Adds a fact to those with which the cube is filled.
fn gather(alloc: Global, schema: &Schema, gathered: &mut Vec<Fact>, fields: &str) -> Result<()> {
    gathered.push(fact_of(alloc, schema, fields)?)?;
    Ok(())
}

// Fills a cube, and once more where memory ran out.
fn fill_or_again(schema: &Schema, cube: &mut Cube, facts: &[Fact]) -> Result<()>
    requires { cube.old.schema ≡ schema.now }
    ensures { cube.new.schema ≡ cube.old.schema }
{
    match fill(schema, cube, facts) {
        Ok(()) => Ok(()),
        Err(_) => fill(schema, cube, facts),
    }
}

fn add(schema: &Schema, cube: &mut Cube, fact: &Fact) -> Result<()>
    requires { cube.old.schema ≡ schema.now }
    ensures { cube.new.schema ≡ cube.old.schema }
{
    ensure!(schema.fits(fact), "a fact that doesn't fit");
    ensure!(cube.facts() < u64::MAX, "too many facts");
    cube.add(fact)?;
    Ok(())
}

// Removes a fact that is held.
fn remove(
    alloc: Global,
    schema: &Schema,
    cube: &mut Cube,
    fields: &str,
    out: &mut Printout,
) -> Result<()>
    ensures { cube.new.schema ≡ cube.old.schema }
{
    let fact = fact_of(alloc, schema, fields)?;
    if cube.holds(&fact) {
        cube.remove(&fact);
        return Ok(());
    }
    drop(fact);
    Ok(out.answer("not held")?)
}
