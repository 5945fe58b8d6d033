//! Calls of a cell: `add FACT`, `remove FACT`, `holds FACT`, `count`, and `answers M`: how many facts there are, and of
//! the measure at a place how many values, their sum, the least, the greatest and the mean. The facts are as a cube
//! counts them.
ghost use Rattle.std.specs.Prelude.{◌≡◌, ◌<◌, IfOk, OnOk, length};

use crate::facts::fact_of;
use crate::script::{Printout, words_of};
use crate::text::push_answers;
use anyhow::{Result, bail, ensure};
use cube_cells::Cell;
use cube_core::{Agg, Fact, Schema};
use std::alloc::{AllocError, Global};

/// Does the calls on a cell of the measures of the schema's cube.
pub fn run(alloc: Global, schema: &Schema, calls: &str, out: &mut Printout) -> Result<()> {
    let schema = schema.cube_schema(alloc)?;
    let mut cell = Cell::new(alloc, schema.measures().len())?;
    obey_all(alloc, &schema, &mut cell, calls, out)
}

fn obey_all(
    alloc: Global,
    schema: &Schema,
    cell: &mut Cell,
    calls: &str,
    out: &mut Printout,
) -> Result<()>
    requires { length cell.old.bags ≡ length schema.now.measures }
{
    for call in calls.lines() {
        out.next_line();
        obey(alloc, schema, cell, call, out)?;
    }
    Ok(())
}

fn obey(
    alloc: Global,
    schema: &Schema,
    cell: &mut Cell,
    call: &str,
    out: &mut Printout,
) -> Result<()>
    requires { length cell.old.bags ≡ length schema.now.measures }
    ensures { OnOk result (length cell.new.bags ≡ length cell.old.bags) }
{
    match words_of(call) {
        ("count", "") => Ok(out.answer(cell.count())?),
        ("answers", place) => answers(alloc, schema, cell, place, out),
        (verb, fields) => obey_with(alloc, schema, cell, verb, fields, out),
    }
}

// A call with a fact.
fn obey_with(
    alloc: Global,
    schema: &Schema,
    cell: &mut Cell,
    verb: &str,
    fields: &str,
    out: &mut Printout,
) -> Result<()>
    requires { length cell.old.bags ≡ length schema.now.measures }
    ensures { length cell.new.bags ≡ length cell.old.bags }
{
    let fact = measured(alloc, schema, fields)?;
    obey_fact(cell, verb, &fact, out)
}

fn obey_fact(cell: &mut Cell, verb: &str, fact: &Fact, out: &mut Printout) -> Result<()>
    requires { length fact.now.measures ≡ length cell.old.bags }
    ensures { length cell.new.bags ≡ length cell.old.bags }
{
    match verb {
        "add" => add_or_again(cell, fact),
        "remove" => remove(cell, fact, out),
        "holds" => answer_held(cell, fact, out),
        _ => bail!("no call of a cell"),
    }
}

// A fact with a value for each measure.
fn measured(alloc: Global, schema: &Schema, fields: &str) -> Result<Fact>
    ensures { IfOk result (λ fact. length fact.measures ≡ length schema.now.measures) }
{
    let fact = fact_of(alloc, schema, fields)?;
    ensure!(
        fact.measures.len() == schema.measures().len(),
        "other measures"
    );
    Ok(fact)
}

// Adds a fact, and once more where memory ran out.
fn add_or_again(cell: &mut Cell, fact: &Fact) -> Result<()>
    requires { length fact.now.measures ≡ length cell.old.bags }
    ensures { length cell.new.bags ≡ length cell.old.bags }
{
    match add(cell, fact) {
        Ok(()) => Ok(()),
        Err(_) => add(cell, fact),
    }
}

fn add(cell: &mut Cell, fact: &Fact) -> Result<()>
    requires { length fact.now.measures ≡ length cell.old.bags }
    ensures { length cell.new.bags ≡ length cell.old.bags }
{
    ensure!(cell.count() < u64::MAX, "too many facts");
    cell.plus(fact.measures.as_slice())?;
    Ok(())
}

fn remove(cell: &mut Cell, fact: &Fact, out: &mut Printout) -> Result<()>
    ensures { length cell.new.bags ≡ length cell.old.bags }
{
    if cell.holds(fact.measures.as_slice()) {
        cell.minus(fact.measures.as_slice());
    } else {
        out.answer("not held")?;
    }
    Ok(())
}

fn answer_held(cell: &Cell, fact: &Fact, out: &mut Printout) -> Result<()>
    requires { length fact.now.measures ≡ length cell.now.bags }
{
    out.answer(cell.holds(fact.measures.as_slice()))?;
    Ok(())
}

fn answers(
    alloc: Global,
    schema: &Schema,
    cell: &Cell,
    word: &str,
    out: &mut Printout,
) -> Result<()>
    requires { length cell.now.bags ≡ length schema.now.measures }
{
    let place = word.parse()?;
    ensure!(place < schema.measures().len(), "no such measure");
    answers_at(alloc, cell, place, out)?;
    Ok(())
}

fn answers_at(
    alloc: Global,
    cell: &Cell,
    place: usize,
    out: &mut Printout,
) -> Result<(), AllocError>
    requires { place < length cell.now.bags }
{
    write!(out.text, "{}", cell.count())?;
    let answers = [
        cell.answer(&Agg::Count(place)),
        cell.answer(&Agg::Sum(place)),
        cell.answer(&Agg::Min(place)),
        cell.answer(&Agg::Max(place)),
        cell.answer(&Agg::Avg(place)),
    ];
    push_answers(alloc, &mut out.text, &answers)?;
    out.answer("")
}
