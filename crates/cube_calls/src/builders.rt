//! Calls of a builder: `apply SOURCE NUMBER RECORD`, `foreign SOURCE NUMBER RECORD` (the item that the record is under
//! the foreign schema), `facts`, `sources`, `rows` (of its cube) and `refusals` (the source, the number and the code of
//! each).
use crate::facts::item_of;
use crate::questions::answer_rows;
use crate::script::{Printout, words_of};
use anyhow::{Result, bail, ensure};
use cube_build::Builder;
use cube_core::{Refusal, Schema};
use std::alloc::{AllocError, Global};

/// Does the calls on a builder of so many sources.
pub fn run(
    alloc: Global,
    schema: &Schema,
    foreign: &Schema,
    sources: u32,
    calls: &str,
    out: &mut Printout,
) -> Result<()> {
    ensure!(sources <= 64, "more than 64 sources");
    let mut builder = Builder::new(alloc, schema, sources)?;
    obey_all(alloc, schema, foreign, &mut builder, calls, out)
}

fn obey_all(
    alloc: Global,
    schema: &Schema,
    foreign: &Schema,
    builder: &mut Builder,
    calls: &str,
    out: &mut Printout,
) -> Result<()> {
    for call in calls.lines() {
        out.next_line();
        obey(alloc, schema, foreign, builder, call, out)?;
    }
    Ok(())
}

fn obey(
    alloc: Global,
    schema: &Schema,
    foreign: &Schema,
    builder: &mut Builder,
    call: &str,
    out: &mut Printout,
) -> Result<()> {
    match words_of(call) {
        ("apply", words) => apply(alloc, schema, builder, words),
        ("foreign", words) => apply(alloc, foreign, builder, words),
        (verb, "") => ask(alloc, builder, verb, out),
        _ => bail!("no call of a builder"),
    }
}

// A call of one word.
fn ask(alloc: Global, builder: &Builder, verb: &str, out: &mut Printout) -> Result<()> {
    let answered = match verb {
        "facts" => out.answer(builder.facts()),
        "sources" => out.answer(builder.sources()),
        "rows" => answer_rows(alloc, builder.cube(), out),
        "refusals" => answer_refusals(builder, out),
        _ => bail!("no call of a builder"),
    };
    Ok(answered?)
}

// Hands a builder the item of a record under a schema, and once more where memory ran out.
fn apply(alloc: Global, schema: &Schema, builder: &mut Builder, words: &str) -> Result<()> {
    let (source, words) = words_of(words);
    let (number, record) = words_of(words);
    let (source, number) = (source.parse()?, number.parse()?);
    if hand_over(alloc, schema, builder, source, number, record).is_err() {
        hand_over(alloc, schema, builder, source, number, record)?;
    }
    Ok(())
}

fn hand_over(
    alloc: Global,
    schema: &Schema,
    builder: &mut Builder,
    source: u32,
    number: u32,
    record: &str,
) -> Result<()> {
    ensure!(1 <= source && source <= builder.sources(), "no such source");
    ensure!(builder.facts() < u64::MAX, "too many facts");
    let mut item = item_of(alloc, schema, record)?;
    item.number = number;
    builder.apply(source, item)?;
    Ok(())
}

fn answer_refusals(builder: &Builder, out: &mut Printout) -> Result<(), AllocError> {
    for place in 0..builder.sources() {
        let source = place + 1;
        push_refusals(&mut out.text, source, builder.refusals(source))?;
    }
    Ok(())
}

fn push_refusals(text: &mut String, source: u32, refusals: &[Refusal]) -> Result<(), AllocError> {
    for refusal in refusals {
        write!(text, "{source},{},{}\n", refusal.number, refusal.code)?;
    }
    Ok(())
}
