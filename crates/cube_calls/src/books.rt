//! Calls of a book: `apply RECORD` (what went and what came, or the fault; no amendment), `get ID` and `len`.
use crate::columns::{Column, columns_of, push_value};
use crate::facts::item_of;
use crate::script::{Printout, words_of};
use anyhow::{Result, bail};
use cube_core::{Change, Fact, HashKey, Schema, Text};
use cube_ledger::{Book, BookFault, Delta};
use std::alloc::{AllocError, Global};

/// Does the calls on a book.
pub fn run(alloc: Global, schema: &Schema, calls: &str, out: &mut Printout) -> Result<()> {
    let columns = columns_of(alloc, schema)?;
    let mut book = Book::new(alloc, HashKey::Known);
    for call in calls.lines() {
        out.next_line();
        obey(alloc, schema, &columns, &mut book, call, out)?;
    }
    Ok(())
}

fn obey(
    alloc: Global,
    schema: &Schema,
    columns: &[Column],
    book: &mut Book,
    call: &str,
    out: &mut Printout,
) -> Result<()> {
    match words_of(call) {
        ("apply", record) => apply_record(alloc, schema, columns, book, record, out),
        ("get", id) => answer_found(alloc, columns, book, id, out),
        ("len", "") => Ok(out.answer(book.len())?),
        _ => bail!("no call of a book"),
    }
}

fn apply_record(
    alloc: Global,
    schema: &Schema,
    columns: &[Column],
    book: &mut Book,
    record: &str,
    out: &mut Printout,
) -> Result<()> {
    let item = item_of(alloc, schema, record)?;
    match item.what {
        Ok(Change::Amend { .. }) => bail!("an amendment"),
        Ok(change) => Ok(answer_applied(columns, book.apply(change), out)?),
        Err(fault) => Ok(out.answer(fault)?),
    }
}

fn answer_applied(
    columns: &[Column],
    applied: Result<Delta, BookFault>,
    out: &mut Printout,
) -> Result<(), AllocError> {
    match applied {
        Ok(delta) => answer_delta(columns, &delta, out),
        Err(fault) => out.answer(fault),
    }
}

fn answer_found(
    alloc: Global,
    columns: &[Column],
    book: &Book,
    id: &str,
    out: &mut Printout,
) -> Result<()> {
    let id = Text::from_str(alloc, id)?;
    Ok(answer_fact("", columns, book.get(&id), out)?)
}

fn answer_delta(columns: &[Column], delta: &Delta, out: &mut Printout) -> Result<(), AllocError> {
    answer_fact("gone ", columns, delta.gone.as_ref(), out)?;
    answer_fact("come ", columns, delta.come.as_ref(), out)
}

// A line of a fact's values behind a name.
fn answer_fact(
    name: &str,
    columns: &[Column],
    fact: Option<&Fact>,
    out: &mut Printout,
) -> Result<(), AllocError> {
    out.text.push_str(name)?;
    match fact {
        Some(fact) => answer_values(columns, fact, out),
        None => out.answer("none"),
    }
}

fn answer_values(columns: &[Column], fact: &Fact, out: &mut Printout) -> Result<(), AllocError> {
    for (place, column) in columns.iter().enumerate() {
        out.text.push_str(if place > 0 { "," } else { "" })?;
        push_value(&mut out.text, fact, *column)?;
    }
    out.answer("")
}
