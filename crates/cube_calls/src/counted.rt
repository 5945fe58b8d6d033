//! Calls of two multisets: `add N`, `remove N`, `holds N`, `shrink`, `order`, `show`, `in_order`, `different`, `at_place N`, `merge`
//! (adds the other's numbers) and `swap` (the other is asked from then on).
use crate::script::{Printout, words_of};
use crate::text::push_held;
use anyhow::{Result, bail, ensure};
use cube_cells::Counted;
use std::alloc::{AllocError, Global};
use std::mem::swap;

/// Does the calls on two multisets.
pub fn run(alloc: Global, calls: &str, out: &mut Printout) -> Result<()> {
    let mut values = Counted::new(alloc);
    let mut other = Counted::new(alloc);
    obey_all(&mut values, &mut other, calls, out)
}

fn obey_all(
    values: &mut Counted,
    other: &mut Counted,
    calls: &str,
    out: &mut Printout,
) -> Result<()> {
    for call in calls.lines() {
        out.next_line();
        obey(values, other, call, out)?;
    }
    Ok(())
}

fn obey(values: &mut Counted, other: &mut Counted, call: &str, out: &mut Printout) -> Result<()> {
    match words_of(call) {
        (verb, "") => obey_verb(values, other, verb, out),
        ("at_place", place) => answer_at_place(values, place.parse()?, out),
        (verb, value) => obey_with(values, verb, value.parse()?, out),
    }
}

// A call with a number.
fn obey_with(values: &mut Counted, verb: &str, value: i64, out: &mut Printout) -> Result<()> {
    match verb {
        "add" => add_or_again(values, value)?,
        "remove" => out.answer(values.remove(value))?,
        "holds" => out.answer(values.holds(value))?,
        _ => bail!("no call of a multiset"),
    }
    Ok(())
}

// A call of one word.
fn obey_verb(
    values: &mut Counted,
    other: &mut Counted,
    verb: &str,
    out: &mut Printout,
) -> Result<()> {
    match verb {
        "shrink" => values.shrink_to_fit(),
        "order" => values.bring_in_order(),
        "show" => show(values, out)?,
        "in_order" => show_in_order(values, out)?,
        "different" => out.answer(values.different()?)?,
        "merge" => merge(values, other)?,
        "swap" => swap(values, other),
        _ => bail!("no call of a multiset"),
    }
    Ok(())
}

// Adds a number, and once more where memory ran out.
fn add_or_again(values: &mut Counted, value: i64) -> Result<()> {
    match add(values, value) {
        Ok(()) => Ok(()),
        Err(_) => add(values, value),
    }
}

fn add(values: &mut Counted, value: i64) -> Result<()> {
    ensure!(values.len() < u64::MAX, "too many numbers");
    values.add(value)?;
    Ok(())
}

// Adds the other's numbers; where memory runs out, none may be left.
fn merge(values: &mut Counted, other: &Counted) -> Result<()> {
    ensure!(values.len() < 1 << 32, "too many numbers");
    ensure!(other.len() < 1 << 32, "too many numbers");
    if values.merge(other).is_err() {
        ensure!(values.is_empty(), "numbers are left");
        bail!("no memory for a merge");
    }
    Ok(())
}

// A line with how many numbers there are, the least and the greatest, and whether there is none.
fn show(values: &Counted, out: &mut Printout) -> Result<(), AllocError> {
    write!(out.text, "{}", values.len())?;
    if let Some(least) = values.least() {
        write!(out.text, " from {least}")?;
    }
    if let Some(greatest) = values.greatest() {
        write!(out.text, " to {greatest}")?;
    }
    out.answer(if values.is_empty() { ", empty" } else { "" })
}

// A line with the numbers in order, each with how often it is held, as `-2*1 5*3`.
fn show_in_order(values: &Counted, out: &mut Printout) -> Result<(), AllocError> {
    let pairs = values.in_order()?;
    push_held(&mut out.text, pairs.as_slice())?;
    out.answer("")
}

// A line with the number at a place, which there is.
fn answer_at_place(values: &Counted, place: u64, out: &mut Printout) -> Result<()> {
    ensure!(1 <= place, "no such place");
    ensure!(place <= values.len(), "no such place");
    out.answer(values.at_place(place))?;
    Ok(())
}
