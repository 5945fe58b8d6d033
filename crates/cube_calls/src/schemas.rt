//! Calls of a schema: `show` (all that it says), `place DIM`, `keeps CELL`, `cell PATTERN` (its coordinates) and
//! `matches PATTERN CELL`.
use crate::columns::{measures_of, push_name};
use crate::questions::{key_of, place_of};
use crate::script::{Printout, words_of};
use anyhow::{Result, bail};
use cube_core::{Coord, Pattern, QueryFault, Schema, Text};
use std::alloc::{AllocError, Global};

/// Does the calls on a schema.
pub fn run(alloc: Global, schema: &Schema, calls: &str, out: &mut Printout) -> Result<()> {
    for call in calls.lines() {
        out.next_line();
        obey(alloc, schema, call, out)?;
    }
    Ok(())
}

fn obey(alloc: Global, schema: &Schema, call: &str, out: &mut Printout) -> Result<()> {
    let answered = match words_of(call) {
        ("show", "") => show(alloc, schema, &mut out.text),
        ("place", name) => out.answer_or(place_of(schema, name)),
        ("keeps", word) => out.answer_or(keeps(alloc, schema, word)),
        ("cell", word) => out.answer_lines(cell(alloc, schema, word)),
        ("matches", words) => out.answer_or(matches(alloc, schema, words)),
        _ => bail!("no call of a schema"),
    };
    Ok(answered?)
}

fn keeps(alloc: Global, schema: &Schema, word: &str) -> Result<bool, QueryFault> {
    Ok(schema.keeps(&key_of(alloc, schema, word)?))
}

fn matches(alloc: Global, schema: &Schema, words: &str) -> Result<bool, QueryFault> {
    let (pattern, word) = words_of(words);
    let pattern = Pattern::parse(alloc, schema, pattern)?;
    Ok(pattern.matches(&key_of(alloc, schema, word)?))
}

// A line for each coordinate of the cell.
fn cell(alloc: Global, schema: &Schema, word: &str) -> Result<String, QueryFault> {
    let mut text = String::new(alloc);
    let key = key_of(alloc, schema, word)?;
    push_coords(&mut text, key.coords.as_slice())?;
    Ok(text)
}

fn push_coords(text: &mut String, coords: &[Coord]) -> Result<(), AllocError> {
    for coord in coords {
        match coord {
            Coord::Text(name) => write!(text, "={}\n", name.as_str())?,
            Coord::Null => text.push_str("\\N\n")?,
            Coord::All => text.push_str("\\A\n")?,
        }
    }
    Ok(())
}

fn show(alloc: Global, schema: &Schema, text: &mut String) -> Result<(), AllocError> {
    push_names(text, "dimensions", schema.cube_dimensions())?;
    push_measures(alloc, text, schema)?;
    push_texts(text, schema.counted_texts())?;
    push_names(text, "aggregates", schema.aggregate_texts())?;
    push_sets(text, schema.grouping_sets())?;
    let (max_records, version) = (schema.max_records(), schema.version());
    write!(text, "max_records {max_records}\nversion {version}\n")
}

// A line with all measures, in the order of feeds.
fn push_measures(alloc: Global, text: &mut String, schema: &Schema) -> Result<(), AllocError> {
    text.push_str("measures")?;
    for column in &measures_of(alloc, schema)? {
        text.push_str(" ")?;
        push_name(text, schema, *column)?;
    }
    text.push_str("\n")
}

// A line with the measures that are texts, if there are any.
fn push_texts(text: &mut String, names: &[Text]) -> Result<(), AllocError> {
    if names.is_empty() {
        return Ok(());
    }
    push_names(text, "texts", names)
}

fn push_sets(text: &mut String, sets: &[u8]) -> Result<(), AllocError> {
    text.push_str("sets")?;
    for set in sets {
        write!(text, " {set}")?;
    }
    text.push_str("\n")
}

fn push_names(text: &mut String, title: &str, names: &[Text]) -> Result<(), AllocError> {
    text.push_str(title)?;
    for name in names {
        write!(text, " {}", name.as_str())?;
    }
    text.push_str("\n")
}
