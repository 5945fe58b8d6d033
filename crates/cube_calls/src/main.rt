//! Runs a script of calls of the library, which comes on standard input, and prints what they answer.
//!
//! The first word is the file of a schema, and the second that of a foreign one, whose items no feed of the first has;
//! without them both are the sample schema. The first line of the script says what the calls are of: `schema`, `cube`,
//! `part J N` (the cube of a part of the sets), `counted` (two multisets, of which one is asked), `cell`, `book` or
//! `builder N` (of so many sources). Each other line is a call; those that there are stand in the module of what they
//! are of. A fact is written as the fields of an insert are in a feed, and a fault is answered as its code.
//!
//! A call that adds something and finds no memory is made once more, so where one growth is refused in all, the answers
//! are those of a run with memory, if the call left everything as it was. A line that is no call ends the program with
//! status 1, and its number goes to standard error; so does running out of memory elsewhere.
#![tactic(auto)]

mod books;
mod builders;
mod cells;
mod columns;
mod counted;
mod cubes;
mod facts;
mod fills;
mod questions;
mod schemas;
mod script;
mod text;

use anyhow::{Result, bail, ensure};
use cube_core::Schema;
use script::{Printout, words_of};
use std::alloc::Global;
use std::io::Write;
use std::process::ExitCode;
use std::{env, fs, io};

fn main(rt: HostRuntime) -> ExitCode {
    let mut out = Printout::new(rt.alloc());
    let ran = run(&rt, &mut out);
    let printed = rt.stdout().write_all(out.text.as_bytes());
    if let Err(error) = ran {
        let line = out.line;
        let _ = eprintln!(rt; "line {line}: {error}");
        return ExitCode::from(1);
    }
    ExitCode::from(if printed.is_ok() { 0 } else { 1 })
}

fn run(rt: &HostRuntime, out: &mut Printout) -> Result<()> {
    let alloc = rt.alloc();
    let (schema, foreign) = schemas_of(rt)?;
    let script = io::read_to_string(alloc, rt.stdin())?;
    run_script(alloc, &schema, &foreign, script.as_str(), out)
}

fn run_script(
    alloc: Global,
    schema: &Schema,
    foreign: &Schema,
    script: &str,
    out: &mut Printout,
) -> Result<()> {
    let (first, calls) = script.split_once('\n').unwrap_or((script, ""));
    out.next_line();
    match words_of(first) {
        ("part", words) => cubes::run(alloc, schema, part_of(words)?, calls, out),
        ("builder", sources) => {
            builders::run(alloc, schema, foreign, sources.parse()?, calls, out)
        }
        (name, "") => run_calls(alloc, schema, name, calls, out),
        _ => bail!("nothing that calls are of"),
    }
}

// Does the calls on what a name alone says.
fn run_calls(
    alloc: Global,
    schema: &Schema,
    name: &str,
    calls: &str,
    out: &mut Printout,
) -> Result<()> {
    match name {
        "schema" => schemas::run(alloc, schema, calls, out),
        "cube" => cubes::run(alloc, schema, (0, 1), calls, out),
        "counted" => counted::run(alloc, calls, out),
        "cell" => cells::run(alloc, schema, calls, out),
        "book" => books::run(alloc, schema, calls, out),
        _ => bail!("nothing that calls are of"),
    }
}

// The number of a part and how many there are.
fn part_of(words: &str) -> Result<(u32, u32)> {
    let (part, of) = words_of(words);
    Ok((part.parse()?, of.parse()?))
}

// The schema, and the foreign one.
fn schemas_of(rt: &HostRuntime) -> Result<(Schema, Schema)> {
    let (path, foreign_path) = paths_of(rt)?;
    let schema = schema_of(rt, path)?;
    let foreign = schema_of(rt, foreign_path)?;
    Ok((schema, foreign))
}

// The words, of which there are at most two.
fn paths_of(rt: &HostRuntime) -> Result<(Option<String>, Option<String>)> {
    let mut words = env::args(rt)?;
    let _program = words.next();
    let paths = (words.next(), words.next());
    ensure!(words.next().is_none(), "more than two words");
    Ok(paths)
}

fn schema_of(rt: &HostRuntime, path: Option<String>) -> Result<Schema> {
    let Some(path) = path else {
        return Ok(Schema::sample(rt.alloc())?);
    };
    let document = fs::read(rt, &path)?;
    Ok(Schema::from_toml(rt.alloc(), &document)?)
}
