//! What is said of codes.
ghost use Rattle.std.specs.Prelude.{◌≡◌, ◌≢◌, [], IfOk, IfSome, OnOk, option_map};
ghost use Rattle.cube_page.specs.Page.{IsSaid, code_in};

use cube_tool::command::{
    FEED_NOTES, Failure, LATER_NOTES, Note, RUN_NOTES, SCHEMA_NOTES, explain,
};
use std::alloc::{AllocError, Global};
use std::str;

/// What is said of the code that some bytes ask for, or of all codes where there is no byte: the text of the notes that have
/// it, of those that concern a page; nothing where none has it. The only error is that memory ran out.
pub(crate) fn explained(alloc: Global, code: &[u8]) -> Result<Option<Vec<u8>>, AllocError>
    ensures { IfOk result (λ said. IfSome said
        (λ text. IsSaid (code_in code.now) text.items × (text.items ≢ []))) }
{
    let Ok(code) = str::from_utf8(code) else {
        return Ok(None);
    };
    let text = all_said(alloc, code_in(code))?;
    Ok(unless_empty(text))
}

// The code that a text asks for; none where it is empty.
fn code_in(text: &str) -> Option<&str>
    ensures { option_map (λ code. code.now) result ≡ code_in text.now }
{
    if text.is_empty() { None } else { Some(text) }
}

// What was said, if there is a byte of it.
fn unless_empty(said: Vec<u8>) -> Option<Vec<u8>>
    ensures { IfSome result (λ text. (text.items ≡ said.items) × (text.items ≢ [])) }
{
    if said.is_empty() { None } else { Some(said) }
}

// What the tables of notes say that concern a page.
fn all_said(alloc: Global, code: Option<&str>) -> Result<Vec<u8>, AllocError>
    ensures { IfOk result (λ text. IsSaid (option_map (λ code. code.now) code.entry) text.items) }
{
    let mut text = Vec::new(alloc);
    add_of_schemas(alloc, code, &mut text)?;
    add_of_feeds(alloc, code, &mut text)?;
    add_of_runs(alloc, code, &mut text)?;
    add_of_later(alloc, code, &mut text)?;
    Ok(text)
}

// Adds what the notes on schemas say. (Each table has a function of its own: what a function names, its proof reads.)
fn add_of_schemas(alloc: Global, code: Option<&str>, text: &mut Vec<u8>) -> Result<(), AllocError>
    requires { IsSaid (option_map (λ code. code.now) code) text.old.items }
    ensures { OnOk result (IsSaid (option_map (λ code. code.now) code.entry) text.new.items) }
{
    add_notes(alloc, &SCHEMA_NOTES, code, text)
}

// Adds what the notes on lines, feeds, patterns and cells say.
fn add_of_feeds(alloc: Global, code: Option<&str>, text: &mut Vec<u8>) -> Result<(), AllocError>
    requires { IsSaid (option_map (λ code. code.now) code) text.old.items }
    ensures { OnOk result (IsSaid (option_map (λ code. code.now) code.entry) text.new.items) }
{
    add_notes(alloc, &FEED_NOTES, code, text)
}

// Adds what the notes on runs, refused lines and files say.
fn add_of_runs(alloc: Global, code: Option<&str>, text: &mut Vec<u8>) -> Result<(), AllocError>
    requires { IsSaid (option_map (λ code. code.now) code) text.old.items }
    ensures { OnOk result (IsSaid (option_map (λ code. code.now) code.entry) text.new.items) }
{
    add_notes(alloc, &RUN_NOTES, code, text)
}

// Adds what the notes on sessions and merges say.
fn add_of_later(alloc: Global, code: Option<&str>, text: &mut Vec<u8>) -> Result<(), AllocError>
    requires { IsSaid (option_map (λ code. code.now) code) text.old.items }
    ensures { OnOk result (IsSaid (option_map (λ code. code.now) code.entry) text.new.items) }
{
    add_notes(alloc, &LATER_NOTES, code, text)
}

// Adds what some notes say; nothing where none of them has the code.
fn add_notes(
    alloc: Global,
    notes: &[Note],
    code: Option<&str>,
    text: &mut Vec<u8>,
) -> Result<(), AllocError>
    requires { IsSaid (option_map (λ code. code.now) code) text.old.items }
    ensures { OnOk result (IsSaid (option_map (λ code. code.now) code.entry) text.new.items) }
{
    match explain(alloc, notes, code, text) {
        Ok(_) => Ok(()),
        Err(Failure::UnknownCode) => Ok(()),
        Err(_) => Err(AllocError),
    }
}
