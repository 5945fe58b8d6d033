//! The command that says what codes mean.
ghost use Rattle.std.specs.Prelude.{◌≡◌, ◌++◌, Some, option_map, IfOk, IfErr, OnOk};
ghost use Rattle.std.specs.Io.KnownBytes.{Appends};
ghost use Rattle.cube_tool.specs.Explain.{ExplainLeaves, example_text, explained, line_text, note_text, has_code};

use crate::command::failure::Failure;
use crate::command::notes::Note;
use crate::command::status::Status;
use crate::fault::RunFault;
use cube_lines::write_whole;
use std::alloc::{AllocError, Global};
use std::io::Write;

/// Writes what a code means, or without one what all mean: the text of the notes that have the code.
///
/// The failure is that there is no such code, or that the text couldn't be made or written whole.
pub fn explain<W: Write>(
    alloc: Global,
    notes: &[Note],
    code: Option<&str>,
    out: &mut W,
) -> Result<Status, Failure>
    ensures done { IfOk result (λ status. status ≡ Status.Done) }
    ensures written { IfOk result (λ _. Appends (W.contents out.old) (W.contents out.new)
        (explained notes.now (option_map (λ text. text.now) code.entry))) }
    ensures err { IfErr result (λ failure. ExplainLeaves notes.now
        (option_map (λ text. text.now) code.entry) failure (W.contents out.old) (W.contents out.new)) }
{
    let Ok(text) = explained(alloc, notes, code) else {
        return Err(Failure::Run(RunFault::Full));
    };
    if text.is_empty() {
        return Err(Failure::UnknownCode);
    }
    write_whole(out, &text)?;
    Ok(Status::Done)
}

// The text of the notes that have a code, or of all.
fn explained(alloc: Global, notes: &[Note], code: Option<&str>) -> Result<Vec<u8>, AllocError>
    ensures { IfOk result (λ text.
        text.items ≡ explained notes.now (option_map (λ text. text.now) code.entry)) }
{
    let mut text = Vec::new(alloc);
    for note in notes {
        if has_code(note, code) {
            put_note(&mut text, note)?;
        }
    }
    Ok(text)
}

// Whether a note has the code that is asked for; each has it where none is.
fn has_code(note: &Note, code: Option<&str>) -> bool
    ensures { result ≡ has_code (option_map (λ text. text.now) code.entry) note.now }
{
    match code {
        Some(code) => note.code == code,
        None => true,
    }
}

// Adds a note's lines.
fn put_note(text: &mut Vec<u8>, note: &Note) -> Result<(), AllocError>
    ensures { OnOk result (text.new.items ≡ text.old.items ++ note_text note.now) }
{
    put_line(text, note.code, ": ", note.about)?;
    put_line(text, "  ", "means: ", note.means)?;
    put_line(text, "  ", "mend: ", note.mend)?;
    put_example(text, note.example)
}

// Adds the line of an example, where there is one.
fn put_example(text: &mut Vec<u8>, example: &str) -> Result<(), AllocError>
    ensures { OnOk result (text.new.items ≡ text.old.items ++ example_text example.now) }
{
    if example.is_empty() {
        return Ok(());
    }
    put_line(text, "  ", "example: ", example)
}

// Adds a line of three parts.
fn put_line(text: &mut Vec<u8>, start: &str, middle: &str, end: &str) -> Result<(), AllocError>
    ensures { OnOk result
        (text.new.items ≡ text.old.items ++ line_text start.now middle.now end.now) }
{
    text.extend_from_slice(start.as_bytes())?;
    text.extend_from_slice(middle.as_bytes())?;
    text.extend_from_slice(end.as_bytes())?;
    text.push(b'\n')?;
    Ok(())
}
