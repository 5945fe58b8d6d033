//! What is answered to words that ask for nothing that can be done.
ghost use Rattle.std.specs.Prelude.{◌≡◌, ◌≢◌, ◌⊎◌, Ok};
ghost use Rattle.clap.specs.Words.{kind_of};
ghost use Rattle.clap.specs.declared.error.kind.ErrorKind.TheVariants as kind;
ghost use Rattle.cube_tool.specs.Answering.{ShowsText};

use crate::command::failure::Failure;
use crate::command::status::Status;
use crate::fault::RunFault;
use clap::Error;
use cube_lines::write_whole;
use std::alloc::Global;
use std::io::Write;

/// Writes the text of what `clap` answered: help and the version to `out`, and what it refused to `err`.
///
/// The bytes of the text aren't promised. Where it wasn't written whole, its first bytes went out, as many as the
/// failure says.
pub fn answer_words<O: Write, E: Write>(
    alloc: Global,
    error: &Error,
    out: &mut O,
    err: &mut E,
) -> Result<Status, Failure>
    ensures refused { (kind_of error.now ≢ kind.DisplayHelp) → (kind_of error.now ≢ kind.DisplayVersion) →
        (result ≡ Ok Status.WrongWords) × (O.contents out.new ≡ O.contents out.old) }
    ensures shown { (kind_of error.now ≡ kind.DisplayHelp) ⊎ (kind_of error.now ≡ kind.DisplayVersion) →
        ShowsText result (O.contents out.old) (O.contents out.new) × (E.contents err.new ≡ E.contents err.old) }
{
    if error.use_stderr() {
        let _ = write!(err, "{error}");
        return Ok(Status::WrongWords);
    }
    show(alloc, error, out)
}

// Writes the text of what `clap` answered.
fn show<O: Write>(alloc: Global, error: &Error, out: &mut O) -> Result<Status, Failure>
    ensures { ShowsText result (O.contents out.old) (O.contents out.new) }
{
    let Ok(text) = error.to_string(alloc) else {
        return Err(Failure::Run(RunFault::Full));
    };
    write_whole(out, text.as_bytes())?;
    Ok(Status::Done)
}
