//! Schema files, and the command that says whether one is right.
ghost use Rattle.std.specs.Prelude.{◌≡◌, ◌≢◌, ◌≤◌, ◌<◌, length, Ok, Err, IfOk, IfErr, IfSome};
ghost use Rattle.std.specs.Io.KnownBytes.{Appends};
ghost use Rattle.std.specs.IoError.{error_kind};
ghost use Rattle.cube_tool.specs.Command.{AnswersFile, CheckLeaves, IsReadFailure, IsRightFile, IsSchemaFailure, schema_limit, schema_ok_line};

use crate::command::failure::Failure;
use crate::command::status::Status;
use cube_core::{Schema, SchemaFault};
use cube_lines::write_whole;
use std::alloc::Global;
use std::io::{Error, ErrorKind, Read, Write};

/// The most bytes that a schema file may have.
const SCHEMA_LIMIT: usize = 1048576;

/// Says whether a schema file is right: then the line `ok` was written, and else nothing.
///
/// Where the line couldn't be written whole, its first bytes went out, as many as the failure says.
pub fn check<R: Read + Drop, W: Write>(
    alloc: Global,
    file: R,
    out: &mut W,
) -> Result<Status, Failure>
    ensures done { IfOk result (λ status. status ≡ Status.Done) }
    ensures right { IfOk result (λ _. IfSome (R.Read.remaining file) IsRightFile) }
    ensures written { IfOk result (λ _. Appends (W.contents out.old) (W.contents out.new) schema_ok_line) }
    ensures err { IfErr result (λ failure.
        CheckLeaves (R.Read.remaining file) failure (W.contents out.old) (W.contents out.new)) }
{
    drop(read_schema(alloc, file)?);
    write_whole(out, b"ok\n")?;
    Ok(Status::Done)
}

/// The schema in a file of at most 1048576 bytes.
pub fn read_schema<R: Read + Drop>(alloc: Global, file: R) -> Result<Schema, Failure>
    ensures bytes { IfSome (R.Read.remaining file) (λ bytes. AnswersFile bytes result) }
    ensures err { IfErr result IsSchemaFailure }
{
    let bytes = read_limited(alloc, file, SCHEMA_LIMIT)?;
    schema_in(alloc, &bytes)
}

/// The schema in the bytes of a file, which aren't too many.
#[tactic(auto, using(crate::proofs::SchemaFileLaws::schema_fault_answered))]
fn schema_in(alloc: Global, bytes: &[u8]) -> Result<Schema, Failure>
    requires { length bytes.now ≤ schema_limit }
    ensures answer { AnswersFile bytes.now result }
    ensures err { IfErr result IsSchemaFailure }
{
    match Schema::from_toml(alloc, bytes) {
        Ok(schema) => Ok(schema),
        Err(fault) => Err(Failure::Schema(fault)),
    }
}

/// All bytes of a file that has at most so many.
fn read_limited<R: Read + Drop>(alloc: Global, file: R, limit: usize) -> Result<Vec<u8>, Failure>
    requires { limit < usize.MAX }
    ensures all { IfOk result (λ bytes. IfSome (R.Read.remaining file) (λ known. bytes.items ≡ known)) }
    ensures limit { IfOk result (λ bytes. length bytes.items ≤ limit) }
    ensures err { IfErr result IsReadFailure }
{
    let mut bytes = Vec::new(alloc);
    let mut start = file.take(limit as u64 + 1);
    match start.read_to_end(&mut bytes) {
        Ok(_) => unless_longer(bytes, limit),
        Err(error) => Err(read_failure(&error)),
    }
}

// The bytes that were read, where there aren't more of them than so many.
fn unless_longer(bytes: Vec<u8>, limit: usize) -> Result<Vec<u8>, Failure>
    ensures kept { length bytes.items ≤ limit → result ≡ Ok bytes }
    ensures longer { limit < length bytes.items → result ≡ Err Failure.Unreadable }
{
    if bytes.len() > limit {
        return Err(Failure::Unreadable);
    }
    Ok(bytes)
}

// What an error of a reader is told as.
fn read_failure(error: &Error) -> Failure
    ensures memory { error_kind error.now ≡ ErrorKind.OutOfMemory → result ≡ Failure.Schema SchemaFault.Memory }
    ensures other { error_kind error.now ≢ ErrorKind.OutOfMemory → result ≡ Failure.Unreadable }
{
    match error.kind() {
        ErrorKind::OutOfMemory => Failure::Schema(SchemaFault::Memory),
        _ => Failure::Unreadable,
    }
}
