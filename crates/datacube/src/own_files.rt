//! Files of people's own, whose schema is made of the first of them.
ghost use Rattle.std.specs.Prelude.{◌≡◌, ◌≤◌, length, vec_len, IfOk, IfSome};
ghost use Rattle.cube_core.specs.Layout.{IsRecordBound};
ghost use Rattle.cube_core.specs.Shard.{IsShard};
ghost use Rattle.cube_console.specs.CommandLine.{TableHasRoom};

use crate::reads::{Reads, read_so};
use crate::terms::terms_of;
use crate::views::{told_of, view_of};
use crate::watch::Watch;
use crate::why::{say_columns, says_why};
use crate::{drawn_key, inputs_among, open_feed, settings_of, tell_refused};
use cube_console::{Counts, FeedReader, Phase, Progress, SchemaWords, TableWords};
use cube_core::{Schema, SchemaFault};
use cube_files::{Asked, GuessFault, SAMPLE_BYTES, schema_text};
use cube_lines::write_whole;
use cube_tool::RunFault;
use cube_tool::command::{Failure, Note, Question, Status, ask, explain, read_schema};
use std::alloc::Global;
use std::fs::File;
use std::io::{Chain, Cursor, ErrorKind, Read, Stderr};
use std::mem;
use std::sync::Wait;
use std::thread::Threads;
use std::time::Clock;

/// What there is to say of files of which no schema is made.
const OWN_FILE_NOTES: [Note; 1] = [Note {
    code: "no columns",
    about: "program",
    means: "`table` or `schema` finds no schema of its first file: there is no dimension, or --by or --of names what can't be read. The message says what is wrong.",
    mend: "Name the columns of the header that are dimensions with --by and those that are measures with --of, each once.",
    example: "datacube table --by city,when:7 --of price sales.csv",
}];

/// A file, with the bytes of it that were looked at before the rest.
type Kept = Chain<Cursor<Vec<u8>>, File>;

/// The first bytes of a file, and the file, which goes on behind them.
#[derive(Drop)]
struct Begun {
    bytes: Vec<u8>,
    file: File,
}

/// Writes the schema that is made of a file.
pub(crate) fn write_schema(rt: &HostRuntime, words: &SchemaWords) -> Result<Status, Failure> {
    let begun = begin(rt, words.file)?;
    let asked = Asked {
        by: words.by,
        of: words.of,
    };
    match made_text(rt.alloc(), &begun.bytes, asked) {
        Ok(text) => {
            write_whole(&mut rt.stdout(), text.as_bytes())?;
            Ok(Status::Done)
        }
        Err(fault) => told(rt, fault, words.file, &begun.bytes, words.why),
    }
}

/// Says what a code of files without a schema means, or what all of them do.
pub(crate) fn explain_own_file(rt: &HostRuntime, code: Option<&str>) -> Result<Status, Failure> {
    explain(rt.alloc(), &OWN_FILE_NOTES, code, &mut rt.stdout())
}

/// Prints the cube of files under the schema that is made of the first one.
pub(crate) fn print_table<T: Threads + Wait + Clock + Sync>(
    rt: &HostRuntime,
    threads: &T,
    words: &TableWords,
    reads: Reads,
    progress: &Progress<'_, T, Stderr>,
) -> Result<Status, Failure>
    requires room { TableHasRoom words.now }
    requires shard { IsShard reads.shard }
    requires max_record { IfSome reads.max_record IsRecordBound }
{
    if words.files.len() > 64 {
        return Err(Failure::TooManyFeeds);
    }
    if inputs_among("", &words.files) > 1 {
        return Err(Failure::InputTaken);
    }
    let first = words.files[0];
    let begun = begin(rt, first)?;
    let asked = Asked {
        by: words.by,
        of: words.of,
    };
    match made_text(rt.alloc(), &begun.bytes, asked) {
        Ok(text) => {
            let schema = read_schema(rt.alloc(), text.as_bytes())?;
            let schema = read_so(schema, reads).with_hash_key(drawn_key(rt)?);
            print_under(rt, threads, words, &schema, reads, begun, progress)
        }
        Err(fault) => told(rt, fault, first, &begun.bytes, words.why),
    }
}

/// The schema of the files of `table`, made again of the first one.
pub(crate) fn own_schema(rt: &HostRuntime, words: &TableWords) -> Option<Schema> {
    let begun = begin(rt, words.files.first()?).ok()?;
    let asked = Asked {
        by: words.by,
        of: words.of,
    };
    let text = made_text(rt.alloc(), &begun.bytes, asked).ok()?;
    read_schema(rt.alloc(), text.as_bytes()).ok()
}

/// Prints the cube of files under a schema; the first one is begun.
fn print_under<T: Threads + Wait + Clock + Sync>(
    rt: &HostRuntime,
    threads: &T,
    words: &TableWords,
    schema: &Schema,
    reads: Reads,
    begun: Begun,
    progress: &Progress<'_, T, Stderr>,
) -> Result<Status, Failure>
    requires room { TableHasRoom words.now }
    requires files { length words.now.files.items ≤ 64 }
{
    let terms = terms_of(rt, schema, &words.conditions, words.strict, reads.max_cells)?;
    let feeds = open_files(rt, &words.files, begun, progress.counts())?;
    let settings = settings_of(threads, words.ring, words.builders, words.threads);
    progress.begin(Phase::Reading { feeds: feeds.len() });
    let watch = Watch { progress };
    let out = &mut view_of(rt, words.view, schema, progress)?;
    let (alloc, question) = (rt.alloc(), Question::Cube);
    match ask(
        threads, alloc, schema, feeds, &settings, &question, &terms, &watch, out,
    ) {
        Ok((status, fed)) => {
            if status == Status::LinesRefused {
                tell_refused(rt, true, schema, &words.files, &fed, progress);
            }
            // The process ends after this, so what was taken isn't taken apart.
            mem::forget(fed);
            Ok(status)
        }
        Err(failure) => Err(told_of(failure, out)),
    }
}

/// The files, opened in their order, of which the first one is begun.
fn open_files<'c>(
    rt: &HostRuntime,
    paths: &[&str],
    begun: Begun,
    counts: Option<&'c Counts>,
) -> Result<Vec<FeedReader<'c, Kept>>, Failure>
    requires { length paths.now ≤ 64 }
    ensures { IfOk result (λ files. vec_len files ≡ length paths.now) }
{
    let mut files = Vec::new(rt.alloc());
    let mut first = Some(begun);
    for path in paths {
        let begun = match first.take() {
            Some(begun) => begun,
            None => Begun {
                bytes: Vec::new(rt.alloc()),
                file: open_feed(rt, path, files.len() as u32 + 1)?,
            },
        };
        let kept = Cursor::new(begun.bytes).chain(begun.file);
        if files.push(FeedReader::new(kept, counts)).is_err() {
            return Err(Failure::Run(RunFault::Memory));
        }
    }
    Ok(files)
}

/// Opens the first file, and reads as much of it as is looked at, and one byte more, which tells whether there is more.
fn begin(rt: &HostRuntime, path: &str) -> Result<Begun, Failure> {
    let mut file = open_feed(rt, path, 1)?;
    let mut bytes = Vec::new(rt.alloc());
    match file
        .by_ref()
        .take(SAMPLE_BYTES as u64 + 1)
        .read_to_end(&mut bytes)
    {
        Ok(_) => Ok(Begun { bytes, file }),
        Err(error) if error.kind() == ErrorKind::OutOfMemory => {
            Err(Failure::Schema(SchemaFault::Memory))
        }
        Err(_) => Err(Failure::FeedUnreadable { source: 1 }),
    }
}

/// The text of the schema of a file that begins with these bytes.
fn made_text(alloc: Global, bytes: &[u8], asked: Asked) -> Result<String, GuessFault> {
    match bytes.get(..SAMPLE_BYTES) {
        Some(sample) if sample.len() < bytes.len() => schema_text(alloc, sample, false, asked),
        _ => schema_text(alloc, bytes, true, asked),
    }
}

/// Tells why there is no schema of a file, and what there is to do, where that is wanted.
fn told(
    rt: &HostRuntime,
    fault: GuessFault,
    path: &str,
    begin: &[u8],
    is_wanted: bool,
) -> Result<Status, Failure> {
    match fault {
        GuessFault::Memory => Err(Failure::Schema(SchemaFault::Memory)),
        fault => {
            let _ = rt.eprintln(fault);
            if is_wanted || says_why(rt) {
                say_columns(rt, path, begin);
            }
            Ok(Status::WrongWords)
        }
    }
}
