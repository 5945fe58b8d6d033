//! The command that keeps a cube right: changes and questions in, replies out.
ghost use Rattle.std.specs.Prelude.{◌≡◌, ◌≤◌, map, option_map, vec_len, IfOk, IfErr, IfSome, OnOk};
ghost use Rattle.cube_core.specs.Records.{records_of};
ghost use Rattle.cube_live.specs.Serving.{Serves, ServingFails};
ghost use Rattle.cube_tool.specs.Run.{OfFeeds};
ghost use Rattle.cube_tool.specs.Session.{FailsToServe, ServesOver};

use crate::command::failure::Failure;
use crate::command::status::{Status, status_after};
use crate::reporter::Reporter;
use cube_build::{Gate, Settings};
use cube_core::Schema;
use cube_feed::RecordReader;
use cube_live::{Live, NeverRests, NoJournal, SessionFault, open, serve};
use std::alloc::Global;
use std::io::{Read, Write};
use std::sync::Wait;
use std::thread::Threads;

/// Takes at most 64 feeds, each read on a thread of its own, and then the records of the input, which has no header:
/// each is a change of a source, 1 to 64, or a question, whose reply is written and flushed before the next is read. The
/// watcher is the gate of the reading, and is told when the session begins.
///
/// The status tells whether a line of a feed or a change was refused. Where a feed is at fault nothing was written; where
/// the session failed the replies to the records before it went out, but where the writing failed: then the first bytes
/// of them, as many as the failure says.
pub fn live<
    T: Threads + Wait + Sync,
    R: Read + Drop + Send,
    G: Gate + Reporter + Sync,
    I: Read + Drop,
    W: Write,
>(
    rt: &T,
    alloc: Global,
    schema: &Schema,
    readers: Vec<R>,
    settings: &Settings,
    watcher: &G,
    input: I,
    out: &mut W,
) -> Result<Status, Failure>
    requires { vec_len readers ≤ 64 }
    ensures ok { IfOk result (λ status. OfFeeds schema.now (map R.Read.remaining readers.items) (λ feeds.
        IfSome (option_map records_of (I.remaining input)) (λ records. ServesOver schema.now feeds records status
        (W.contents out.old) (W.contents out.new)))) }
    ensures err { IfErr result (λ failure. FailsToServe schema.now (map R.Read.remaining readers.items)
        (option_map records_of (I.remaining input)) failure (W.contents out.old) (W.contents out.new)) }
{
    let mut live = open(rt, alloc, schema, readers, settings, watcher)?;
    watcher.begins_serving();
    serve_input(rt, alloc, &mut live, input, out)?;
    Ok(status_after(live.ledger()))
}

// Takes the records of an input, which has no header.
fn serve_input<T: Threads + Sync, I: Read + Drop, W: Write>(
    rt: &T,
    alloc: Global,
    live: &mut Live<'_>,
    input: I,
    out: &mut W,
) -> Result<(), SessionFault>
    ensures ok { OnOk result (IfSome (option_map records_of (I.remaining input)) (λ records.
        Serves live.old.schema records live.old live.new (W.contents out.old) (W.contents out.new))) }
    ensures err { IfErr result (λ fault. IfSome (option_map records_of (I.remaining input)) (λ records.
        ServingFails live.old.schema records fault live.old
        (W.contents out.old) (W.contents out.new))) }
    ensures schema { live.new.schema ≡ live.old.schema }
{
    let mut records = RecordReader::new(alloc, input, b',');
    serve(
        rt,
        alloc,
        live,
        &mut records,
        &mut NeverRests,
        &mut NoJournal,
        out,
    )
}
