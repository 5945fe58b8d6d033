//! Runs: from the bytes of feeds to the printed cube.
ghost use Rattle.std.specs.Prelude.{◌≡◌, ◌≤◌, length, map, vec_len, IfOk, IfErr};
ghost use Rattle.cube_build.specs.Builder.{StandsAt};
ghost use Rattle.cube_tool.specs.Answering.{HasTaken};
ghost use Rattle.cube_tool.specs.Run.{ExplainsPlainRun, ExplainsRun, IsTextOf, Leaves, OfFeeds, StandsOver, Wrote};

use crate::answers::{has_builder, write_cube, write_plain_cube};
use crate::fault::RunFault;
use crate::question::Question;
use cube_build::{Builder, Built, Gate, OpenGate, Settings, build, build_plain};
use cube_core::Schema;
use std::alloc::Global;
use std::io::{Read, Write};
use std::sync::Wait;
use std::thread::Threads;

/// Takes every item of the feeds of 1 to 64 sources, each read on a thread of its own, computes the cube of the facts
/// that are present in the end, and writes its text.
///
/// On a fault nothing was written, but on `Write`, where the first `sent` bytes of the text went out. The faults are
/// those of [`build`], and `Full` also where a growth was refused in sorting or printing.
pub fn run<T: Threads + Wait + Sync, R: Read + Drop + Send, G: Gate + Sync, W: Write>(
    rt: &T,
    alloc: Global,
    schema: &Schema,
    readers: Vec<R>,
    settings: &Settings,
    gate: &G,
    out: &mut W,
) -> Result<Built, RunFault>
    requires { (1 ≤ vec_len readers) × (vec_len readers ≤ 64) }
    ensures ok { IfOk result (λ built. OfFeeds schema.now (map R.Read.remaining readers.items) (λ feeds.
        Wrote (IsTextOf Question.Cube schema.now feeds) (W.contents out.old) (W.contents out.new)
        × HasTaken schema.now settings.now.builders feeds built)) }
    ensures err { IfErr result (λ fault.
        Leaves (ExplainsRun schema.now (map R.Read.remaining readers.items)) Question.Cube schema.now
        (map R.Read.remaining readers.items) fault (W.contents out.old) (W.contents out.new)) }
{
    let built = build(rt, alloc, schema, readers, settings, gate)?;
    has_builder(&built);
    write_cube(alloc, schema, &built, &OpenGate, out)?;
    Ok(built)
}

/// Takes every item of at most 64 feeds, source after source, computes the cube of the facts that are present in
/// the end, over all grouping sets of the schema, and writes its text, all on the caller's thread.
///
/// On a fault nothing was written, but on `Write`, where the first `sent` bytes of the text went out. `Full` is out of
/// memory in building, filling, sorting or printing; a feed at fault that was met before is named.
pub fn run_plain<R: Read + Drop, W: Write>(
    alloc: Global,
    schema: &Schema,
    readers: Vec<R>,
    out: &mut W,
) -> Result<Builder, RunFault>
    requires { vec_len readers ≤ 64 }
    ensures ok { IfOk result (λ builder. OfFeeds schema.now (map R.Read.remaining readers.items) (λ feeds.
        Wrote (IsTextOf Question.Cube schema.now feeds) (W.contents out.old) (W.contents out.new)
        × StandsOver (StandsAt builder) feeds)) }
    ensures schema { IfOk result (λ builder. builder.ledger.schema ≡ schema.now) }
    ensures sources { IfOk result (λ builder. length builder.ledger.accounts ≡ vec_len readers) }
    ensures sets { IfOk result (λ builder. builder.cube.sets ≡ schema.now.grouping_sets) }
    ensures err { IfErr result (λ fault.
        Leaves (ExplainsPlainRun schema.now (map R.Read.remaining readers.items)) Question.Cube schema.now
        (map R.Read.remaining readers.items) fault (W.contents out.old) (W.contents out.new)) }
{
    let builder = build_plain(alloc, schema, readers)?;
    write_plain_cube(alloc, schema, &builder, out)?;
    Ok(builder)
}
