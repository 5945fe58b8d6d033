//! Builds and runs over feeds that are texts.
ghost use Rattle.std.specs.Prelude.{◌≡◌, ◌≤◌, length, vec_len, IfOk};

use cube_build::{Gate, Settings, build};
use cube_core::Schema;
use cube_tool::{RunFault, run, run_plain};
use std::alloc::{AllocError, Global};
use std::io::Write;
use std::sync::Wait;
use std::thread::Threads;

/// A reader of each text.
fn readers_of<'a>(alloc: Global, feeds: &[&'a str]) -> Result<Vec<&'a [u8]>, AllocError>
    ensures { IfOk result (λ readers. vec_len readers ≡ length feeds.now) }
{
    let mut readers = Vec::with_capacity(alloc, feeds.len())?;
    for feed in feeds {
        readers.push(feed.as_bytes())?;
    }
    Ok(readers)
}

/// Settings of this room and so many builders, and two threads.
pub fn settings_of(capacity: usize, builders: u32) -> Settings
    requires capacity { (1 ≤ capacity) × (capacity ≤ 65536) }
    requires builders { (1 ≤ builders) × (builders ≤ 8) }
{
    let Some(settings) = Settings::new(capacity, builders, 2) else {
        unreachable!()
    };
    settings
}

/// The fault of the build of the feeds that texts are, the first by source 1.
pub fn fault_of_build<'a, T: Threads + Wait + Sync, G: Gate + Sync>(
    rt: &T,
    alloc: Global,
    schema: &Schema,
    feeds: &[&'a str],
    capacity: usize,
    builders: u32,
    gate: &G,
) -> Option<RunFault>
    requires feeds { (1 ≤ length feeds.now) × (length feeds.now ≤ 64) }
    requires capacity { (1 ≤ capacity) × (capacity ≤ 65536) }
    requires builders { (1 ≤ builders) × (builders ≤ 8) }
{
    let Ok(readers) = readers_of(alloc, feeds) else {
        return Some(RunFault::Memory);
    };
    let settings = settings_of(capacity, builders);
    let built = build(rt, alloc, schema, readers, &settings, gate);
    built.err().map(RunFault::from)
}

/// Writes the printed cube of the feeds that texts are, the first by source 1.
pub fn run_texts<'a, T: Threads + Wait + Sync, G: Gate + Sync, W: Write>(
    rt: &T,
    alloc: Global,
    schema: &Schema,
    feeds: &[&'a str],
    capacity: usize,
    builders: u32,
    gate: &G,
    out: &mut W,
) -> Result<(), RunFault>
    requires feeds { (1 ≤ length feeds.now) × (length feeds.now ≤ 64) }
    requires capacity { (1 ≤ capacity) × (capacity ≤ 65536) }
    requires builders { (1 ≤ builders) × (builders ≤ 8) }
{
    let Ok(readers) = readers_of(alloc, feeds) else {
        return Err(RunFault::Memory);
    };
    let settings = settings_of(capacity, builders);
    run(rt, alloc, schema, readers, &settings, gate, out)?;
    Ok(())
}

/// What the run on one thread writes of the feeds that texts are.
pub fn plain_text<'a>(
    alloc: Global,
    schema: &Schema,
    feeds: &[&'a str],
) -> Result<Vec<u8>, RunFault>
    requires { length feeds.now ≤ 64 }
{
    let Ok(readers) = readers_of(alloc, feeds) else {
        return Err(RunFault::Memory);
    };
    let mut out = Vec::new(alloc);
    run_plain(alloc, schema, readers, &mut out)?;
    Ok(out)
}
