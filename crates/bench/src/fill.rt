//! Times the building of a cube from feeds.
//!
//! With words, the file of a schema and those of its feeds, one for each source, it prints how many milliseconds of
//! processor time the ledger of the feeds takes, how many the builder with the filled cube, and how many a builder that
//! changes its cells at each item. With no word it checks a small case.
ghost use Rattle.std.specs.Prelude.{◌≤◌, ◌<◌, ◌+◌, ◌^◌, length, IsTrue};

use crate::measure::{cpu_nanos, nanos_since};
use anyhow::{Result, anyhow, ensure};
use cube_build::{Builder, build_plain};
use cube_core::Schema;
use cube_feed::Feed;
use cube_ledger::build_ledger;
use std::alloc::{AllocError, Global};
use std::rt::Files;
use std::time::CpuClock;
use std::{fs, mem};

const SCHEMA: &str =
    "dimensions = ['a', 'b']\nmeasures = ['m']\naggregates = ['count(*)', 'sum(m)', 'max(m)']\n";

const FEED: &str = "op,id,a,b,m\nI,1,x,y,5\nI,2,x,z,7\nI,3,w,z,1\nD,2\n";

const NANOS_IN_MILLISECOND: u128 = 1_000_000;

/// Times the building from a schema and feeds, or counts the facts and rows of a small cube.
pub fn run<R: Print + AllocGlobal + Files + CpuClock>(rt: &R, words: &[String]) -> Result<()> {
    let [schema, paths @ ..] = words else {
        return check(rt);
    };
    let schema = fs::read(rt, schema)?;
    let mut feeds = Vec::new(rt.alloc());
    for path in paths {
        feeds.push(fs::read(rt, path)?)?;
    }
    time_feeds(rt, &Schema::from_toml(rt.alloc(), &schema)?, &feeds)
}

// Prints how many facts and rows a small cube has.
fn check<R: Print + AllocGlobal>(rt: &R) -> Result<()> {
    let schema = Schema::from_toml(rt.alloc(), SCHEMA.as_bytes())?;
    let mut readers = Vec::new(rt.alloc());
    readers.push(FEED.as_bytes())?;
    let (facts, rows) = counts_of(rt.alloc(), &schema, readers)?;
    println!(rt; "{facts} facts, {rows} rows")?;
    Ok(())
}

// How many facts the feeds have, and how many rows the cube of these.
fn counts_of(alloc: Global, schema: &Schema, readers: Vec<&[u8]>) -> Result<(u64, usize)> {
    let builder = built_of(alloc, schema, readers)?;
    let rows = rows_of(&builder)?;
    Ok((builder.facts(), rows))
}

// A builder that has taken the feeds, whose cube is filled in the end.
fn built_of(alloc: Global, schema: &Schema, readers: Vec<&[u8]>) -> Result<Builder> {
    ensure!(readers.len() <= 64, "at most 64 feeds");
    match build_plain(alloc, schema, readers) {
        Ok(builder) => Ok(builder),
        Err(_) => Err(anyhow!("a feed at fault")),
    }
}

fn rows_of(builder: &Builder) -> Result<usize, AllocError> {
    let rows = builder.cube().rows()?;
    Ok(rows.len())
}

// Times the ledger of feeds alone, then the builder of the same feeds, whose cube is filled in the end, and then a
// builder that changes its cells at each item.
fn time_feeds<R: Print + AllocGlobal + CpuClock>(
    rt: &R,
    schema: &Schema,
    feeds: &[Vec<u8>],
) -> Result<()> {
    let ledger = time_ledger(rt, schema, feeds)?;
    let builder = time_builder(rt, schema, feeds)?;
    let changes = time_changes(rt, schema, feeds)?;
    println!(rt; "ledger {ledger} ms, builder {builder} ms, item by item {changes} ms")?;
    Ok(())
}

fn readers_of(alloc: Global, feeds: &[Vec<u8>]) -> Result<Vec<&[u8]>, AllocError> {
    let mut readers = Vec::with_capacity(alloc, feeds.len())?;
    for feed in feeds {
        readers.push(feed.as_slice())?;
    }
    Ok(readers)
}

fn time_ledger<R: AllocGlobal + CpuClock>(
    rt: &R,
    schema: &Schema,
    feeds: &[Vec<u8>],
) -> Result<u128> {
    let start = cpu_nanos(rt)?;
    let readers = readers_of(rt.alloc(), feeds)?;
    ensure!(readers.len() <= 64, "at most 64 feeds");
    let built = build_ledger(rt.alloc(), schema, readers);
    let nanos = nanos_since(rt, start)?;
    ensure!(built.is_ok(), "a feed at fault");
    Ok(nanos / NANOS_IN_MILLISECOND)
}

fn time_builder<R: Print + AllocGlobal + CpuClock>(
    rt: &R,
    schema: &Schema,
    feeds: &[Vec<u8>],
) -> Result<u128> {
    let start = cpu_nanos(rt)?;
    let facts = facts_of(rt.alloc(), schema, readers_of(rt.alloc(), feeds)?)?;
    let nanos = nanos_since(rt, start)?;
    println!(rt; "{facts} facts")?;
    Ok(nanos / NANOS_IN_MILLISECOND)
}

// How many facts the feeds have, by a builder that isn't taken apart, so that no time goes into that.
fn facts_of(alloc: Global, schema: &Schema, readers: Vec<&[u8]>) -> Result<u64> {
    let builder = built_of(alloc, schema, readers)?;
    let facts = builder.facts();
    mem::forget(builder);
    Ok(facts)
}

fn time_changes<R: AllocGlobal + CpuClock>(
    rt: &R,
    schema: &Schema,
    feeds: &[Vec<u8>],
) -> Result<u128> {
    let start = cpu_nanos(rt)?;
    take_feeds(rt.alloc(), schema, feeds)?;
    Ok(nanos_since(rt, start)? / NANOS_IN_MILLISECOND)
}

// Takes the feeds into a builder that isn't taken apart either.
fn take_feeds(alloc: Global, schema: &Schema, feeds: &[Vec<u8>]) -> Result<()> {
    ensure!(feeds.len() <= 64, "at most 64 feeds");
    let mut builder = Builder::new(alloc, schema, feeds.len() as u32)?;
    let taken = take_all(alloc, schema, feeds, &mut builder);
    mem::forget(builder);
    taken
}

// Takes the feeds one after the other, the first of source 1.
fn take_all(
    alloc: Global,
    schema: &Schema,
    feeds: &[Vec<u8>],
    builder: &mut Builder,
) -> Result<()> {
    let mut source = 0u32;
    for feed in feeds {
        source = source.saturating_add(1);
        take_feed(
            &mut Feed::new(alloc, schema, feed.as_slice()),
            source,
            builder,
        )?;
    }
    Ok(())
}

fn take_feed(feed: &mut Feed<'_, &[u8]>, source: u32, builder: &mut Builder) -> Result<()> {
    for _ in 0..u32::MAX {
        ensure!(
            may_take(builder, source),
            "another source, or too many facts"
        );
        match feed.next() {
            Ok(Some(item)) => builder.apply(source, item)?,
            Ok(None) => return Ok(()),
            Err(_) => return Err(anyhow!("a feed at fault")),
        }
    }
    Err(anyhow!("too many items"))
}

// Whether the source is one of a builder's, which has room for a fact.
fn may_take(builder: &Builder, source: u32) -> bool
    ensures first { IsTrue result → 1 ≤ source }
    ensures last { IsTrue result → source ≤ length builder.now.ledger.accounts }
    ensures room { IsTrue result → builder.now.cube.facts + 1 < 2 ^ 64 }
{
    1 <= source && source <= builder.sources() && builder.facts() < u64::MAX
}
