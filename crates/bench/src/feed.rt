//! Reads a generated feed of inserts through `Feed::next`, as a feed of version 1 and as one of version 2, and beside
//! it by the bare `csv` reader.
//!
//! Without a word it reads three inserts and prints what it counted. With a number of inserts it prints the processor
//! time of the best of five rounds of each, in records and bytes a second.
use crate::measure::{cpu_nanos, nanos_since};
use anyhow::{Context, Result, anyhow};
use csv::{ByteRecord, ReaderBuilder};
use cube_core::Schema;
use cube_feed::{Feed, FeedFault};
use std::alloc::{AllocError, Global};
use std::time::CpuClock;

const ROUNDS: u32 = 5;

// What was counted, and the processor time of the best round in nanoseconds.
#[derive(Clone, Copy)]
struct Measured {
    count: u64,
    nanos: u128,
}

/// Times the reading of so many inserts, or counts a few.
pub fn run<R: CpuClock + AllocGlobal + Print>(rt: &R, words: &[String]) -> Result<()> {
    let [word, ..] = words else {
        return read_all(rt, 3, false);
    };
    let inserts = word
        .as_str()
        .parse::<u32>()
        .context("the number of inserts")?;
    read_all(rt, inserts, true)
}

fn read_all<R: CpuClock + AllocGlobal + Print>(rt: &R, inserts: u32, is_timed: bool) -> Result<()> {
    let text = feed_of(rt.alloc(), inserts)?;
    let bytes = text.as_bytes();
    let bare = best_of(rt, || count_records(rt.alloc(), bytes))?;
    let (length, records) = (bytes.len(), bare.count);
    println!(rt; "{length} bytes: {records} records")?;
    if is_timed {
        report(rt, "csv alone", &bare, length)?;
    }
    let bare = if is_timed { Some(bare) } else { None };
    read_version(rt, 1, bytes, bare)?;
    read_version(rt, 2, bytes, bare)
}

fn read_version<R: CpuClock + AllocGlobal + Print>(
    rt: &R,
    version: u32,
    bytes: &[u8],
    bare: Option<Measured>,
) -> Result<()> {
    let schema = schema_of(rt.alloc(), version)?;
    let feed = best_of(rt, || count_items(rt.alloc(), &schema, bytes))?;
    let items = feed.count;
    println!(rt; "version {version}: {items} items")?;
    if let Some(bare) = bare {
        report(rt, "Feed::next", &feed, bytes.len())?;
        let ratio = feed.nanos.saturating_mul(100) / bare.nanos.max(1);
        println!(rt; "Feed::next takes {ratio} hundredths of the time of csv alone")?;
    }
    Ok(())
}

// What `count` counted, and the time of its best round.
fn best_of<R: CpuClock, F: Fn() -> Result<u64>>(rt: &R, count: F) -> Result<Measured>
    requires { F.IsAlwaysCallable count }
{
    let mut best = Measured {
        count: 0,
        nanos: u128::MAX,
    };
    for _ in 0..ROUNDS {
        let start = cpu_nanos(rt)?;
        best.count = count()?;
        best.nanos = best.nanos.min(nanos_since(rt, start)?);
    }
    Ok(best)
}

fn count_records(alloc: Global, bytes: &[u8]) -> Result<u64> {
    let mut reader = ReaderBuilder::new()
        .has_headers(false)
        .flexible(true)
        .from_reader(alloc, bytes);
    let mut record = ByteRecord::new(alloc);
    for count in 0..u64::MAX {
        match reader.read_byte_record(&mut record) {
            Ok(true) => {}
            Ok(false) => return Ok(count),
            Err(_) => return Err(anyhow!("csv failed")),
        }
    }
    Err(anyhow!("more records than any feed has"))
}

fn count_items(alloc: Global, schema: &Schema, bytes: &[u8]) -> Result<u64> {
    Ok(count_good(&mut Feed::new(alloc, schema, bytes))?)
}

fn count_good(feed: &mut Feed<'_, &[u8]>) -> Result<u64, FeedFault> {
    let mut good = 0u64;
    while let Some(item) = feed.next()? {
        good = good.saturating_add(u64::from(item.what.is_ok()));
    }
    Ok(good)
}

fn report(rt: &impl Print, name: &str, measured: &Measured, bytes: usize) -> Result<()> {
    let records = per_second(measured.count, measured.nanos);
    let bytes = per_second(bytes as u64, measured.nanos);
    let nanos = measured.nanos;
    println!(rt; "{name}: {nanos} ns, {records} records a second, {bytes} bytes a second")?;
    Ok(())
}

// So many a second, where it took so long.
fn per_second(count: u64, nanos: u128) -> u128 {
    u128::from(count).saturating_mul(1_000_000_000) / nanos.max(1)
}

// A feed of so many inserts, of seven regions and a thousand kinds.
fn feed_of(alloc: Global, inserts: u32) -> Result<String, AllocError> {
    let mut text = String::from_str(alloc, "op,id,region,kind,amount\n")?;
    for i in 0..inserts {
        let region = i % 7;
        let kind = i % 1000;
        let line = format!(in alloc; "I,order-{i},region-{region},kind-of-goods-{kind},{i}\n")?;
        text.push_str(line.as_str())?;
    }
    Ok(text)
}

// The names of the sample schema, for feeds of this version.
fn schema_of(alloc: Global, version: u32) -> Result<Schema> {
    let document = format!(in alloc;
        "dimensions = ['region', 'kind']\nmeasures = ['amount']\naggregates = ['count(*)']\nversion = {version}\n"
    )?;
    Ok(Schema::from_toml(alloc, document.as_bytes())?)
}
