//! Runs of which one source is held while the others go on.
ghost use Rattle.std.specs.Prelude.{◌≤◌, length};

use crate::feeds::{ones_to, thousands_of_three};
use crate::gates::Held;
use crate::texts::{plain_text, run_texts};
use cube_build::Gate;
use cube_core::Schema;
use std::alloc::{AllocError, Global};
use std::sync::Wait;
use std::test::Fail;
use std::thread::Threads;

// What the run on one thread writes of the feeds.
fn plain_of<'a>(alloc: Global, feeds: &[&'a str]) -> Result<Vec<u8>, Fail>
    requires { length feeds.now ≤ 64 }
{
    let schema = Schema::sample(alloc)?;
    let plain = plain_text(alloc, &schema, feeds);
    Ok(plain.ok().ok_or("the run on one thread failed")?)
}

// Whether a run writes this text.
fn writes<'a, T: Threads + Wait + Sync, G: Gate + Sync>(
    rt: &T,
    alloc: Global,
    feeds: &[&'a str],
    capacity: usize,
    builders: u32,
    gate: &G,
    wanted: &[u8],
) -> Result<bool, Fail>
    requires feeds { (1 ≤ length feeds.now) × (length feeds.now ≤ 64) }
    requires capacity { (1 ≤ capacity) × (capacity ≤ 65536) }
    requires builders { (1 ≤ builders) × (builders ≤ 8) }
{
    let schema = Schema::sample(alloc)?;
    let mut out = Vec::new(alloc);
    let ran = run_texts(
        rt, alloc, &schema, feeds, capacity, builders, gate, &mut out,
    );
    ran.ok().ok_or("the run failed")?;
    Ok(out.as_slice() == wanted)
}

// Whether a run whose source is held until so many parcels of the others were taken writes this text.
fn writes_though_held<'a, T: Threads + Wait + Sync>(
    rt: &T,
    alloc: Global,
    feeds: &[&'a str],
    capacity: usize,
    builders: u32,
    gate: &Held,
    wanted: &[u8],
) -> Result<bool, Fail>
    requires feeds { (1 ≤ length feeds.now) × (length feeds.now ≤ 64) }
    requires capacity { (1 ≤ capacity) × (capacity ≤ 65536) }
    requires builders { (1 ≤ builders) × (builders ≤ 8) }
{
    let is_written = writes(rt, alloc, feeds, capacity, builders, gate, wanted)?;
    Ok(is_written && gate.was_met())
}

// Each of three sources is held in turn, until the first parcel and until all parcels of the others were taken; each
// feed gives 1500 items and its end.
fn three_held_in_turn<T: Threads + Wait + Sync>(
    rt: &T,
    alloc: Global,
    capacity: usize,
    builders: u32,
) -> Result<bool, Fail>
    requires capacity { (1 ≤ capacity) × (capacity ≤ 65536) }
    requires builders { (1 ≤ builders) × (builders ≤ 8) }
{
    let [one, two, three] = thousands_of_three(alloc)?;
    let feeds = [one.as_str(), two.as_str(), three.as_str()];
    let plain = plain_of(alloc, &feeds)?;
    let all = 2 * 1501 * builders as u64;
    for source in 1..4u32 {
        for awaited in [1, all] {
            let gate = Held::new(source, awaited);
            if !writes_though_held(rt, alloc, &feeds, capacity, builders, &gate, &plain)? {
                return Ok(false);
            }
        }
    }
    Ok(true)
}

#[test]
fn builders_wait_for_a_held_source(rt: HostRuntime) -> Result<(), Fail> {
    for builders in [1, 2] {
        for capacity in [1, 2, 3, 64, 65536] {
            let is_written = three_held_in_turn(&rt, rt.alloc(), capacity, builders)?;
            assert!(rt; is_written, "at {capacity} with {builders}");
        }
    }
    for builders in [3, 8] {
        let is_written = three_held_in_turn(&rt, rt.alloc(), 64, builders)?;
        assert!(rt; is_written, "with {builders}");
    }
    Ok(())
}

// Each of 64 sources is held in turn until all parcels of the others were taken, over links of one parcel; each feed
// gives one item and its end.
fn sixty_four_held_in_turn<T: Threads + Wait + Sync>(
    rt: &T,
    alloc: Global,
    builders: u32,
) -> Result<bool, Fail>
    requires { (1 ≤ builders) × (builders ≤ 8) }
{
    let texts = ones_to(alloc, 64)?;
    let feeds = strs_of(alloc, &texts)?;
    if feeds.len() != 64 {
        return Err(Fail::new("64 feeds"));
    }
    each_held_in_turn(rt, alloc, &feeds, builders)
}

// The texts as what a run takes.
fn strs_of(alloc: Global, texts: &[String]) -> Result<Vec<&str>, AllocError> {
    let mut strs = Vec::with_capacity(alloc, texts.len())?;
    for text in texts {
        strs.push(text.as_str())?;
    }
    Ok(strs)
}

// Each of 64 feeds is held in turn.
fn each_held_in_turn<'a, T: Threads + Wait + Sync>(
    rt: &T,
    alloc: Global,
    feeds: &[&'a str],
    builders: u32,
) -> Result<bool, Fail>
    requires feeds { (1 ≤ length feeds.now) × (length feeds.now ≤ 64) }
    requires builders { (1 ≤ builders) × (builders ≤ 8) }
{
    let plain = plain_of(alloc, feeds)?;
    for source in 1..65u32 {
        let gate = Held::new(source, 63 * 2 * builders as u64);
        if !writes_though_held(rt, alloc, feeds, 1, builders, &gate, &plain)? {
            return Ok(false);
        }
    }
    Ok(true)
}

#[test]
fn sixty_four_sources_are_held(rt: HostRuntime) -> Result<(), Fail> {
    for builders in [1, 2, 8] {
        let is_written = sixty_four_held_in_turn(&rt, rt.alloc(), builders)?;
        assert!(rt; is_written, "with {builders}");
    }
    Ok(())
}
