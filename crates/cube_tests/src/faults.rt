//! Feeds at fault while others go on.
ghost use Rattle.std.specs.Prelude.{◌≡◌, ◌≤◌, vec_len, IfOk};

use crate::feeds::Failing;
use crate::gates::Held;
use crate::texts::settings_of;
use cube_build::{Gate, OpenGate};
use cube_core::Schema;
use cube_feed::FeedFault;
use cube_tool::{RunFault, run};
use std::alloc::{AllocError, Global};
use std::sync::Wait;
use std::test::Fail;
use std::thread::Threads;

const CAPPED: &[u8] =
    b"dimensions = [\"region\", \"kind\"]\nmeasures = [\"amount\"]\naggregates = [\"count(*)\"]\nmax_records = 3\n";

const GOOD: &str = "op,id,region,kind,amount\nI,1,w,a,1\nI,2,w,a,2\nI,3,w,b,3\n";

const ONE_MORE: &str = "op,id,region,kind,amount\nI,1,w,a,1\nI,2,w,a,2\nI,3,w,b,3\nI,4,w,b,4\n";

const MANY_MORE: &str =
    "op,id,region,kind,amount\nI,1,w,a,1\nD,1\nI,2,w,a,2\nI,4,w,b,4\nI,5,w,b,4\nI,6,w,b,4\nD,6\n";

// Readers of three sources, each of which fails at the read after so many.
fn readers_of_three(
    alloc: Global,
    feeds: [&'static str; 3],
    reads: [u32; 3],
) -> Result<Vec<Failing<'static>>, AllocError>
    ensures { IfOk result (λ readers. vec_len readers ≡ 3) }
{
    let first = Failing {
        bytes: feeds[0].as_bytes(),
        reads: reads[0],
    };
    let second = Failing {
        bytes: feeds[1].as_bytes(),
        reads: reads[1],
    };
    let third = Failing {
        bytes: feeds[2].as_bytes(),
        reads: reads[2],
    };
    Ok(vec![in alloc; first, second, third]?)
}

// What a run of three sources answers where nothing was written.
fn answer_of<T: Threads + Wait + Sync, G: Gate + Sync>(
    rt: &T,
    alloc: Global,
    feeds: [&'static str; 3],
    reads: [u32; 3],
    builders: u32,
    gate: &G,
) -> Result<Option<RunFault>, Fail>
    requires { (1 ≤ builders) × (builders ≤ 8) }
{
    let schema = Schema::from_toml(alloc, CAPPED)?;
    let readers = readers_of_three(alloc, feeds, reads)?;
    let mut out = Vec::new(alloc);
    let settings = settings_of(1, builders);
    let answer = run(rt, alloc, &schema, readers, &settings, gate, &mut out);
    if answer.is_err() && !out.is_empty() {
        return Err(Fail::new("something was written"));
    }
    Ok(answer.err())
}

// Whether the answer is that a source has too many records, though a source was held until all parcels of the others,
// four in each feed, were taken.
fn names<T: Threads + Wait + Sync>(
    rt: &T,
    alloc: Global,
    feeds: [&'static str; 3],
    builders: u32,
    held: u32,
    source: u32,
) -> Result<bool, Fail>
    requires { (1 ≤ builders) × (builders ≤ 8) }
{
    let gate = Held::new(held, 2 * 4 * builders as u64);
    let answer = answer_of(rt, alloc, feeds, [u32::MAX; 3], builders, &gate)?;
    let wanted = RunFault::Feed {
        source,
        fault: FeedFault::TooMany,
    };
    Ok(gate.was_met() && answer == Some(wanted))
}

#[test]
fn the_lowest_fault_is_named_whichever_comes_first(rt: HostRuntime) -> Result<(), Fail> {
    let alloc = rt.alloc();
    for builders in [1, 3] {
        for (feeds, source) in [
            ([ONE_MORE, GOOD, GOOD], 1),
            ([GOOD, ONE_MORE, GOOD], 2),
            ([GOOD, GOOD, ONE_MORE], 3),
            ([MANY_MORE, GOOD, GOOD], 1),
            ([GOOD, MANY_MORE, GOOD], 2),
            ([GOOD, GOOD, MANY_MORE], 3),
            ([ONE_MORE, MANY_MORE, GOOD], 1),
            ([MANY_MORE, GOOD, ONE_MORE], 1),
            ([GOOD, ONE_MORE, MANY_MORE], 2),
        ] {
            for held in [1, 2, 3] {
                let is_named = names(&rt, alloc, feeds, builders, held, source)?;
                assert!(rt; is_named, "of {source} with {held} held");
            }
        }
    }
    Ok(())
}

#[test]
fn a_reader_that_fails_at_any_read_is_named(rt: HostRuntime) -> Result<(), Fail> {
    let alloc = rt.alloc();
    let wanted = RunFault::Feed {
        source: 2,
        fault: FeedFault::Read,
    };
    for builders in [1, 3] {
        for reads in 0..5 {
            let all = [u32::MAX, reads, u32::MAX];
            let answer = answer_of(&rt, alloc, [GOOD; 3], all, builders, &OpenGate)?;
            assert_eq!(rt; answer, Some(wanted), "after {reads}");
        }
        let answer = answer_of(&rt, alloc, [GOOD; 3], [u32::MAX; 3], builders, &OpenGate)?;
        assert_eq!(rt; answer, None);
    }
    Ok(())
}
