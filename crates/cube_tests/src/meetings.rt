//! Threads that meet.
use crate::gates::{Ahead, Apart, Flow, Late, Meet};
use crate::texts::fault_of_build;
use crate::turn::Turn;
use cube_core::Schema;
use cube_feed::FeedFault;
use cube_tool::RunFault;
use std::test::Fail;

const ONE: &str = "op,id,region,kind,amount\nI,1,w,a,1\n";

const TWO: &str = "op,id,region,kind,amount\nI,1,w,a,2\n";

const THREE: &str = "op,id,region,kind,amount\nI,1,w,a,1\nI,2,w,a,2\nI,3,w,a,3\n";

const TURNED: &str = "op,id,kind,region,amount\n";

const CAPPED: &[u8] =
    b"dimensions = [\"region\", \"kind\"]\nmeasures = [\"amount\"]\naggregates = [\"count(*)\"]\nmax_records = 2\n";

#[test]
fn two_feeders_meet(rt: HostRuntime) -> Result<(), Fail> {
    let alloc = rt.alloc();
    let schema = Schema::sample(alloc)?;
    let gate = Meet {
        first: Turn::new(),
        second: Turn::new(),
    };
    let fault = fault_of_build(&rt, alloc, &schema, &[ONE, TWO], 64, 1, &gate);
    assert_eq!(rt; fault, None);
    assert!(rt; gate.first.was_met());
    assert!(rt; gate.second.was_met());
    Ok(())
}

#[test]
fn a_feeder_sends_while_its_builder_takes(rt: HostRuntime) -> Result<(), Fail> {
    let alloc = rt.alloc();
    let schema = Schema::sample(alloc)?;
    let gate = Flow { taken: Turn::new() };
    let fault = fault_of_build(&rt, alloc, &schema, &[THREE], 1, 1, &gate);
    assert_eq!(rt; fault, None);
    assert!(rt; gate.taken.was_met());
    Ok(())
}

#[test]
fn a_feeder_goes_on_while_its_link_has_room(rt: HostRuntime) -> Result<(), Fail> {
    let alloc = rt.alloc();
    let schema = Schema::sample(alloc)?;
    let gate = Ahead {
        offered: Turn::new(),
    };
    let fault = fault_of_build(&rt, alloc, &schema, &[THREE], 2, 1, &gate);
    assert_eq!(rt; fault, None);
    assert!(rt; gate.offered.was_met());
    Ok(())
}

#[test]
fn two_builders_take_beside_one_another(rt: HostRuntime) -> Result<(), Fail> {
    let alloc = rt.alloc();
    let schema = Schema::sample(alloc)?;
    let gate = Apart {
        first: Turn::new(),
        second: Turn::new(),
    };
    let fault = fault_of_build(&rt, alloc, &schema, &[ONE], 64, 2, &gate);
    assert_eq!(rt; fault, None);
    assert!(rt; gate.first.was_met());
    assert!(rt; gate.second.was_met());
    Ok(())
}

#[test]
fn the_lowest_fault_is_named_though_it_comes_late(rt: HostRuntime) -> Result<(), Fail> {
    let alloc = rt.alloc();
    let schema = Schema::from_toml(alloc, CAPPED)?;
    let gate = Late { taken: Turn::new() };
    let feeds = [ONE, ONE, TURNED, ONE, ONE, ONE, THREE, ONE];
    let fault = fault_of_build(&rt, alloc, &schema, &feeds, 64, 1, &gate);
    let lowest = RunFault::Feed {
        source: 3,
        fault: FeedFault::Header,
    };
    assert_eq!(rt; fault, Some(lowest));
    assert!(rt; gate.taken.was_met());
    Ok(())
}
