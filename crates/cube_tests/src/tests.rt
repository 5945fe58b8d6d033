//! A link that is full, ends that are dropped early, and what may move to another thread.
ghost use Rattle.std.specs.Prelude.{◌≡◌};

use cube_rings::{Inlet, Outlet, Receipt, link};
use std::alloc::Global;
use std::process::Abort;
use std::sync::Arc;
use std::test::Fail;

#[test]
fn a_full_link_gives_the_item_back(rt: HostRuntime) -> Result<(), Fail> {
    let (mut outlet, mut inlet) = link(rt.alloc(), 2)?;
    let offered = [outlet.offer(1u64), outlet.offer(2), outlet.offer(3)];
    assert_eq!(rt; offered, [Ok(()), Ok(()), Err(3)]);
    assert!(rt; inlet.take() == Some(1));
    assert!(rt; outlet.offer(3).is_ok());
    let taken = [inlet.take(), inlet.take(), inlet.take()];
    assert_eq!(rt; taken, [Some(2), Some(3), None]);
    assert!(rt; left_after(&rt, outlet, &mut inlet) == 0);
    Ok(())
}

// How many items are left to take once the outlet is finished.
fn left_after(rt: &impl Abort, outlet: Outlet<u64>, inlet: &mut Inlet<u64>) -> usize
    requires { outlet.link ≡ inlet.old.link }
{
    let mut receipt = outlet.finish().expect(rt, "a receipt");
    inlet.left_after(&mut receipt)
}

// A link of three items, of which two are there, each a share of the item.
fn link_of_shares(
    alloc: Global,
    item: &Arc<u64>,
) -> Result<(Outlet<Arc<u64>>, Inlet<Arc<u64>>), Fail> {
    let (first, second) = (Arc::try_clone(item)?, Arc::try_clone(item)?);
    let (mut outlet, inlet) = link(alloc, 3)?;
    if outlet.offer(first).is_err() || outlet.offer(second).is_err() {
        return Err(Fail::new("the link is full"));
    }
    Ok((outlet, inlet))
}

#[test]
fn items_in_the_ring_are_dropped_with_the_outlet(rt: HostRuntime) -> Result<(), Fail> {
    let item = Arc::new(rt.alloc(), 5u64)?;
    let share = Arc::try_clone(&item)?;
    let (mut outlet, inlet) = link_of_shares(rt.alloc(), &item)?;
    drop(inlet);
    assert!(rt; outlet.offer(share).is_ok());
    assert!(rt; outlet.finish().is_none());
    assert!(rt; Arc::strong_count(&item) == 1);
    Ok(())
}

#[test]
fn items_in_the_ring_are_dropped_with_the_inlet(rt: HostRuntime) -> Result<(), Fail> {
    let item = Arc::new(rt.alloc(), 5u64)?;
    let (outlet, mut inlet) = link_of_shares(rt.alloc(), &item)?;
    drop(outlet);
    assert!(rt; inlet.take().is_some());
    assert!(rt; Arc::strong_count(&item) == 2);
    drop(inlet);
    assert!(rt; Arc::strong_count(&item) == 1);
    Ok(())
}

// Takes what may move to another thread.
fn hand_over<M: Send + Drop>(_moved: M) {}

// The ends and the receipt of a link may move where its items may.
fn hand_over_all<T: Send + Drop>(outlet: Outlet<T>, inlet: Inlet<T>, receipt: Option<Receipt<T>>) {
    hand_over(outlet);
    hand_over(inlet);
    hand_over(receipt);
}

#[test]
fn ends_and_receipts_can_move(rt: HostRuntime) -> Result<(), Fail> {
    let (sealed, inlet) = link::<String>(rt.alloc(), 1)?;
    let receipt = sealed.finish();
    assert!(rt; receipt.is_some());
    let (outlet, _) = link(rt.alloc(), 1)?;
    hand_over_all(outlet, inlet, receipt);
    Ok(())
}
