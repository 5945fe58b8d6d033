//! Taking what the feeders send into a builder.
ghost use Rattle.std.specs.Prelude.{◌≡◌, ◌≤◌, ◌<◌, ◌++◌, ◌∷◌, [], ℕ, List, length, true, false, IsTrue, is_err, slice_index_or};
ghost use Rattle.cube_rings.specs.Link.{Receiving};
ghost use Rattle.cube_core.specs.Arrival.{Arrivals};
ghost use Rattle.cube_rings.specs.Gathering.{AreFresh, StandsAtFirst, Looks, Gathering, Gathers, links_ended};
ghost use Rattle.cube_rings.specs.declared.parcel.Parcel.{Parcel as TheParcel};

use crate::gate::{Gate, GatedLink};
use crate::gatherer::Place;
use crate::lots::{LotInlet, Seen};
use crate::patience::EmptyRounds;
use cube_feed::{FeedItem, TakesItems};
use std::alloc::AllocError;
use std::sync::Wait;
use std::thread;

/// The most sources of a run.
const MOST_SOURCES: usize = 64;

/// The most parcels that are taken from a link before the next link is looked at.
const MOST_AT_A_VISIT: u32 = 32;

/// What was taken from a link: so many parcels, and whether its end was among them.
#[derive(Clone, Copy, Debug)]
struct Taken {
    parcels: u64,
    ended: bool,
}

// Applies an item, or drops it where memory ran out before; waits for good where the builder is full.
fn accept<W: Wait, B: TakesItems>(
    rt: &W,
    builder: &mut B,
    source: u32,
    item: FeedItem,
    wanting: &mut bool,
)
    requires { (1 ≤ source) × (source ≤ B.sources builder.old) }
    ensures sources { B.sources builder.new ≡ B.sources builder.old }
    ensures stands { (first : B) (arrivals : Arrivals) →
        StandsAtFirst (B.stands first) builder.old wanting.old arrivals →
        StandsAtFirst (B.stands first) builder.new wanting.new (arrivals ++ (source, item) ∷ []) }
{
    if *wanting {
        drop(item);
        return;
    }
    wait_if_full(rt, builder);
    *wanting = builder.take_item(source, item).is_err();
}

// Waits for good where the builder is full.
fn wait_if_full<W: Wait, B: TakesItems>(rt: &W, builder: &B)
    ensures { B.full builder.now ≡ false }
{
    if builder.is_full() {
        for _ in rt.forever() {
            thread::yield_now();
        }
        unreachable!()
    }
}

// Counts one parcel more of a link, and tells the gate.
fn count_one<G: Gate>(link: &GatedLink<'_, G>, taken: &mut Taken)
    ensures { taken.new.ended ≡ taken.old.ended }
{
    taken.parcels = taken.parcels.saturating_add(1);
    link.tell(taken.parcels);
}

// Looks once at a link that hasn't ended: takes a parcel, or a lot of which one is to be taken next. Whether one was there.
fn look<W: Wait, B: TakesItems, G: Gate>(
    rt: &W,
    link: &GatedLink<'_, G>,
    builder: &mut B,
    inlet: &mut LotInlet,
    taken: &mut Taken,
    wanting: &mut bool,
) -> bool
    requires source { (1 ≤ link.now.source) × (link.now.source ≤ B.sources builder.old) }
    requires open { taken.old.ended ≡ false }
    ensures sources { B.sources builder.new ≡ B.sources builder.old }
    ensures looks { Looks B.stands link.now.source inlet.old inlet.new taken.new.ended
        builder.old builder.new wanting.old wanting.new }
{
    if let Some(item) = inlet.next_line() {
        count_one(link, taken);
        accept(rt, builder, link.source, item, wanting);
        return true;
    }
    match inlet.take_lot() {
        Seen::Nothing => false,
        Seen::Lines => true,
        Seen::End => {
            count_one(link, taken);
            taken.ended = true;
            true
        }
    }
}

// Looks at a link that hasn't ended, and again while parcels are there. Whether one was there.
fn visit<W: Wait, B: TakesItems, G: Gate>(
    rt: &W,
    link: &GatedLink<'_, G>,
    builder: &mut B,
    inlet: &mut LotInlet,
    taken: &mut Taken,
    wanting: &mut bool,
) -> bool
    requires source { (1 ≤ link.now.source) × (link.now.source ≤ B.sources builder.old) }
    requires open { taken.old.ended ≡ false }
    ensures sources { B.sources builder.new ≡ B.sources builder.old }
    ensures looks { Looks B.stands link.now.source inlet.old inlet.new taken.new.ended
        builder.old builder.new wanting.old wanting.new }
{
    let mut found = false;
    for _ in 0..MOST_AT_A_VISIT {
        if taken.ended || !look(rt, link, builder, inlet, taken, wanting) {
            return found;
        }
        found = true;
    }
    found
}

// Visits each link that hasn't ended. Whether a parcel was in any of them.
fn look_round<W: Wait, B: TakesItems, G: Gate>(
    rt: &W,
    place: Place,
    builder: &mut B,
    inlets: &mut [LotInlet],
    taken: &mut [Taken; MOST_SOURCES],
    wanting: &mut bool,
    gate: &G,
) -> bool
    requires sources { length inlets.old ≡ B.sources builder.old }
    requires most { length inlets.old ≤ 64 }
    ensures sources { B.sources builder.new ≡ B.sources builder.old }
    ensures gathering { (first : B) (start : List (Receiving TheParcel)) →
        Gathering (B.stands first) start inlets.old (links_ended taken.old) builder.old wanting.old →
        Gathering (B.stands first) start inlets.new (links_ended taken.new) builder.new wanting.new }
{
    let mut found = false;
    for i in 0..inlets.len() {
        if !taken[i].ended {
            let link = GatedLink {
                source: i as u32 + 1,
                place,
                gate,
            };
            found |= visit(rt, &link, builder, &mut inlets[i], &mut taken[i], wanting);
        }
    }
    found
}

// Whether the first so many links have ended.
fn have_ended(taken: &[Taken; MOST_SOURCES], count: usize) -> bool
    requires { count ≤ 64 }
    ensures { IsTrue result →
        (i : ℕ) → i < count → slice_index_or (links_ended taken.now) i false ≡ true }
{
    for i in 0..count {
        if !taken[i].ended {
            return false;
        }
    }
    true
}

/// Takes from the links of all sources, inlet s - 1 from source s, until each has given its end, and applies each item to
/// the builder as it comes; the gate is told each source by the builder's place.
///
/// It goes round the links and takes up to 32 parcels from each. After rounds in which nothing was found it yields, 200 times
/// at most, and then naps, for a microsecond at first and twice as long each time, up to half a millisecond; where the links
/// have room for less than 64 lots, it only yields. The only error is that memory ran out: from the item on that finds none it
/// goes on taking, and drops what comes. Where the builder is full it waits for good.
pub fn gather<W: Wait, B: TakesItems, G: Gate>(
    rt: &W,
    place: Place,
    builder: &mut B,
    inlets: &mut [LotInlet],
    gate: &G,
) -> Result<(), AllocError>
    requires sources { length inlets.old ≡ B.sources builder.old }
    requires most { length inlets.old ≤ 64 }
    requires fresh { AreFresh inlets.old }
    requires stands { B.stands builder.old builder.old [] }
    ensures sources { B.sources builder.new ≡ B.sources builder.old }
    ensures gathers { Gathers (B.stands builder.old) inlets.old inlets.new
        builder.new (is_err result) }
{
    let mut taken = [Taken {
        parcels: 0,
        ended: false,
    }; MOST_SOURCES];
    let mut wanting = false;
    let mut empty = EmptyRounds::none();
    for _ in rt.forever() {
        if have_ended(&taken, inlets.len()) {
            return if wanting { Err(AllocError) } else { Ok(()) };
        }
        if look_round(rt, place, builder, inlets, &mut taken, &mut wanting, gate) {
            empty = EmptyRounds::none();
        } else {
            empty.wait(rt, inlets);
        }
    }
    unreachable!()
}
