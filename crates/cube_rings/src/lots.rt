//! Links over which the lines of a feed go in lots, so that two threads meet once a lot and not at every line.
ghost use Rattle.std.specs.Prelude.{◌≡◌, ◌<◌, ◌≤◌, [], ◌∷◌, ◌++◌, IfOk, IfSome, IfNone, IsTrue, IsFalse, vec_len, vec_capacity};
ghost use Rattle.cube_rings.specs.Lots.{parcels_seen, unpacked};
ghost use Rattle.cube_rings.specs.Parcels.{lines_of, sends};
ghost use Rattle.cube_rings.specs.declared.parcel.Parcel.TheVariants.{Line, End};

use crate::link_ends::{Inlet, Outlet, Receipt, link};
use crate::patience::Patience;
use cube_feed::FeedItem;
use std::alloc::{AllocError, Global};
use std::marker::Model;
use std::mem;
use std::sync::Wait;
use std::vec::IntoIter;

/// The fewest lots that a link has room for where a lot has several lines: at a smaller one the two ends are to meet at
/// every line.
const MANY_LOTS: usize = 64;

/// How many lines there are in the lots of all sources together, one lot each, where these aren't many.
const LINES: usize = 128;

/// The fewest lines of a lot, at any number of sources: a lot is an allocation, which is shared among so many lines.
const FEWEST_LINES: usize = 16;

/// What goes over a link at once: some lines of a feed, or its end (this project's choice).
#[derive(Debug, Drop)]
pub(crate) enum Lot {
    Lines(Vec<FeedItem>),
    End,
}

/// What was seen on a link: no lot, the lines of one, or the end of the feed, which was taken.
#[derive(Clone, Copy, Debug)]
pub(crate) enum Seen {
    Nothing,
    Lines,
    End,
}

/// The end of a link that sends parcels. Lines wait in a lot until that is full or the end is offered.
#[derive(Drop)]
pub struct LotOutlet {
    outlet: Outlet<Lot>,
    // The lines that wait; it has no room where it was sent.
    lot: Vec<FeedItem>,
    // How many lines a lot has room for.
    size: usize,
}

impl Model for LotOutlet {
    ghost use Rattle.std.specs.Prelude.{◌++◌};
    ghost use Rattle.cube_rings.specs.Link.{Sending};
    ghost use Rattle.cube_rings.specs.Lots.{unpacked};
    ghost use Rattle.cube_rings.specs.Parcels.{lines_of};
    ghost use Rattle.cube_rings.specs.declared.parcel.Parcel.{Parcel};

    ghost Value = { Sending Parcel };

    ghost view = { λ o. record { link = o.outlet.link; sent = unpacked o.outlet.sent ++ lines_of o.lot.items } };
}

/// The end of a link that receives parcels: those of a lot, one after another.
#[derive(Drop)]
pub struct LotInlet {
    inlet: Inlet<Lot>,
    // The lines of the last lot that weren't taken yet.
    lot: IntoIter<FeedItem>,
}

impl Model for LotInlet {
    ghost use Rattle.std.specs.Prelude.{◌++◌};
    ghost use Rattle.std.specs.Vec.Iter.{into_iter_items};
    ghost use Rattle.cube_rings.specs.Link.{Receiving};
    ghost use Rattle.cube_rings.specs.Lots.{unpacked, all_but, EndsIn};
    ghost use Rattle.cube_rings.specs.Parcels.{lines_of};
    ghost use Rattle.cube_rings.specs.declared.parcel.Parcel.{Parcel};

    ghost Value = { Receiving Parcel };

    ghost view = { λ i. record {
      link = i.inlet.link;
      received = all_but (lines_of (into_iter_items i.lot)) (unpacked i.inlet.received);
      left = lines_of (into_iter_items i.lot) ++ unpacked i.inlet.left;
    } };

    ghost invariant = { λ i. EndsIn (lines_of (into_iter_items i.lot)) (unpacked i.inlet.received) };
}

/// Names every parcel that was sent on a link, once nothing more can be.
#[derive(Drop)]
pub struct LotReceipt {
    receipt: Receipt<Lot>,
}

impl Model for LotReceipt {
    ghost use Rattle.cube_rings.specs.Link.{Sending};
    ghost use Rattle.cube_rings.specs.Lots.{unpacked};
    ghost use Rattle.cube_rings.specs.declared.parcel.Parcel.{Parcel};

    ghost Value = { Sending Parcel };

    ghost view = { λ r. record { link = r.receipt.link; sent = unpacked r.receipt.sent } };
}

/// How many lines a lot has room for, where each of so many sources has links with room for `capacity` lots: the fewer the
/// more sources there are, as what waits in their links takes memory. No contract speaks of the answer.
pub fn lot_size(capacity: usize, sources: usize) -> usize {
    if capacity < MANY_LOTS || sources == 0 {
        return 1;
    }
    (LINES / sources).max(FEWEST_LINES)
}

/// The two ends of a new link with room for `capacity` lots of so many lines, 1 to 65536 (this project's choice).
///
/// The only error is that memory ran out.
pub fn lot_link(
    alloc: Global,
    capacity: usize,
    size: usize,
) -> Result<(LotOutlet, LotInlet), AllocError>
    requires { (1 ≤ capacity) × (capacity ≤ 65536) }
    ensures link { IfOk result (λ ends. ends.0.link ≡ ends.1.link) }
    ensures sent { IfOk result (λ ends. ends.0.sent ≡ []) }
    ensures received { IfOk result (λ ends. ends.1.received ≡ []) }
{
    let (outlet, inlet) = link(alloc, capacity)?;
    let outlet = LotOutlet {
        outlet,
        lot: Vec::new(alloc),
        size,
    };
    let none: Vec<FeedItem> = Vec::new(alloc);
    let inlet = LotInlet {
        inlet,
        lot: none.into_iter(),
    };
    Ok((outlet, inlet))
}

// Sends the lines that wait, where the link has room; answers whether it had.
fn send_lot(outlet: &mut Outlet<Lot>, lot: &mut Vec<FeedItem>) -> bool
    ensures link { outlet.new.link ≡ outlet.old.link }
    ensures same { unpacked outlet.new.sent ++ lines_of lot.new.items
        ≡ unpacked outlet.old.sent ++ lines_of lot.old.items }
    ensures none { IsTrue result → lot.new.items ≡ [] }
{
    let empty = Vec::new(*lot.allocator());
    let lines = mem::replace(lot, empty);
    match outlet.offer(Lot::Lines(lines)) {
        Ok(()) => true,
        Err(back) => {
            if let Lot::Lines(lines) = back {
                *lot = lines;
            }
            false
        }
    }
}

// Whether a line has a place in a lot, and where it fills that, the link has room for it.
fn has_place(outlet: &mut Outlet<Lot>, lot: &Vec<FeedItem>) -> bool
    ensures outlet { outlet.new ≡ outlet.old }
    ensures place { IsTrue result → vec_len lot.now < vec_capacity lot.now }
{
    let places = lot.capacity() - lot.len();
    places > 1 || (places == 1 && outlet.room() > 0)
}

// Waits until a line has a place in a lot, and where it fills that, until the link has room for it.
fn wait_for_place<W: Wait>(
    rt: &W,
    patience: &mut Patience,
    outlet: &mut Outlet<Lot>,
    lot: &Vec<FeedItem>,
)
    ensures outlet { outlet.new ≡ outlet.old }
    ensures place { vec_len lot.now < vec_capacity lot.now }
{
    for _ in rt.forever() {
        if has_place(outlet, lot) {
            return;
        }
        patience.wait(rt, outlet);
    }
    unreachable!()
}

// Puts a line, for which there is room, behind those that wait, and sends them where the lot is full then.
fn put_line(outlet: &mut Outlet<Lot>, lot: &mut Vec<FeedItem>, item: FeedItem)
    requires { vec_len lot.old < vec_capacity lot.old }
    ensures link { outlet.new.link ≡ outlet.old.link }
    ensures sent { unpacked outlet.new.sent ++ lines_of lot.new.items
        ≡ (unpacked outlet.old.sent ++ lines_of lot.old.items) ++ Line item ∷ [] }
{
    let Ok(()) = lot.push(item) else {
        unreachable!()
    };
    if lot.len() == lot.capacity() {
        let _is_sent = send_lot(outlet, lot);
    }
}

impl LotOutlet {
    /// Makes room for one more line. The only error is that memory ran out.
    pub fn make_room(&mut self, alloc: Global) -> Result<(), AllocError>
        ensures { self.new ≡ self.old }
    {
        if self.lot.capacity() == 0 {
            self.lot = Vec::with_capacity(alloc, self.size)?;
        }
        Ok(())
    }

    /// Sends a line: waits until it has a place among those that wait, and, where it is the last that has one, until the link
    /// has room for all of them. Where no room was made for a line it waits for good.
    pub(crate) fn send_line<W: Wait>(&mut self, rt: &W, patience: &mut Patience, item: FeedItem)
        ensures { self.new ≡ sends (Line item ∷ []) self.old }
    {
        wait_for_place(rt, patience, &mut self.outlet, &self.lot);
        put_line(&mut self.outlet, &mut self.lot, item);
    }

    /// Sends the lines that wait and then the end; waits until the link has room.
    pub(crate) fn send_end<W: Wait>(&mut self, rt: &W, patience: &mut Patience)
        ensures { self.new ≡ sends (End ∷ []) self.old }
    {
        for _ in rt.forever() {
            if self.offer_end() {
                return;
            }
            patience.wait(rt, &mut self.outlet);
        }
        unreachable!()
    }

    // Sends the lines that wait and then the end; answers whether the link had room.
    fn offer_end(&mut self) -> bool
        ensures link { self.new.link ≡ self.old.link }
        ensures sent { IsTrue result → self.new.sent ≡ self.old.sent ++ End ∷ [] }
        ensures not { IsFalse result → self.new ≡ self.old }
    {
        if !self.lot.is_empty() && !send_lot(&mut self.outlet, &mut self.lot) {
            return false;
        }
        self.outlet.offer(Lot::End).is_ok()
    }

    /// Ends the sending, and gives a receipt for all that was sent. None where the inlet was dropped before, or has no room
    /// for lines that wait.
    pub fn finish(self) -> Option<LotReceipt>
        ensures link { IfSome result (λ receipt. receipt.link ≡ self.link) }
        ensures sent { IfSome result (λ receipt. receipt.sent ≡ self.sent) }
    {
        let LotOutlet {
            outlet,
            lot,
            size: _,
        } = self;
        let (mut outlet, mut lot) = (outlet, lot);
        if !lot.is_empty() && !send_lot(&mut outlet, &mut lot) {
            return None;
        }
        let receipt = outlet.finish()?;
        Some(LotReceipt { receipt })
    }
}

impl LotInlet {
    /// How many lots the link has room for. No contract speaks of the answer.
    pub fn capacity(&self) -> usize {
        self.inlet.capacity()
    }

    /// Takes the next line of the lot that was taken last; None where none of it is left.
    pub(crate) fn next_line(&mut self) -> Option<FeedItem>
        ensures link { self.new.link ≡ self.old.link }
        ensures received { IfSome result (λ item.
            self.new.received ≡ self.old.received ++ Line item ∷ []) }
        ensures none { IfNone result (self.new.received ≡ self.old.received) }
    {
        self.lot.next()
    }

    /// Takes the next lot where one is seen and no line of the last one is left: its lines are the next ones. Nothing says
    /// nothing of the outlet, which may send more.
    pub(crate) fn take_lot(&mut self) -> Seen
        ensures link { self.new.link ≡ self.old.link }
        ensures received { self.new.received ≡ self.old.received ++ parcels_seen result }
    {
        if self.lot.len() != 0 {
            return Seen::Lines;
        }
        match self.inlet.take() {
            None => Seen::Nothing,
            Some(Lot::Lines(lines)) => {
                self.lot = lines.into_iter();
                Seen::Lines
            }
            Some(Lot::End) => Seen::End,
        }
    }

    /// Sees all that was sent, by this link's receipt. The next takes give what wasn't taken yet.
    pub fn see_all(&mut self, receipt: &mut LotReceipt)
        requires { receipt.old.link ≡ self.old.link }
        ensures receipt { receipt.new ≡ receipt.old }
        ensures link { self.new.link ≡ self.old.link }
        ensures received { self.new.received ≡ self.old.received }
        ensures whole { self.new.received ++ self.new.left ≡ receipt.old.sent }
    {
        let _left = self.inlet.left_after(&mut receipt.receipt);
    }
}
