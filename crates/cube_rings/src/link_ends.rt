//! The ends of a link, and what names all that was sent on it.
ghost use Rattle.std.specs.Prelude.{◌≡◌, ◌≤◌, ◌<◌, ℕ, [], ◌∷◌, ◌++◌, length, IfOk, IfErr, OnOk, IfSome, IfNone};
ghost use mathlib.Core.List.{IsPrefix};
ghost use Rattle.cube_rings.specs.Link.{IsDrained};

use rtrb::{Consumer, Finished, Producer, RingBuffer};
use std::alloc::{AllocError, Global};
use std::marker::Model;

/// The end of a link that sends. It can move to another thread where its items can.
#[derive(Drop)]
pub struct Outlet<T: Drop> {
    producer: Producer<T>,
}

impl<T: Drop> Model for Outlet<T> {
    ghost use Rattle.cube_rings.specs.Link.{Sending, link_of};
    ghost use Rattle.rtrb.specs.Ring.{sent};

    ghost Value = { Sending T };

    ghost view = { λ o. record { link = link_of o.producer.end; sent = sent o.producer } };
}

/// The end of a link that receives. It can move to another thread where its items can.
#[derive(Drop)]
pub struct Inlet<T: Drop> {
    consumer: Consumer<T>,
    capacity: usize,
}

impl<T: Drop> Model for Inlet<T> {
    ghost use Rattle.cube_rings.specs.Link.{Receiving, link_of};
    ghost use Rattle.rtrb.specs.Ring.{received, known_items};

    ghost Value = { Receiving T };

    ghost view = { λ i. record {
      link = link_of i.consumer.end;
      received = received i.consumer;
      left = known_items i.consumer;
    } };
}

/// Names every item that was sent on a link, once nothing more can be. It can move to another thread where the
/// items can, and owns none of them.
#[derive(Drop)]
pub struct Receipt<T: Drop> {
    finished: Finished<T>,
}

impl<T: Drop> Model for Receipt<T> {
    ghost use Rattle.cube_rings.specs.Link.{Sending, link_of};
    ghost use Rattle.rtrb.specs.Ring.{all_sent};

    ghost Value = { Sending T };

    ghost view = { λ r. record { link = link_of r.finished.end; sent = all_sent r.finished } };
}

/// The two ends of a new link with room for `capacity` items, 1 to 65536 (this project's choice).
///
/// The only error is that memory ran out, and no other call of a link takes any. The ring is freed with the end that is
/// dropped second, with the items still in it.
pub fn link<T: Drop>(alloc: Global, capacity: usize) -> Result<(Outlet<T>, Inlet<T>), AllocError>
    requires { (1 ≤ capacity) × (capacity ≤ 65536) }
    ensures link { IfOk result (λ ends. ends.0.link ≡ ends.1.link) }
    ensures sent { IfOk result (λ ends. ends.0.sent ≡ []) }
    ensures received { IfOk result (λ ends. (ends.1.received ≡ []) × (ends.1.left ≡ [])) }
{
    let (producer, consumer) = RingBuffer::new(alloc, capacity)?;
    Ok((Outlet { producer }, Inlet { consumer, capacity }))
}

impl<T: Drop> Outlet<T> {
    /// Sends an item, or gives it back where the link has no room. The inlet may make room at any time.
    pub fn offer(&mut self, item: T) -> Result<(), T>
        ensures link { self.new.link ≡ self.old.link }
        ensures sent { OnOk result (self.new.sent ≡ self.old.sent ++ item ∷ []) }
        ensures back { IfErr result (λ back. (back ≡ item) × (self.new ≡ self.old)) }
    {
        if self.producer.is_full() {
            return Err(item);
        }
        self.producer.push_reserved(item);
        Ok(())
    }

    /// How many items the link has room for. No contract speaks of the answer.
    pub fn capacity(&self) -> usize {
        self.producer.capacity()
    }

    /// How many items the link has room for now; the inlet may make more at any time. No contract speaks of the answer.
    pub fn room(&mut self) -> usize
        ensures { self.new ≡ self.old }
    {
        self.producer.slots()
    }

    /// Ends the sending, and gives a receipt for all that was sent. None where the inlet was dropped before.
    pub fn finish(self) -> Option<Receipt<T>>
        ensures link { IfSome result (λ receipt. receipt.link ≡ self.link) }
        ensures sent { IfSome result (λ receipt. receipt.sent ≡ self.sent) }
    {
        let finished = self.producer.finish()?;
        Some(Receipt { finished })
    }
}

impl<T: Drop> Inlet<T> {
    /// How many items the link has room for. No contract speaks of the answer.
    pub fn capacity(&self) -> usize {
        self.capacity
    }

    /// Takes the next item where one is seen. None says nothing of the outlet, which may send more.
    pub fn take(&mut self) -> Option<T>
        ensures link { self.new.link ≡ self.old.link }
        ensures received { IfSome result (λ item.
            self.new.received ≡ self.old.received ++ item ∷ []) }
        ensures next { IfSome result (λ item. IsPrefix self.old.left (item ∷ self.new.left)) }
        ensures none { IfNone result ((self.old.left ≡ []) × (self.new ≡ self.old)) }
    {
        if self.consumer.is_empty() {
            return None;
        }
        Some(self.consumer.pop_known())
    }

    /// How many items that were sent are left, by this link's receipt. The next takes give them.
    pub fn left_after(&mut self, receipt: &mut Receipt<T>) -> usize
        requires { receipt.old.link ≡ self.old.link }
        ensures receipt { receipt.new ≡ receipt.old }
        ensures link { self.new.link ≡ self.old.link }
        ensures received { self.new.received ≡ self.old.received }
        ensures count { result ≡ length self.new.left }
        ensures whole { self.new.received ++ self.new.left ≡ receipt.old.sent }
        ensures drained { result ≡ 0 → IsDrained receipt.old self.new }
    {
        self.consumer.slots_after(&mut receipt.finished)
    }

    /// Takes the next item, which is known to be left.
    pub fn take_known(&mut self) -> T
        requires { 0 < length self.old.left }
        ensures link { self.new.link ≡ self.old.link }
        ensures received { self.new.received ≡ self.old.received ++ result ∷ [] }
        ensures left { self.old.left ≡ result ∷ self.new.left }
    {
        self.consumer.pop_known()
    }
}
