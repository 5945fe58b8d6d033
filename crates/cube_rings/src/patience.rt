//! How long a feeder waits at full links, and a builder at empty ones.
ghost use Rattle.std.specs.Prelude.{◌≡◌};

use crate::link_ends::Outlet;
use crate::lots::{Lot, LotInlet};
use std::sync::Wait;
use std::thread;
use std::thread::Parker;
use std::time::Duration;

/// How often a feeder yields at a full link, and a builder at empty ones, before it naps: about as long as the shortest nap
/// takes, in which the other end goes through a hundred parcels.
const YIELDS: u32 = 200;

/// The fewest lots that a link has room for where its ends nap: a smaller one would run empty or full meanwhile.
const NAPPING_RING: usize = 64;

/// The microseconds of a feeder's shortest nap, and of its longest.
const SHORTEST_NAP: u64 = 50;

const LONGEST_NAP: u64 = 800;

/// How often the nap of a builder is doubled, the first being of one microsecond.
const DOUBLINGS: u32 = 9;

/// What a feeder has learned of how long its links stay full. It naps at once where its last nap was no longer than its
/// builder took to empty the link, and yields first where it was.
#[derive(Clone, Copy, Debug)]
pub(crate) struct Patience {
    naps: bool,
    nap: u64,
}

impl Patience {
    /// A feeder that hasn't waited yet.
    pub(crate) fn new() -> Patience {
        Patience {
            naps: false,
            nap: SHORTEST_NAP,
        }
    }

    /// Waits for room in a link that has none. A feeder that yields does so until half of it is free, so that the two ends
    /// don't wait for each other at every parcel.
    pub(crate) fn wait<W: Wait>(&mut self, rt: &W, outlet: &mut Outlet<Lot>)
        ensures { outlet.new ≡ outlet.old }
    {
        let capacity = outlet.capacity();
        if capacity < NAPPING_RING {
            thread::yield_now();
            return;
        }
        if !self.naps && yield_for_room(outlet, capacity / 2) {
            return;
        }
        Parker::new().park_timeout(rt, Duration::from_micros(self.nap));
        self.learn(outlet.room(), capacity);
    }

    // What is learned of the room after a nap: a full link wants a longer one, a link that is more than half empty a
    // shorter one, and an empty one none.
    fn learn(&mut self, room: usize, capacity: usize) {
        self.naps = room < capacity;
        if room == 0 {
            self.nap = (self.nap.saturating_mul(2)).min(LONGEST_NAP);
        } else if room > capacity / 2 {
            self.nap = (self.nap / 2).max(SHORTEST_NAP);
        }
    }
}

// Yields until the link has this much room, or for long; answers whether it has.
fn yield_for_room(outlet: &mut Outlet<Lot>, room: usize) -> bool
    ensures { outlet.new ≡ outlet.old }
{
    for _ in 0..YIELDS {
        thread::yield_now();
        if outlet.room() >= room {
            return true;
        }
    }
    false
}

/// How many rounds over the links of a builder found nothing, one after the other.
#[derive(Clone, Copy, Debug)]
pub(crate) struct EmptyRounds {
    rounds: u32,
}

impl EmptyRounds {
    /// None yet, or a parcel was found.
    pub(crate) fn none() -> EmptyRounds {
        EmptyRounds { rounds: 0 }
    }

    /// Waits for parcels after one more of them: a builder yields at first, since all feeders wait for it, and then naps, at
    /// first as briefly as the system lets it.
    pub(crate) fn wait<W: Wait>(&mut self, rt: &W, inlets: &[LotInlet]) {
        let naps = inlets
            .first()
            .is_some_and(|inlet| inlet.capacity() >= NAPPING_RING);
        let rounds = self.rounds;
        self.rounds = rounds.saturating_add(1);
        if !naps || rounds < YIELDS {
            thread::yield_now();
            return;
        }
        let doublings = (rounds - YIELDS).min(DOUBLINGS);
        Parker::new().park_timeout(rt, Duration::from_micros(1 << doublings));
    }
}
