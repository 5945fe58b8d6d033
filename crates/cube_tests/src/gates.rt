//! Gates that show that threads run beside one another.
use crate::turn::Turn;
use cube_build::Gate;
use std::sync::atomic::{AtomicU64, Ordering};

/// Holds the first offer of each of two sources until that of the other has begun.
#[derive(Drop)]
pub struct Meet {
    pub first: Turn,
    pub second: Turn,
}

impl Gate for Meet {
    fn before_offer(&self, source: u32, _builder: u32, k: u64) {
        if k != 1 {
            return;
        }
        if source == 1 {
            self.first.begin();
            self.second.hold();
        } else {
            self.second.begin();
            self.first.hold();
        }
    }

    fn after_take(&self, _source: u32, _builder: u32, _k: u64) {}
}

/// Holds the second offer until the first parcel was taken.
#[derive(Drop)]
pub struct Flow {
    pub taken: Turn,
}

impl Gate for Flow {
    fn before_offer(&self, _source: u32, _builder: u32, k: u64) {
        if k == 2 {
            self.taken.hold();
        }
    }

    fn after_take(&self, _source: u32, _builder: u32, k: u64) {
        if k == 1 {
            self.taken.begin();
        }
    }
}

/// Holds a builder after its first parcel until the fourth is offered: two have to find room in the link before.
#[derive(Drop)]
pub struct Ahead {
    pub offered: Turn,
}

impl Gate for Ahead {
    fn before_offer(&self, _source: u32, _builder: u32, k: u64) {
        if k == 4 {
            self.offered.begin();
        }
    }

    fn after_take(&self, _source: u32, _builder: u32, k: u64) {
        if k == 1 {
            self.offered.hold();
        }
    }
}

/// Holds each of two builders after its first parcel until the other has taken its own.
#[derive(Drop)]
pub struct Apart {
    pub first: Turn,
    pub second: Turn,
}

impl Gate for Apart {
    fn before_offer(&self, _source: u32, _builder: u32, _k: u64) {}

    fn after_take(&self, _source: u32, builder: u32, k: u64) {
        if k != 1 {
            return;
        }
        if builder == 0 {
            self.first.begin();
            self.second.hold();
        } else {
            self.second.begin();
            self.first.hold();
        }
    }
}

/// Holds the end of source 3 until that of source 7 was taken, which is its third parcel.
#[derive(Drop)]
pub struct Late {
    pub taken: Turn,
}

impl Gate for Late {
    fn before_offer(&self, source: u32, _builder: u32, k: u64) {
        if source == 3 && k == 1 {
            self.taken.hold();
        }
    }

    fn after_take(&self, source: u32, _builder: u32, k: u64) {
        if source == 7 && k == 3 {
            self.taken.begin();
        }
    }
}

/// Holds the first offers of one source until so many parcels of the others were taken.
#[derive(Drop)]
pub struct Held {
    source: u32,
    awaited: u64,
    taken: AtomicU64,
    others: Turn,
}

impl Held {
    /// Nothing was taken yet.
    pub fn new(source: u32, awaited: u64) -> Held {
        Held {
            source,
            awaited,
            taken: AtomicU64::new(0),
            others: Turn::new(),
        }
    }

    /// Whether the source was held, and went on when the awaited parcels had been taken.
    pub fn was_met(&self) -> bool {
        self.others.was_met()
    }
}

impl Gate for Held {
    fn before_offer(&self, source: u32, _builder: u32, k: u64) {
        if source == self.source && k == 1 {
            self.others.hold();
        }
    }

    fn after_take(&self, source: u32, _builder: u32, _k: u64) {
        if source == self.source {
            return;
        }
        let before = self.taken.fetch_add(1, Ordering::SeqCst);
        if before.saturating_add(1) == self.awaited {
            self.others.begin();
        }
    }
}
