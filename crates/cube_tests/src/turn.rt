//! Calls that are held until another has begun.
use std::sync::atomic::{AtomicBool, Ordering};
use std::thread;

/// How often a held call looks for the awaited one before it gives up.
const TURNS: u32 = 100_000_000;

/// Holds one call until another has begun.
#[derive(Drop)]
pub struct Turn {
    begun: AtomicBool,
    held: AtomicBool,
    gave_up: AtomicBool,
}

impl Turn {
    /// Neither call was made yet.
    pub fn new() -> Turn {
        Turn {
            begun: AtomicBool::new(false),
            held: AtomicBool::new(false),
            gave_up: AtomicBool::new(false),
        }
    }

    /// The awaited call begins.
    pub fn begin(&self) {
        self.begun.store(true, Ordering::SeqCst);
    }

    /// The held call waits for the other to begin, and gives up after 100,000,000 looks.
    pub fn hold(&self) {
        self.held.store(true, Ordering::SeqCst);
        for _ in 0..TURNS {
            if self.begun.load(Ordering::SeqCst) {
                return;
            }
            thread::yield_now();
        }
        self.gave_up.store(true, Ordering::SeqCst);
    }

    /// Whether both calls were made, and the held one saw the other begin.
    pub fn was_met(&self) -> bool {
        let begun = self.begun.load(Ordering::SeqCst);
        let held = self.held.load(Ordering::SeqCst);
        begun && held && !self.gave_up.load(Ordering::SeqCst)
    }
}
