//! What is counted while a command runs.
use std::sync::atomic::{AtomicU64, Ordering};

/// What is counted while a command runs. Any thread may add, and any may look.
#[derive(Drop)]
pub struct Counts {
    lines: AtomicU64,
    ended: AtomicU64,
    bytes: AtomicU64,
}

impl Counts {
    /// Nothing was counted yet.
    pub(crate) const fn new() -> Counts {
        Counts {
            lines: AtomicU64::new(0),
            ended: AtomicU64::new(0),
            bytes: AtomicU64::new(0),
        }
    }

    /// How many lines were taken.
    pub(crate) fn lines(&self) -> u64 {
        self.lines.load(Ordering::SeqCst)
    }

    /// How many inputs were read to their ends.
    pub(crate) fn ended(&self) -> u64 {
        self.ended.load(Ordering::SeqCst)
    }

    /// How many bytes were written.
    pub(crate) fn bytes(&self) -> u64 {
        self.bytes.load(Ordering::SeqCst)
    }

    /// Lines are counted from 0 again.
    pub(crate) fn forget_lines(&self) {
        self.lines.store(0, Ordering::SeqCst);
    }

    /// So many more lines were taken.
    pub(crate) fn add_lines(&self, lines: usize) {
        self.lines.fetch_add(lines as u64, Ordering::SeqCst);
    }

    /// One more input was read to its end.
    pub(crate) fn add_end(&self) {
        self.ended.fetch_add(1, Ordering::SeqCst);
    }

    /// So many more bytes were written.
    pub(crate) fn add_bytes(&self, bytes: usize) {
        self.bytes.fetch_add(bytes as u64, Ordering::SeqCst);
    }
}
