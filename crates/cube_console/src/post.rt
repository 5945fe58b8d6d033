//! What the thread that reads an input and the one that takes it share.
use std::alloc::{AllocError, Global};
use std::io::{self, ErrorKind};
use std::mem;
use std::sync::atomic::{AtomicU64, Ordering};
use std::sync::{Condvar, Mutex, MutexGuard, Wait};
use std::time::{Clock, Duration};

/// How many bytes are read at once at most, and how many wait to be taken at most.
pub(crate) const ROOM: usize = 65_536;

/// Why nothing more comes.
#[derive(Clone, Copy)]
pub(crate) enum End {
    /// The input ended.
    Over,
    /// A read failed so.
    Failed(ErrorKind),
}

/// What was read and isn't taken yet.
#[derive(Drop)]
struct Waiting {
    bytes: Vec<u8>,
    // How many records end in these bytes.
    records: u64,
    // More was read, for which there is no room.
    is_full: bool,
    // Whether the bytes are wanted.
    is_wanted: bool,
    end: Option<End>,
}

impl Waiting {
    // Whether whoever takes the bytes has something to do: a record, more bytes than wait, or the end.
    fn calls(&self) -> bool {
        self.records > 0 || self.is_full || self.end.is_some()
    }
}

/// What the thread that reads an input and the one that takes it share.
#[derive(Drop)]
pub(crate) struct Post {
    waiting: Mutex<Waiting>,
    filled: Condvar,
    emptied: Condvar,
    // How many records end in the bytes that were taken, behind the one that is being taken.
    ahead: AtomicU64,
}

impl Post {
    /// Nothing was read yet. The only error is that memory ran out.
    pub fn new(alloc: Global) -> Result<Post, AllocError> {
        let waiting = Waiting {
            bytes: Vec::with_capacity(alloc, ROOM)?,
            records: 0,
            is_full: false,
            is_wanted: false,
            end: None,
        };
        Ok(Post {
            waiting: Mutex::new(waiting),
            filled: Condvar::new(),
            emptied: Condvar::new(),
            ahead: AtomicU64::new(0),
        })
    }

    /// Waits until the bytes are wanted.
    pub fn wait_till_wanted<T: Wait>(&self, rt: &T) {
        let waiting = self.waiting.lock(rt);
        let _wanted = self
            .emptied
            .wait_while(rt, waiting, |waiting| !waiting.is_wanted);
    }

    // What waits, which is wanted from now on.
    fn wanted<T: Wait>(&self, rt: &T) -> MutexGuard<'_, Waiting> {
        let mut waiting = self.waiting.lock(rt);
        if !waiting.is_wanted {
            waiting.is_wanted = true;
            self.emptied.notify_one();
        }
        waiting
    }

    /// Puts bytes that were read, at most as many as there is room for, in which so many records end. It waits for room.
    /// The only error is that memory ran out.
    pub fn put<T: Wait>(&self, rt: &T, bytes: &[u8], records: usize) -> Result<(), AllocError> {
        let mut waiting = self.waiting.lock(rt);
        if waiting.bytes.len() + bytes.len() > ROOM {
            waiting.is_full = true;
            self.filled.notify_one();
            waiting = self
                .emptied
                .wait_while(rt, waiting, |waiting| waiting.is_full);
        }
        waiting.bytes.extend_from_slice(bytes)?;
        waiting.records = waiting.records.saturating_add(records as u64);
        self.filled.notify_one();
        Ok(())
    }

    /// Says that nothing more comes.
    pub fn end<T: Wait>(&self, rt: &T, end: End) {
        self.waiting.lock(rt).end = Some(end);
        self.filled.notify_one();
    }

    /// Takes all that waits into a block, whose bytes are let go. It waits for a byte, or for the end, at which no byte is
    /// taken. An error is that of the read.
    pub fn take<T: Wait>(&self, rt: &T, block: &mut Vec<u8>) -> io::Result<()> {
        block.clear();
        let waiting = self.wanted(rt);
        let mut waiting = self.filled.wait_while(rt, waiting, |waiting| {
            waiting.bytes.is_empty() && waiting.end.is_none()
        });
        if let (true, Some(End::Failed(kind))) = (waiting.bytes.is_empty(), waiting.end) {
            return Err(io::Error::from(kind));
        }
        mem::swap(&mut waiting.bytes, block);
        let ahead = waiting.records.saturating_sub(1);
        self.ahead.store(ahead, Ordering::SeqCst);
        waiting.records = 0;
        waiting.is_full = false;
        self.emptied.notify_one();
        Ok(())
    }

    /// Whether another record ends in the bytes that were taken. It is asked once for each.
    pub fn has_more(&self) -> bool {
        let ahead = self.ahead.load(Ordering::SeqCst);
        if ahead == 0 {
            return false;
        }
        self.ahead.store(ahead - 1, Ordering::SeqCst);
        true
    }

    /// Waits for a record or the end, for so long at most; whether there is one. Where the bytes that wait are as many as may,
    /// and no record ends in them, it says at once that there is none.
    pub fn awaits<T: Wait + Clock>(&self, rt: &T, most: Duration) -> bool {
        let waiting = self.wanted(rt);
        let (waiting, _) = self
            .filled
            .wait_timeout_while(rt, waiting, most, |waiting| !waiting.calls());
        waiting.records > 0 || waiting.end.is_some()
    }
}
