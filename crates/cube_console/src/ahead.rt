//! The thread that reads, and who takes what it read.
use crate::place::{Place, records_in};
use crate::post::{End, Post, ROOM};
use std::alloc::Global;
use std::io::{self, ErrorKind, Read};
use std::sync::{Arc, Wait};
use std::thread::{self, Threads};
use std::time::{Clock, Duration, Instant};

/// How many seconds a record that was taken waits at most for a rest.
const PATIENCE: u64 = 1;

/// The bytes of an input that a thread reads ahead, as they came.
#[derive(Drop)]
pub struct Ahead<T: Wait + Copy> {
    rt: T,
    post: Arc<Post, Global>,
    block: Vec<u8>,
    // How many bytes of the block were given.
    given: usize,
}

/// What tells whether an input rests that a thread reads ahead.
#[derive(Drop)]
pub struct Pauses<T: Wait + Clock + Copy> {
    rt: T,
    post: Arc<Post, Global>,
    // Since when records may have been taken without a rest; none where none was.
    since: Option<Instant>,
}

/// Starts a thread that reads an input to its end, and gives the bytes that it reads, with what tells whether the input rests.
/// None where memory or a thread is wanting: then nothing was read, as before the first byte or the first rest is asked for.
///
/// The thread isn't joined, since it may wait for input for good: when the program ends it is cut off.
pub fn read_ahead<
    T: Threads + Wait + Clock + Copy + Send + 'static,
    R: Read + Drop + Send + 'static,
>(rt: &T, alloc: Global, input: R) -> Option<(Ahead<T>, Pauses<T>)> {
    let rt = *rt;
    let block = Vec::with_capacity(alloc, ROOM).ok()?;
    let chunk = vec![in alloc; 0u8; ROOM].ok()?;
    let post = Arc::new(alloc, Post::new(alloc).ok()?).ok()?;
    let (theirs, mine) = (Arc::try_clone(&post).ok()?, Arc::try_clone(&post).ok()?);
    let started = thread::spawn(&rt, move || read_to_end(&rt, input, chunk, &theirs));
    if started.is_err() {
        return None;
    }
    let ahead = Ahead {
        rt,
        post: mine,
        block,
        given: 0,
    };
    let pauses = Pauses {
        rt,
        post,
        since: None,
    };
    Some((ahead, pauses))
}

// Reads an input to its end, and puts what it reads.
fn read_to_end<T: Wait, R: Read + Drop>(rt: &T, mut input: R, mut chunk: Vec<u8>, post: &Post) {
    post.wait_till_wanted(rt);
    let mut place = Place::Record;
    for _ in rt.forever() {
        match input.read(&mut chunk) {
            Ok(0) => return post.end(rt, End::Over),
            Ok(count) => {
                let bytes = &chunk[..count];
                let (next, records) = records_in(place, bytes);
                place = next;
                if post.put(rt, bytes, records).is_err() {
                    return post.end(rt, End::Failed(ErrorKind::OutOfMemory));
                }
            }
            Err(error) => return post.end(rt, End::Failed(error.kind())),
        }
    }
}

impl<T: Wait + Copy> Read for Ahead<T> {
    fn read(&mut self, buf: &mut [u8]) -> io::Result<usize> {
        if self.given >= self.block.len() {
            self.given = 0;
            self.post.take(&self.rt, &mut self.block)?;
        }
        let left = &self.block[self.given..];
        let count = left.len().min(buf.len());
        buf[..count].copy_from_slice(&left[..count]);
        self.given += count;
        Ok(count)
    }
}

impl<T: Wait + Clock + Copy> Pauses<T> {
    /// Whether the input rests: no record is there, and the last that was taken waits for a second, or another did that was
    /// taken since the last rest. It is asked once before each record, and waits for that second where none is there. No
    /// contract speaks of the answer.
    pub fn rests(&mut self) -> bool {
        if self.post.has_more() {
            return false;
        }
        if let Some(left) = self.left()
            && self.post.awaits(&self.rt, left)
        {
            return false;
        }
        self.since = None;
        true
    }

    // How long it is until the input rests in any case; none where it does, or where the clock can't be read.
    fn left(&mut self) -> Option<Duration> {
        let since = match self.since {
            Some(since) => since,
            None => Instant::now(&self.rt).ok()?,
        };
        self.since = Some(since);
        let waited = since.elapsed(&self.rt).ok()?;
        Duration::from_secs(PATIENCE).checked_sub(waited)
    }
}
