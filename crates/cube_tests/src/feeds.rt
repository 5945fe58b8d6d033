//! Feeds that are made, and a reader that fails.
use std::alloc::{AllocError, Global};
use std::io;
use std::io::Read;

// The feed of a source: an insert of each id from 1 to 1000, in region `w` followed by the id modulo 7 and kind `k`
// followed by the source, with the id as its amount, and then deletes of the even ids.
fn thousand_of(alloc: Global, source: u32) -> Result<String, AllocError> {
    let mut feed = String::from_str(alloc, "op,id,region,kind,amount\n")?;
    for id in 1..1001u32 {
        let region = id % 7;
        writeln!(feed, "I,{id},w{region},k{source},{id}")?;
    }
    for half in 1..501u32 {
        let id = half * 2;
        writeln!(feed, "D,{id}")?;
    }
    Ok(feed)
}

/// The feeds of sources 1 to 3.
pub fn thousands_of_three(alloc: Global) -> Result<[String; 3], AllocError> {
    Ok([
        thousand_of(alloc, 1)?,
        thousand_of(alloc, 2)?,
        thousand_of(alloc, 3)?,
    ])
}

// The feed of one insert, whose amount is the source.
fn one_of(alloc: Global, source: u32) -> Result<String, AllocError> {
    format!(in alloc; "op,id,region,kind,amount\nI,1,w,a,{source}\n")
}

/// For each source up to the last the feed of one insert, whose amount is the source.
pub fn ones_to(alloc: Global, last: u32) -> Result<Vec<String>, AllocError> {
    let mut feeds = Vec::new(alloc);
    for source in 1..=last {
        feeds.push(one_of(alloc, source)?)?;
    }
    Ok(feeds)
}

/// Hands its bytes out, at most 16 a read, and fails at the read after so many.
#[derive(Drop)]
pub struct Failing<'a> {
    pub bytes: &'a [u8],
    pub reads: u32,
}

impl<'a> Read for Failing<'a> {
    fn read(&mut self, buf: &mut [u8]) -> io::Result<usize> {
        if self.reads == 0 {
            return Err(io::Error::from(io::ErrorKind::BrokenPipe));
        }
        self.reads -= 1;
        let count = buf.len().min(self.bytes.len()).min(16);
        let (piece, rest) = self.bytes.split_at(count);
        buf[..count].copy_from_slice(piece);
        self.bytes = rest;
        Ok(count)
    }
}
