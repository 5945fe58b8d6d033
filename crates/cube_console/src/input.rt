//! Readers that count what is read.
ghost use Rattle.std.specs.Prelude.{◌≡◌, count_by, nat_eq};

use crate::counts::Counts;
use std::io::{Read, Result};

/// The reader of a feed, which counts its end.
#[derive(Drop)]
pub struct FeedReader<'c, R: Read + Drop> {
    inner: R,
    counts: Option<&'c Counts>,
    has_ended: bool,
}

impl<'c, R: Read + Drop> FeedReader<'c, R> {
    /// A reader of what another reads, whose end is counted if that is wanted.
    pub fn new(inner: R, counts: Option<&'c Counts>) -> FeedReader<'c, R>
        ensures { result.inner ≡ inner }
    {
        FeedReader {
            inner,
            counts,
            has_ended: false,
        }
    }
}

impl<R: Read + Drop> Read for FeedReader<'_, R> {
    ghost remaining = { λ reader. R.Read.remaining reader.inner };

    fn read(&mut self, buf: &mut [u8]) -> Result<usize> {
        let has_room = !buf.is_empty();
        let count = self.inner.read(buf)?;
        if count == 0 && has_room {
            self.end();
        }
        Ok(count)
    }
}

impl<R: Read + Drop> FeedReader<'_, R> {
    // The feed ended; that is counted once.
    fn end(&mut self)
        ensures { self.new.inner ≡ self.old.inner }
    {
        if self.has_ended {
            return;
        }
        self.has_ended = true;
        if let Some(counts) = self.counts {
            counts.add_end();
        }
    }
}

/// The reader of a printed cube, which counts its lines.
#[derive(Drop)]
pub struct CubeReader<'c, R: Read + Drop> {
    inner: R,
    counts: Option<&'c Counts>,
}

impl<'c, R: Read + Drop> CubeReader<'c, R> {
    /// A reader of what another reads, whose lines are counted if that is wanted.
    pub fn new(inner: R, counts: Option<&'c Counts>) -> CubeReader<'c, R>
        ensures { result.inner ≡ inner }
    {
        CubeReader { inner, counts }
    }
}

impl<R: Read + Drop> Read for CubeReader<'_, R> {
    ghost remaining = { λ reader. R.Read.remaining reader.inner };

    fn read(&mut self, buf: &mut [u8]) -> Result<usize> {
        let taken = self.inner.read(buf)?;
        if let Some(counts) = self.counts {
            counts.add_lines(line_ends(&buf[..taken]));
        }
        Ok(taken)
    }
}

// How many line ends there are among bytes.
fn line_ends(bytes: &[u8]) -> usize
    ensures { result ≡ count_by (nat_eq 10) bytes.now }
{
    bytes.iter().filter(|byte| **byte == b'\n').count()
}
