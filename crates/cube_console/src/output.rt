//! A writer that counts what is written.
ghost use Rattle.std.specs.Prelude.{◌≡◌};

use crate::progress::Progress;
use std::io::{Result, Write};
use std::sync::Wait;
use std::time::Clock;

/// How many bytes are written at once at most, so that they can be counted on the way.
const PART: usize = 1_048_576;

/// The writer of a command, which counts the bytes that it takes.
#[derive(Drop)]
pub struct Output<'p, O: Write + Drop, T: Wait + Clock, W: Write + Drop> {
    inner: O,
    progress: &'p Progress<'p, T, W>,
    has_begun: bool,
}

impl<'p, O: Write + Drop, T: Wait + Clock, W: Write + Drop> Output<'p, O, T, W> {
    /// A writer to another.
    pub fn new(inner: O, progress: &'p Progress<'p, T, W>) -> Output<'p, O, T, W>
        ensures { result.inner ≡ inner }
    {
        Output {
            inner,
            progress,
            has_begun: false,
        }
    }
}

impl<O: Write + Drop, T: Wait + Clock, W: Write + Drop> Write for Output<'_, O, T, W> {
    ghost contents = { λ output. O.Write.contents output.inner };

    fn write(&mut self, buf: &[u8]) -> Result<usize> {
        let Some(counts) = self.progress.counts() else {
            return self.inner.write(buf);
        };
        if !self.has_begun {
            self.has_begun = true;
            self.progress.begin_output();
        }
        let most = buf.len().min(PART);
        let count = self.inner.write(&buf[..most])?;
        counts.add_bytes(count);
        Ok(count)
    }

    fn flush(&mut self) -> Result<()> {
        self.inner.flush()
    }
}
