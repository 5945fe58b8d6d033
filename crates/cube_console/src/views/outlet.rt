//! A writer that knows how many bytes it took.
ghost use Rattle.std.specs.Prelude.{◌≡◌, ◌≤◌, length, take, OnOk};
ghost use Rattle.std.specs.Io.KnownBytes.{Appends, Keeps};

use std::io::{Error, ErrorKind, Result, Write};

/// A writer, and how many bytes it took.
#[derive(Drop)]
pub(crate) struct Outlet<O: Write + Drop> {
    inner: O,
    sent: usize,
}

impl<O: Write + Drop> Outlet<O> {
    /// A writer that has taken nothing yet.
    pub(crate) fn new(inner: O) -> Outlet<O>
        ensures { result.inner ≡ inner }
    {
        Outlet { inner, sent: 0 }
    }

    /// How many bytes the writer took.
    pub(crate) fn sent(&self) -> usize {
        self.sent
    }

    /// Writes the bytes. Any error, an interruption too, and a `write` that takes no byte end the work at once.
    pub(crate) fn send(&mut self, bytes: &[u8]) -> Result<()>
        ensures { OnOk result
            (Appends (O.Write.contents self.old.inner) (O.Write.contents self.new.inner) bytes.now) }
    {
        let (count, ended) = write_out(&mut self.inner, bytes);
        self.sent = self.sent.saturating_add(count);
        ended
    }

    /// Flushes the writer.
    pub(crate) fn flush(&mut self) -> Result<()>
        ensures { Keeps (O.Write.contents self.old.inner) (O.Write.contents self.new.inner) }
    {
        self.inner.flush()
    }
}

// Writes the bytes up to an error, or all; and how many the writer took.
fn write_out<W: Write>(w: &mut W, bytes: &[u8]) -> (usize, Result<()>)
    ensures part { Appends (W.contents w.old) (W.contents w.new) (take result.0 bytes.now) }
    ensures whole { OnOk result.1 (result.0 ≡ length bytes.now) }
{
    let mut sent = 0;
    while sent < bytes.len() {
        match w.write(&bytes[sent..]) {
            Ok(taken) if taken > 0 => sent += taken,
            Ok(_) => return (sent, Err(Error::from(ErrorKind::WriteZero))),
            Err(error) => return (sent, Err(error)),
        }
    }
    (sent, Ok(()))
}
