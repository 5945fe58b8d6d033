//! A text into a writer, whole or by a counted part.

ghost use Rattle.std.specs.Prelude.{◌≡◌, ◌≤◌, ◌+◌, length, take, OnOk, IfOk, IfErr};
ghost use Rattle.std.specs.Io.KnownBytes.{Appends};
ghost use Rattle.cube_lines.specs.Pieces.{SendsPart, text_of_pieces};

use std::io::Write;
use thiserror::Error;

/// A text that did not go out whole, or was not flushed.
#[derive(Clone, Copy, PartialEq, Eq, Debug, Error)]
#[error("WriteFault")]
pub struct WriteFault {
    /// How many of the first bytes the writer took: all, where only the flush failed.
    pub sent: usize,
}

/// Writes the bytes, and flushes the writer once at their end.
///
/// Each `write` is offered all that is left, so there is at most one for each byte. Any error of
/// `write` or `flush`, an interruption too, and a `write` that takes no byte end the work at once:
/// nothing is tried a second time.
pub fn write_whole<W: Write>(w: &mut W, bytes: &[u8]) -> Result<(), WriteFault>
    ensures whole { OnOk result (Appends (W.contents w.old) (W.contents w.new) bytes.now) }
    ensures within { IfErr result (λ fault. fault.sent ≤ length bytes.now) }
    ensures part { IfErr result (λ fault.
        Appends (W.contents w.old) (W.contents w.new) (take fault.sent bytes.now)) }
{
    send(w, bytes)?;
    w.flush().map_err(|_| WriteFault { sent: bytes.len() })
}

/// Writes the pieces of a text, one after the other, and flushes nothing. What is answered is how many bytes went out in all,
/// with those that had gone out before; the fault says so too. It fails as well where there is no number for so many bytes.
pub fn send_pieces<W: Write>(
    w: &mut W,
    before: usize,
    pieces: &[Vec<u8>],
) -> Result<usize, WriteFault>
    ensures count { IfOk result (λ sent. sent ≡ before + length (text_of_pieces pieces.now)) }
    ensures whole { OnOk result (Appends (W.contents w.old) (W.contents w.new) (text_of_pieces pieces.now)) }
    ensures part { IfErr result (λ fault. SendsPart before (text_of_pieces pieces.now) fault.sent
        (W.contents w.old) (W.contents w.new)) }
{
    let mut sent = before;
    for piece in pieces {
        sent = send_after(w, sent, piece)?;
    }
    Ok(sent)
}

// Writes bytes behind so many that had gone out, and counts them all.
fn send_after<W: Write>(w: &mut W, before: usize, bytes: &[u8]) -> Result<usize, WriteFault>
    ensures count { IfOk result (λ sent. sent ≡ before + length bytes.now) }
    ensures whole { OnOk result (Appends (W.contents w.old) (W.contents w.new) bytes.now) }
    ensures part { IfErr result (λ fault. SendsPart before bytes.now fault.sent
        (W.contents w.old) (W.contents w.new)) }
{
    let Some(all) = before.checked_add(bytes.len()) else {
        return Err(WriteFault { sent: before });
    };
    match send(w, bytes) {
        Ok(()) => Ok(all),
        Err(fault) => Err(WriteFault {
            sent: before + fault.sent,
        }),
    }
}

// Writes the bytes, and flushes nothing.
fn send<W: Write>(w: &mut W, bytes: &[u8]) -> Result<(), WriteFault>
    ensures whole { OnOk result (Appends (W.contents w.old) (W.contents w.new) bytes.now) }
    ensures within { IfErr result (λ fault. fault.sent ≤ length bytes.now) }
    ensures part { IfErr result (λ fault.
        Appends (W.contents w.old) (W.contents w.new) (take fault.sent bytes.now)) }
{
    let mut sent = 0;
    while sent < bytes.len() {
        match w.write(&bytes[sent..]) {
            Ok(taken) if taken > 0 => sent += taken,
            _ => return Err(WriteFault { sent }),
        }
    }
    Ok(())
}
