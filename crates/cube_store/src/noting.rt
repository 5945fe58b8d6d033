//! The note on a feed.
ghost use Rattle.std.specs.Prelude.{◌≡◌, ◌<◌, ◌≤◌, length, take, IfOk, IfSome};
ghost use Rattle.std.specs.Io.KnownBytes.{Consumes, IsAtEnd};
ghost use Rattle.cube_store.specs.Noting.{IsNoteOf};

use crate::note::FeedNote;
use sha2::{Digest, Sha256};
use std::alloc::Global;
use std::io::Read;

/// So many bytes are read at once.
const PIECE_BYTES: usize = 65536;

/// Why there is no note.
#[derive(Clone, Copy, Debug, PartialEq, Eq)]
pub enum NoteFault {
    /// The bytes couldn't be read to their end.
    Read,
    /// A growth was refused.
    Memory,
}

/// What is to be noted of a feed, or of the schema's file: its bytes are read to their end, counted
/// and hashed.
pub fn note_of<R: Read>(alloc: Global, reader: &mut R) -> Result<FeedNote, NoteFault>
    ensures { IfOk result (λ note. IfSome (R.remaining reader.old) (IsNoteOf note)) }
{
    let Ok(mut piece) = vec![in alloc; 0u8; PIECE_BYTES] else {
        return Err(NoteFault::Memory);
    };
    let mut hasher = Sha256::new();
    let mut total = 0u64;
    for _ in 0..u64::MAX {
        let count = next_piece(reader, &mut piece)?;
        if count == 0 {
            return Ok(FeedNote {
                length: total,
                digest: hasher.finalize(),
            });
        }
        let Some(more) = total.checked_add(count as u64) else {
            return Err(NoteFault::Read);
        };
        hasher.update(&piece[..count]);
        total = more;
    }
    Err(NoteFault::Read)
}

// Reads bytes over the first of a piece, none at the end alone.
fn next_piece<R: Read>(reader: &mut R, piece: &mut [u8]) -> Result<usize, NoteFault>
    requires { 0 < length piece.old }
    ensures within { IfOk result (λ count. count ≤ length piece.new) }
    ensures takes { IfOk result (λ count.
        Consumes (R.remaining reader.old) (R.remaining reader.new) (take count piece.new)) }
    ensures end { IfOk result (λ count. count ≡ 0 → IsAtEnd (R.remaining reader.new)) }
    ensures size { length piece.new ≡ length piece.old }
{
    match reader.read(piece) {
        Ok(count) => Ok(count),
        Err(_) => Err(NoteFault::Read),
    }
}
