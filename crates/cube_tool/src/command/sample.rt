//! The program without words: a run under the sample schema.
ghost use Rattle.std.specs.Prelude.{◌≡◌, [], ◌∷◌, IfOk, IfErr};
ghost use Rattle.cube_core.specs.Layout.{sample_layout};
ghost use Rattle.cube_tool.specs.Answering.{SampleLeaves, status_over};
ghost use Rattle.cube_tool.specs.Run.{IsTextOf, OfFeeds, Wrote};

use crate::command::failure::Failure;
use crate::command::status::{Status, status_after};
use crate::fault::RunFault;
use crate::question::Question;
use crate::runs::run_plain;
use cube_core::{HashKey, Schema, SchemaFault};
use std::alloc::{AllocError, Global};
use std::io::{Read, Write};

/// Writes the printed cube of a feed under the sample schema, on the caller's thread; ids and texts are hashed under the key.
///
/// The status tells whether a line of the feed was refused. Nothing was written on a failure, but where the writing
/// failed: then the first bytes went out, as many as the failure says.
pub fn run_sample<R: Read + Drop, W: Write>(
    alloc: Global,
    key: HashKey,
    feed: R,
    out: &mut W,
) -> Result<Status, Failure>
    ensures ok { IfOk result (λ status. OfFeeds sample_layout (R.Read.remaining feed ∷ []) (λ feeds.
        Wrote (IsTextOf Question.Cube sample_layout feeds) (W.contents out.old) (W.contents out.new)
        × (status ≡ status_over sample_layout feeds))) }
    ensures err { IfErr result (λ failure. SampleLeaves sample_layout (R.Read.remaining feed ∷ [])
        failure (W.contents out.old) (W.contents out.new)) }
{
    let Ok(schema) = Schema::sample(alloc) else {
        return Err(Failure::Schema(SchemaFault::Memory));
    };
    let Ok(readers) = only(alloc, feed) else {
        return Err(Failure::Run(RunFault::Memory));
    };
    let schema = schema.with_hash_key(key);
    let builder = run_plain(alloc, &schema, readers, out)?;
    Ok(status_after(builder.ledger()))
}

// The readers of a run over one feed.
fn only<R: Read + Drop>(alloc: Global, feed: R) -> Result<Vec<R>, AllocError>
    ensures { IfOk result (λ readers. readers.items ≡ feed ∷ []) }
{
    let mut readers = Vec::new(alloc);
    readers.push(feed)?;
    Ok(readers)
}
