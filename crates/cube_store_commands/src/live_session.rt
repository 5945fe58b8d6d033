//! The command that keeps a cube right, and its changes in a store.
ghost use Rattle.std.specs.Prelude.{◌≤◌, ◌⊎◌, map, option_map, vec_len, IfOk, IfErr, IfSome};
ghost use Rattle.sqlite_trees.specs.View.{IsClean};
ghost use Rattle.cube_core.specs.Records.{records_of};
ghost use Rattle.cube_store.specs.Calls.{IsntStarted};
ghost use Rattle.cube_store.specs.Codes.{IsToldOf, TellsFailedCall};
ghost use Rattle.cube_store.specs.Rows.{entries_of};
ghost use Rattle.cube_store.specs.State.{IsStore, IsUnmade};
ghost use Rattle.cube_tool.specs.Run.{OfFeeds};
ghost use Rattle.cube_store_commands.specs.Stored.{FailsToServeStored, IfStoreRefused, LeavesUnwritten, ServesStoredOver};

use crate::failure::StoredFailure;
use crate::feeds::{SessionInput, StoredFeeds};
use crate::session::serve_stored;
use cube_build::{Gate, Settings};
use cube_core::Schema;
use cube_feed::RecordReader;
use cube_live::{Rests, open_unsettled};
use cube_store::ChangeJournal;
use cube_tool::Reporter;
use cube_tool::command::{Failure, Status, status_after};
use sqlite_trees::store::Store;
use std::alloc::Global;
use std::io::{Read, Write};
use std::sync::Wait;
use std::thread::Threads;

/// Takes at most 64 feeds as `live` does, then the changes of an open store in their order, numbered on from the records of
/// the feeds, and then the records of the input.
///
/// Each change is in the store before it is applied, and certain before a byte of a later answer goes out; `input.commits` says
/// when it is else. The answers are those of a session over the feeds in which the stored changes stood before the first
/// record. What is left of the store in any case is given back: to be closed by `close` where the session ended well, which
/// leaves one file.
///
/// Where a feed is at fault or the store isn't taken nothing was written, whatever the disk did. A store of changes and of these
/// notes, or one without a row, is refused only where a call fails, or where it has more changes of a source than the schema
/// takes; what is told of one that isn't taken is why.
pub fn live_stored<
    T: Threads + Wait + Sync,
    R: Read + Drop + Send,
    G: Gate + Reporter + Sync,
    S: Store,
    I: Read + Drop,
    P: Rests + Drop,
    W: Write,
>(
    rt: &T,
    alloc: Global,
    schema: &Schema,
    feeds: StoredFeeds<R, S>,
    settings: &Settings,
    watcher: &G,
    input: SessionInput<I, P>,
    out: &mut W,
) -> Result<(Status, ChangeJournal<S>), (StoredFailure, S)>
    requires readers { vec_len feeds.readers ≤ 64 }
    requires waiting { 1 ≤ input.commits.most_waiting }
    ensures ok { IfOk result (λ r. IsClean (S.Store.view r.1.store) → OfFeeds schema.now (map R.Read.remaining feeds.readers.items) (λ items.
        IfSome (option_map records_of (I.remaining input.reader)) (λ records. ServesStoredOver schema.now items (S.Store.view feeds.store) (entries_of feeds.notes.items) records r.0
        (S.Store.view r.1.store) (S.Store.recovers r.1.store) (W.contents out.old) (W.contents out.new)))) }
    ensures err { IfErr result (λ e. IsClean (S.Store.view e.1) → FailsToServeStored schema.now (map R.Read.remaining feeds.readers.items)
        (option_map records_of (I.remaining input.reader)) (S.Store.view feeds.store) (entries_of feeds.notes.items) (S.Store.recovers feeds.store) (S.Store.recovers e.1) e.0 (W.contents out.old) (W.contents out.new)) }
    ensures cause { IfErr result (λ e. IsClean (S.Store.view e.1) →
        IfStoreRefused (IsToldOf (IsntStarted S.Store feeds.store e.1 feeds.notes.items)) e.0) }
    ensures accepts { IfErr result (λ e. IsClean (S.Store.view e.1) →
        IsStore (S.Store.view feeds.store) (entries_of feeds.notes.items) ⊎ IsUnmade (S.Store.view feeds.store) →
        IfStoreRefused TellsFailedCall e.0) }
    ensures unwritten { IfErr result (λ e. LeavesUnwritten e.0 (W.contents out.old) (W.contents out.new)) }
{
    let StoredFeeds {
        readers,
        notes,
        store,
    } = feeds;
    let live = match open_unsettled(rt, alloc, schema, readers, settings, watcher) {
        Ok(live) => live,
        Err(fault) => return Err((StoredFailure::Failure(Failure::from(fault)), store)),
    };
    watcher.begins_serving();
    let SessionInput { reader, commits } = input;
    let mut records = RecordReader::new(alloc, reader, b',');
    let served = serve_stored(rt, alloc, live, store, &notes, &mut records, commits, out);
    drop(records);
    match served {
        Ok((live, journal)) => Ok((status_after(live.ledger()), journal.into_journal())),
        Err((fault, store)) => Err((StoredFailure::from(fault), store)),
    }
}
