//! A question over feeds and the changes in a store.
ghost use Rattle.std.specs.Prelude.{◌≡◌, ◌≤◌, map, vec_len, IfOk, IfErr};
ghost use Rattle.sqlite_trees.specs.View.{IsClean};
ghost use Rattle.cube_store.specs.Calls.{IsntReopened};
ghost use Rattle.cube_store.specs.Codes.{IsToldOf, TellsFailedCall};
ghost use Rattle.cube_store.specs.Rows.{entries_of};
ghost use Rattle.cube_store.specs.State.{IsStore, IsUnmade};
ghost use Rattle.cube_tool.specs.Answering.{Fits};
ghost use Rattle.cube_tool.specs.Run.{OfFeeds};
ghost use Rattle.cube_store_commands.specs.Asking.{AnswersStored, LeavesOfText, LeavesSame};
ghost use Rattle.cube_store_commands.specs.Stored.{IfStoreRefused, LeavesUnwritten};

use crate::failure::StoredFailure;
use crate::feeds::StoredFeeds;
use crate::question::answer_over;
use crate::session::resume_made;
use cube_build::{Gate, Settings};
use cube_core::Schema;
use cube_live::open_unsettled;
use cube_tool::Reporter;
use cube_tool::command::{Failure, Question, Status, Terms};
use sqlite_trees::store::Store;
use std::alloc::Global;
use std::io::{Read, Write};
use std::sync::Wait;
use std::thread::Threads;

/// Writes the answer to a question on terms over at most 64 feeds, which are taken first, each read on a thread of its own,
/// and the changes of an open store, which are taken after them in their order.
///
/// The text is that of the question over the facts of which all conditions hold, of those that survive in the feeds and the
/// stored changes, and the status tells whether a line of a feed or a stored change was refused. Where none may be, the first
/// refusal is a failure, once all were taken and before anything is written. The store, which is given back in any case, has
/// the changes that it had, and nothing is written to it: one without a row is refused. Nothing was written out on a failure,
/// whatever the disk did, but where the writing failed: then the first bytes went out, as many as the failure says.
///
/// A store of changes and of these notes that has a row is refused only where a call fails, or where it has more changes of a
/// source than the schema takes; what is told of one that isn't taken is why.
pub fn ask_stored<
    T: Threads + Wait + Sync,
    R: Read + Drop + Send,
    G: Gate + Reporter + Sync,
    S: Store,
    W: Write,
>(
    rt: &T,
    alloc: Global,
    schema: &Schema,
    feeds: StoredFeeds<R, S>,
    settings: &Settings,
    question: &Question,
    terms: &Terms,
    watcher: &G,
    out: &mut W,
) -> Result<(Status, S), (StoredFailure, S)>
    requires readers { vec_len feeds.readers ≤ 64 }
    requires question { Fits schema.now question.now }
    ensures ok { IfOk result (λ r. IsClean (S.Store.view r.1) → OfFeeds schema.now (map R.Read.remaining feeds.readers.items) (λ items.
        AnswersStored terms.now question.now schema.now items (S.Store.view feeds.store) (entries_of feeds.notes.items) r.0
        (S.Store.view r.1) (S.Store.recovers r.1) (W.contents out.old) (W.contents out.new))) }
    ensures written { IfErr result (λ e. IsClean (S.Store.view e.1) → LeavesOfText terms.now question.now schema.now
        (map R.Read.remaining feeds.readers.items) (S.Store.view feeds.store) e.0 (W.contents out.old) (W.contents out.new)) }
    ensures cause { IfErr result (λ e. IsClean (S.Store.view e.1) →
        IfStoreRefused (IsToldOf (IsntReopened S.Store feeds.store e.1 (entries_of feeds.notes.items))) e.0) }
    ensures accepts { IfErr result (λ e. IsClean (S.Store.view e.1) →
        IsStore (S.Store.view feeds.store) (entries_of feeds.notes.items) × (¬ IsUnmade (S.Store.view feeds.store)) →
        IfStoreRefused TellsFailedCall e.0) }
    ensures unwritten { IfErr result (λ e. LeavesUnwritten e.0 (W.contents out.old) (W.contents out.new)) }
    ensures same { IfOk result (λ r. LeavesSame (S.Store.recovers feeds.store) (S.Store.recovers r.1)) }
    ensures unharmed { IfErr result (λ e. LeavesSame (S.Store.recovers feeds.store) (S.Store.recovers e.1)) }
{
    let StoredFeeds {
        readers,
        notes,
        store,
    } = feeds;
    let live = match open_unsettled(rt, alloc, schema, readers, settings, watcher) {
        Ok(live) => live,
        Err(fault) => return Err((StoredFailure::Failure(Failure::from(fault)), store)),
    };
    match resume_made(alloc, live, store, &notes) {
        Ok((live, journal)) => {
            let store = journal.into_store();
            let threads = settings.threads();
            match answer_over(rt, alloc, live, threads, question, terms, watcher, out) {
                Ok(status) => Ok((status, store)),
                Err(failure) => Err((StoredFailure::Failure(failure), store)),
            }
        }
        Err((fault, store)) => Err((StoredFailure::from(fault), store)),
    }
}
