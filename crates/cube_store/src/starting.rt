//! A journal over a store's files.
ghost use Rattle.std.specs.Prelude.{◌⊎◌, IsTrue, IfOk, IfErr};
ghost use Rattle.sqlite_wal.specs.Recovery.{Image};
ghost use Rattle.sqlite_wal.specs.Reads.{AreClean};
ghost use Rattle.sqlite_trees.specs.Tree.{Trees};
ghost use Rattle.sqlite_trees.specs.View.{View, IsClean};
ghost use Rattle.sqlite_store.specs.FileStore.{state, view, recovers};
ghost use Rattle.cube_store.specs.Rows.{entries_of};
ghost use Rattle.cube_store.specs.State.{IsStore, IsUnmade, FindsNoted, Starts};
ghost use Rattle.cube_store.specs.Closing.{IsCopied, IsUnharmed, LeavesOneFile, IsEmptied};
ghost use Rattle.cube_store.specs.Codes.{TellsFailedCall, IsToldOf};
ghost use Rattle.cube_store.specs.Found.{StoreIn, IsFound};
ghost use Rattle.cube_store.specs.Calls.{HasCommitted, IsHonest, Shown, LeavesNoMore};
ghost use Rattle.cube_store.specs.Calls.{MayLeaveNotes, HandsOver, IsntStarted, IsntReopened};

use crate::begin::{open_made, open_or_make};
use crate::files::page_size;
use crate::form::form_of;
use crate::journal::ChangeJournal;
use crate::note::FeedNote;
use crate::sink::ChangeSink;
use crate::store_fault::{CallFault, StoreFault};
use crate::tables::schema;
use sqlite_disk::{Disk, Files};
use sqlite_store::FileStore;
use sqlite_trees::store::Store;
use std::alloc::{AllocError, Global};

/// Starts on an open store: notes what the feeds are where it has no row; else it must have these
/// notes, and its changes are handed over in their order.
///
/// A store of changes and of these notes, or one without a row, is refused only where a call fails.
/// An error gives the store back.
pub fn start<S: Store, K: ChangeSink>(
    alloc: Global,
    store: S,
    notes: &[FeedNote],
    sink: &mut K,
) -> Result<ChangeJournal<S>, (StoreFault, S)>
    ensures found { IfOk result (λ j. Shown S.Store store j.store (Starts (entries_of notes.now))) }
    ensures taken { IfOk result (λ j.
        HandsOver S.Store K.ChangeSink.takes sink.old j.store sink.new) }
    ensures crash { IfOk result (λ j. MayLeaveNotes S.Store (entries_of notes.now) store j.store) }
    ensures unharmed { IfErr result (λ e. MayLeaveNotes S.Store (entries_of notes.now) store e.1) }
    ensures cause { IfErr result (λ e. IsHonest S.Store e.1
        → IsToldOf (IsntStarted S.Store store e.1 notes.now) e.0) }
    ensures accepts { IfErr result (λ e. IsHonest S.Store e.1
        → IsStore (S.Store.view store) (entries_of notes.now) ⊎ IsUnmade (S.Store.view store)
        → TellsFailedCall e.0) }
{
    match open_or_make(alloc, store, notes, sink) {
        Ok(journal) => Ok(journal),
        Err((fault, store)) => Err((StoreFault::from(fault), store)),
    }
}

/// Starts on an open store that was made before, as `start` does, and writes nothing: it must have
/// these notes, and one without a row is refused.
///
/// A store of changes and of these notes is refused only where a call fails. An error gives the
/// store back.
pub fn start_made<S: Store, K: ChangeSink>(
    alloc: Global,
    store: S,
    notes: &[FeedNote],
    sink: &mut K,
) -> Result<ChangeJournal<S>, (StoreFault, S)>
    ensures found { IfOk result (λ j.
        Shown S.Store store j.store (FindsNoted (entries_of notes.now))) }
    ensures made { IfOk result (λ j. IsHonest S.Store j.store → ¬ IsUnmade (S.Store.view store)) }
    ensures taken { IfOk result (λ j.
        HandsOver S.Store K.ChangeSink.takes sink.old j.store sink.new) }
    ensures crash { IfOk result (λ j. LeavesNoMore S.Store store j.store) }
    ensures unharmed { IfErr result (λ e. LeavesNoMore S.Store store e.1) }
    ensures cause { IfErr result (λ e. IsHonest S.Store e.1
        → IsToldOf (IsntReopened S.Store store e.1 (entries_of notes.now)) e.0) }
    ensures accepts { IfErr result (λ e. IsHonest S.Store e.1
        → IsStore (S.Store.view store) (entries_of notes.now) × (¬ IsUnmade (S.Store.view store))
        → TellsFailedCall e.0) }
{
    match open_made(alloc, store, notes, sink) {
        Ok(journal) => Ok(journal),
        Err((fault, left)) => Err((StoreFault::from(fault), left)),
    }
}

/// Whether the store still has the pages and the two tables that `open_files` opens, which nothing
/// here changes. Then each image that a crash at this moment may leave is a store's, and what the
/// next opening finds is what the store says that a crash may leave: while no fault has shut it,
/// what the last commit has.
pub fn next_open<D: Disk>(journal: &ChangeJournal<FileStore<D>>) -> Result<bool, AllocError>
    ensures accepts { IfOk result (λ same. IsTrue same
        → (left : Image) → (state journal.now.store).may_leave left → ∥ StoreIn left ∥₁) }
    ensures found { IfOk result (λ same. IsTrue same → (left : Image)
        → (state journal.now.store).may_leave left → (v : View) → IsFound left v
        → (db : Trees) × recovers journal.now.store db × HasCommitted v db) }
{
    let store = journal.store();
    store.is_over(page_size(), &schema(form_of(store)))
}

/// Copies the log into the file, so that one file is left, and gives the store back, whose `close`
/// gives the two files. What isn't committed is lost with the journal.
///
/// An error gives the store back too: out of memory, a fault of the disk, or one that broke the
/// store before. What a crash leaves then it could leave before.
pub fn copy_log<D: Disk>(
    journal: ChangeJournal<FileStore<D>>,
) -> Result<FileStore<D>, (CallFault, FileStore<D>)>
    ensures copied { IfOk result (λ it. IsClean (view it) → IsCopied journal.store it) }
    ensures emptied { IfOk result (λ it. IsEmptied journal.store it) }
    ensures unharmed { IfErr result (λ e. IsUnharmed journal.store e.1 e.0) }
{
    let mut store = journal.into_store();
    match store.checkpoint() {
        Ok(()) => Ok(store),
        Err(error) => Err((CallFault::from(error), store)),
    }
}

/// Copies the log into the file, as `copy_log` does, and gives the two files: the database file
/// alone is the store then, without the log. What isn't committed is lost.
///
/// An error gives the store back. What a crash leaves then it could leave before.
pub fn close<D: Disk>(
    journal: ChangeJournal<FileStore<D>>,
) -> Result<Files<D>, (CallFault, FileStore<D>)>
    ensures left { IfOk result (λ it. AreClean D.Disk it.log it.db
        → LeavesOneFile journal.store it.log it.db) }
    ensures unharmed { IfErr result (λ e. IsUnharmed journal.store e.1 e.0) }
{
    match copy_log(journal) {
        Ok(store) => Ok(store.close()),
        Err(refused) => Err(refused),
    }
}
