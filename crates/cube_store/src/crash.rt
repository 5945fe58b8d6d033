//! What the next opening finds after a crash.
ghost use Rattle.std.specs.Prelude.{◌≡◌, IsTrue, IfOk, IfErr};
ghost use Rattle.sqlite_trees.specs.Tree.{Trees};
ghost use Rattle.cube_store.specs.Rows.{entries_of};
ghost use Rattle.cube_store.specs.State.{stored_in, IsFailedCall};
ghost use Rattle.cube_store.specs.Calls.{HasChanges, IsHonest, Shown, HasFaulted, LeavesStores};
ghost use Rattle.cube_store.specs.Calls.{HandsOver, IsntFound};

use crate::fault::OpenFault;
use crate::journal::ChangeJournal;
use crate::note::FeedNote;
use crate::opening::open;
use crate::sink::ChangeSink;
use sqlite_trees::store::Reopen;
use std::alloc::Global;

/// What the next opening finds after a crash at this moment, of a store that can be made to crash:
/// the changes of one of the outcomes that the store says a crash may leave, and while no fault has
/// shut it those of the last commit.
///
/// Where each outcome is a store of changes and of these notes, it is refused only where a call
/// fails.
pub fn crash_and_open<S: Reopen, K: ChangeSink>(
    alloc: Global,
    journal: ChangeJournal<S>,
    notes: &[FeedNote],
    sink: &mut K,
) -> Result<ChangeJournal<S>, (OpenFault, S)>
    ensures found { IfOk result (λ j. IsHonest S.Store j.store
        → (db : Trees) × S.Store.recovers journal.store db × HasChanges (S.Store.view j.store) db) }
    ensures last { IfOk result (λ j. Shown S.Store journal.store j.store
        (λ old new. IsTrue old.is_open → stored_in new ≡ stored_in old)) }
    ensures taken { IfOk result (λ j.
        HandsOver S.Store K.ChangeSink.takes sink.old j.store sink.new) }
    ensures cause { IfErr result (λ e. IsHonest S.Store e.1
        → IsntFound S.Store journal.store e.1 (entries_of notes.now) e.0) }
    ensures accepts { IfErr result (λ e. IsHonest S.Store e.1
        → LeavesStores S.Store journal.store (entries_of notes.now)
        → IsFailedCall (HasFaulted S.Store journal.store e.1) e.0) }
{
    let mut store = journal.into_store();
    if let Err(error) = store.crash_and_reopen() {
        return Err((OpenFault::Store(error), store));
    }
    open(alloc, store, notes, sink)
}
