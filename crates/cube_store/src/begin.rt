//! The start on a store: it is made, or the one that is there is opened.
ghost use Rattle.std.specs.Prelude.{◌≡◌, ◌⊎◌, IfOk, IfErr};
ghost use Rattle.cube_store.specs.Rows.{entries_of};
ghost use Rattle.cube_store.specs.State.{IsStore, IsUnmade, FailsToStart, FindsNoted, Starts};
ghost use Rattle.cube_store.specs.Calls.{IsUnnotable, IsHonest, Shown, HasFaulted, Remembers};
ghost use Rattle.cube_store.specs.Calls.{LeavesNoMore, MayLeaveNotes, HandsOver, IsntStarted};
ghost use Rattle.cube_store.specs.Calls.{IsntReopened};

use crate::fault::OpenFault;
use crate::journal::ChangeJournal;
use crate::making::{is_unmade, make};
use crate::note::FeedNote;
use crate::opening::open;
use crate::sink::ChangeSink;
use sqlite_trees::store::Store;
use std::alloc::Global;

/// Makes a store with these notes where its two tables have no row; else opens the one that is
/// there, which must have these notes, and hands the changes of its last commit over in their
/// order.
///
/// A crash leaves what it left before or, where there was no row, the notes alone. A store of
/// changes and of these notes, or one without a row, is refused only where a call on it fails, or
/// where a note can't be stored. An error gives the store back.
pub fn open_or_make<S: Store, K: ChangeSink>(
    alloc: Global,
    mut store: S,
    notes: &[FeedNote],
    sink: &mut K,
) -> Result<ChangeJournal<S>, (OpenFault, S)>
    ensures found { IfOk result (λ j. Shown S.Store store j.store (Starts (entries_of notes.now))) }
    ensures taken { IfOk result (λ j.
        HandsOver S.Store K.ChangeSink.takes sink.old j.store sink.new) }
    ensures counts { IfOk result (λ j. j.committed ≡ j.count) }
    ensures crash { IfOk result (λ j. MayLeaveNotes S.Store (entries_of notes.now) store j.store) }
    ensures unharmed { IfErr result (λ e. MayLeaveNotes S.Store (entries_of notes.now) store e.1) }
    ensures on { IfOk result (λ j. Remembers S.Store store j.store) }
    ensures on_err { IfErr result (λ e. Remembers S.Store store e.1) }
    ensures cause { IfErr result (λ e. IsHonest S.Store e.1
        → IsntStarted S.Store store e.1 notes.now e.0) }
    ensures accepts { IfErr result (λ e. IsHonest S.Store e.1
        → IsStore (S.Store.view store) (entries_of notes.now) ⊎ IsUnmade (S.Store.view store)
        → FailsToStart (HasFaulted S.Store store e.1) (IsUnnotable notes.now) e.0) }
{
    match is_unmade(alloc, &mut store) {
        Ok(true) => make(alloc, store, notes),
        Ok(false) => open(alloc, store, notes, sink),
        Err(error) => Err((OpenFault::Store(error), store)),
    }
}

/// Opens a store that was made before, which must have these notes, and hands the changes of its
/// last commit over in their order. One whose two tables have no row is refused, as one without the
/// tables is.
///
/// Nothing is written: a crash leaves what it left before. A store of changes and of these notes is
/// refused only where a call on it fails. An error gives the store back.
pub fn open_made<S: Store, K: ChangeSink>(
    alloc: Global,
    mut store: S,
    notes: &[FeedNote],
    sink: &mut K,
) -> Result<ChangeJournal<S>, (OpenFault, S)>
    ensures found { IfOk result (λ j.
        Shown S.Store store j.store (FindsNoted (entries_of notes.now))) }
    ensures made { IfOk result (λ j. IsHonest S.Store j.store → ¬ IsUnmade (S.Store.view store)) }
    ensures taken { IfOk result (λ j.
        HandsOver S.Store K.ChangeSink.takes sink.old j.store sink.new) }
    ensures crash { IfOk result (λ j. LeavesNoMore S.Store store j.store) }
    ensures unharmed { IfErr result (λ e. LeavesNoMore S.Store store e.1) }
    ensures cause { IfErr result (λ e. IsHonest S.Store e.1
        → IsntReopened S.Store store e.1 (entries_of notes.now) e.0) }
    ensures accepts { IfErr result (λ e. IsHonest S.Store e.1
        → IsStore (S.Store.view store) (entries_of notes.now) → ¬ IsUnmade (S.Store.view store)
        → FailsToStart (HasFaulted S.Store store e.1) ⊥ e.0) }
{
    match is_unmade(alloc, &mut store) {
        Ok(true) => Err((OpenFault::NoTables, store)),
        Ok(false) => open(alloc, store, notes, sink),
        Err(error) => Err((OpenFault::Store(error), store)),
    }
}
