//! The making of a store: what the feeds are is noted, in one commit, before the first change.
ghost use Rattle.std.specs.Prelude.{◌≡◌, [], ◌<◌, ◌^◌, IfOk, IfErr, OnOk};
ghost use Rattle.cube_store.specs.Rows.{entries_of};
ghost use Rattle.cube_store.specs.State.{stored_form, MakesJournal, IsCause};
ghost use Rattle.cube_store.specs.Making.{WritesNotes, CantNoteAt, IsMade, IsBlank, TellsUnmade};
ghost use Rattle.cube_store.specs.Calls.{PutsNote, TellsEmpty, TellBothEmpty, IsUnnotable};
ghost use Rattle.cube_store.specs.Calls.{IsHonest, Shown, HasFaulted, IsQuietCall, HasTable};
ghost use Rattle.cube_store.specs.Calls.{MakesOrLeaves, CantWrite, CantRead, CantLook, CantPut};
ghost use Rattle.cube_store.specs.Calls.{IsntMade};

use crate::cursor::{begin, step};
use crate::fault::OpenFault;
use crate::form::NO_DIGEST;
use crate::journal::{CHANGES, ChangeJournal, FEEDS};
use crate::note::FeedNote;
use crate::opening::has_tables;
use crate::row::fill;
use sqlite_trees::error::StoreError;
use sqlite_trees::store::{Shape, Store};
use sqlite_value::row::Row;
use std::alloc::Global;

/// Past the longest feed of which a note can be stored.
const MAX_LENGTH: u64 = 1 << 63;

/// Whether a table has no row.
fn is_empty<S: Store>(store: &mut S, row: &mut Row, tree: u32) -> Result<bool, StoreError>
    requires { HasTable S.Store store.old tree }
    ensures found { IfOk result (λ empty.
        Shown S.Store store.old store.new (TellsEmpty tree empty)) }
    ensures cause { IsHonest S.Store store.new
        → IfErr result (CantRead S.Store store.old store.new) }
    ensures quiet { IsQuietCall S.Store store.old store.new }
{
    begin(store, row, tree)?;
    Ok(!step(store, row)?)
}

/// Puts the row of a note into the table.
fn put_note<S: Store>(
    store: &mut S,
    row: &mut Row,
    number: u64,
    note: &FeedNote,
) -> Result<(), StoreError>
    requires table { HasTable S.Store store.old 1 }
    requires number { number < 2 ^ 63 }
    ensures ok { OnOk result (Shown S.Store store.old store.new (PutsNote number note.now)) }
    ensures cause { IsHonest S.Store store.new → IfErr result (CantWrite S.Store store.old store.new
        (CantNoteAt ((S.Store.view store.old).reals 1) number note.now)) }
    ensures quiet { IsQuietCall S.Store store.old store.new }
{
    if note.length >= MAX_LENGTH {
        return Err(StoreError::Unstorable);
    }
    fill(row, number, note.length, note.digest.as_slice())?;
    store.put(FEEDS, row)
}

/// Whether both tables have no row.
fn are_empty<S: Store>(store: &mut S, row: &mut Row) -> Result<bool, StoreError>
    requires changes { HasTable S.Store store.old 0 }
    requires feeds { HasTable S.Store store.old 1 }
    ensures found { IfOk result (λ empty.
        Shown S.Store store.old store.new (TellBothEmpty empty)) }
    ensures cause { IsHonest S.Store store.new
        → IfErr result (CantRead S.Store store.old store.new) }
    ensures quiet { IsQuietCall S.Store store.old store.new }
{
    if !is_empty(store, row, CHANGES)? {
        return Ok(false);
    }
    is_empty(store, row, FEEDS)
}

/// Puts the rows of all notes into a table that has none.
fn put_notes<S: Store>(store: &mut S, row: &mut Row, notes: &[FeedNote]) -> Result<(), StoreError>
    requires table { HasTable S.Store store.old 1 }
    requires none { IsHonest S.Store store.old → (S.Store.view store.old).trees 1 ≡ [] }
    ensures written { OnOk result (Shown S.Store store.old store.new
        (λ old new. WritesNotes old new (entries_of notes.now))) }
    ensures cause { IsHonest S.Store store.new
        → IfErr result (CantPut S.Store store.old store.new (IsUnnotable notes.now)) }
    ensures quiet { IsQuietCall S.Store store.old store.new }
{
    'notes: for at in 0..notes.len() {
        put_note(store, row, at as u64, &notes[at])?;
    }
    Ok(())
}

/// Puts the notes into two empty tables, and commits them.
fn write_notes<S: Store>(store: &mut S, row: &mut Row, notes: &[FeedNote]) -> Result<(), StoreError>
    requires { IsHonest S.Store store.old → IsBlank (S.Store.view store.old) }
    ensures made { OnOk result (Shown S.Store store.old store.new
        (λ old new. IsMade (stored_form old) new (entries_of notes.now))) }
    ensures left { MakesOrLeaves S.Store (entries_of notes.now) store.old store.new }
    ensures cause { IsHonest S.Store store.new → IfErr result
        (IsCause (HasFaulted S.Store store.old store.new) ⊥ (IsUnnotable notes.now)) }
{
    put_notes(store, row, notes)?;
    store.commit()
}

/// Whether a store has no row: it was left after its tables were made and before the feeds were
/// noted.
///
/// What isn't committed is let go; what is committed, and what a crash may leave, stays as it was.
pub(crate) fn is_unmade<S: Store>(alloc: Global, store: &mut S) -> Result<bool, StoreError>
    ensures found { IfOk result (λ unmade. Shown S.Store store.old store.new
        (λ old new. TellsUnmade old new unmade)) }
    ensures cause { IsHonest S.Store store.new
        → IfErr result (CantLook S.Store store.old store.new) }
    ensures quiet { IsQuietCall S.Store store.old store.new }
{
    store.rollback();
    if !has_tables(store) {
        return Ok(false);
    }
    let mut row = Row::new(alloc);
    are_empty(store, &mut row)
}

/// Makes a store in two tables that have no row: notes what the schema's file and the feeds are, in
/// one commit.
///
/// A crash leaves what it left before, or the notes and no change. An error gives the store back.
pub(crate) fn make<S: Store>(
    alloc: Global,
    mut store: S,
    notes: &[FeedNote],
) -> Result<ChangeJournal<S>, (OpenFault, S)>
    requires { IsHonest S.Store store → IsBlank (S.Store.view store) }
    ensures made { IfOk result (λ j.
        Shown S.Store store j.store (MakesJournal (entries_of notes.now))) }
    ensures counts { IfOk result (λ j. j.committed ≡ j.count) }
    ensures left { IfOk result (λ j. MakesOrLeaves S.Store (entries_of notes.now) store j.store) }
    ensures left_err { IfErr result (λ e. MakesOrLeaves S.Store (entries_of notes.now) store e.1) }
    ensures cause { IfErr result (λ e. IsHonest S.Store e.1
        → IsntMade S.Store store e.1 notes.now e.0) }
{
    let mut row = Row::new(alloc);
    match write_notes(&mut store, &mut row, notes) {
        Ok(()) => Ok(ChangeJournal {
            store,
            row,
            count: 0,
            committed: 0,
            digest: NO_DIGEST,
            committed_digest: NO_DIGEST,
        }),
        Err(error) => Err((OpenFault::Store(error), store)),
    }
}
