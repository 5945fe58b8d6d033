//! The opening of a store: its feeds are compared with what is noted, and its changes are handed
//! over.
ghost use Rattle.std.specs.Prelude.{◌≡◌, ◌↔◌, List, ◌<◌, ◌≤◌, ◌^◌, IsTrue, IfOk, IfErr, OnOk, ⊤};
ghost use Rattle.cube_store.specs.Rows.{Entry, entries_of, AreNotes};
ghost use Rattle.cube_store.specs.Reading.{HasTaken, IsntTaken, HasCompared, HasReplayed};
ghost use Rattle.cube_store.specs.State.{stored_in, noted_in, LeadsTo, Finds};
ghost use Rattle.cube_store.specs.Calls.{AreTables, IsHonest, Shown, IsQuietCall, HasTable};
ghost use Rattle.cube_store.specs.Calls.{IsntRead, IsntOpened};

use crate::cursor::{begin, step};
use crate::fault::OpenFault;
use crate::form::{DIGEST_BYTES, NO_DIGEST, RowForm, digest_after, form_of};
use crate::journal::{CHANGES, ChangeJournal, FEEDS, MAX_CHANGES};
use crate::note::FeedNote;
use crate::row::{ends_in, is_note, source_at};
use crate::sink::ChangeSink;
use sqlite_trees::sound::bytes_of;
use sqlite_trees::store::{Shape, Store};
use sqlite_value::row::Row;
use std::alloc::Global;

/// Whether a store has the two tables.
pub(crate) fn has_tables<S: Store>(store: &S) -> bool
    ensures { IsTrue result ↔ AreTables (S.Store.view store.now) }
{
    store.shape(CHANGES) == Shape::Table && store.shape(FEEDS) == Shape::Table
}

/// Compares what is noted with these notes.
fn compare<S: Store>(store: &mut S, row: &mut Row, notes: &[FeedNote]) -> Result<(), OpenFault>
    requires { HasTable S.Store store.old 1 }
    ensures seen { OnOk result (Shown S.Store store.old store.new
        (λ old new. HasCompared old new (entries_of notes.now))) }
    ensures cause { IsHonest S.Store store.new
        → IfErr result (IsntRead S.Store store.old store.new ⊤ (entries_of notes.now)) }
    ensures quiet { IsQuietCall S.Store store.old store.new }
{
    begin(store, row, FEEDS)?;
    'notes: for at in 0..notes.len() {
        let place = at as u64;
        if !step(store, row)? {
            return Err(OpenFault::Feed(place));
        }
        if !is_note(row, place, &notes[at]) {
            return Err(OpenFault::Feed(place));
        }
    }
    if step(store, row)? {
        return Err(OpenFault::Feed(notes.len() as u64));
    }
    Ok(())
}

/// Hands the change in a row over, if it is the row of the change with this number and, where rows
/// have digests, chained to the one before. The next is to be chained to what comes back.
fn take_row<K: ChangeSink>(
    row: &Row,
    form: RowForm,
    before: &[u8; DIGEST_BYTES],
    number: u64,
    sink: &mut K,
) -> Result<[u8; DIGEST_BYTES], OpenFault>
    requires { number < 2 ^ 63 }
    ensures taken { IfOk result
        (HasTaken K.ChangeSink.takes form before.now number row.now sink.old sink.new) }
    ensures cause { IfErr result (IsntTaken form before.now number row.now) }
{
    let Some(source) = source_at(row, form, number) else {
        return Err(OpenFault::Row(number));
    };
    let content = bytes_of(row.get(3));
    let digest = digest_after(form, before, number, source, content);
    if !ends_in(row, form, &digest) {
        return Err(OpenFault::Digest(number));
    }
    sink.take(source, content)?;
    Ok(digest)
}

/// Hands each change over in its order, counts them, and tells what the next is to be chained to.
fn replay<S: Store, K: ChangeSink>(
    store: &mut S,
    row: &mut Row,
    sink: &mut K,
) -> Result<(u64, [u8; DIGEST_BYTES]), OpenFault>
    requires { HasTable S.Store store.old 0 }
    ensures few { IfOk result (λ r. r.0 ≤ 2 ^ 62) }
    ensures read { IfOk result (λ r. Shown S.Store store.old store.new (λ old new.
        HasReplayed K.ChangeSink.takes old new r.0 r.1 sink.old sink.new)) }
    ensures cause { IsHonest S.Store store.new → IfErr result (λ e. (notes : List Entry)
        → IsntRead S.Store store.old store.new ⊤ notes e) }
    ensures quiet { IsQuietCall S.Store store.old store.new }
{
    let form = form_of(store);
    begin(store, row, CHANGES)?;
    let mut digest = NO_DIGEST;
    'changes: for at in 0..MAX_CHANGES + 1 {
        if !step(store, row)? {
            return Ok((at, digest));
        }
        match take_row(row, form, &digest, at + 1, sink) {
            Ok(next) => digest = next,
            Err(fault) => return Err(fault),
        }
    }
    Err(OpenFault::TooMany)
}

/// Compares the notes, and then hands the changes over and counts them.
fn read_all<S: Store, K: ChangeSink>(
    store: &mut S,
    row: &mut Row,
    notes: &[FeedNote],
    sink: &mut K,
) -> Result<(u64, [u8; DIGEST_BYTES]), OpenFault>
    ensures fits { IfOk result (λ r. (r.0 ≤ 2 ^ 62) × AreTables (S.Store.view store.old)) }
    ensures read { IfOk result (λ r. Shown S.Store store.old store.new (λ old new.
        HasReplayed K.ChangeSink.takes old new r.0 r.1 sink.old sink.new
        × AreNotes (old.trees 1) (entries_of notes.now))) }
    ensures cause { IsHonest S.Store store.new → IfErr result (IsntRead S.Store store.old store.new
        (AreTables (S.Store.view store.old)) (entries_of notes.now)) }
    ensures quiet { IsQuietCall S.Store store.old store.new }
{
    if !has_tables(store) {
        return Err(OpenFault::NoTables);
    }
    compare(store, row, notes)?;
    replay(store, row, sink)
}

/// Opens a store that was made with these notes, and hands the changes of its last commit over in
/// their order.
///
/// Nothing is written: what a crash may leave stays as it was, also after an error, which gives the
/// store back.
pub(crate) fn open<S: Store, K: ChangeSink>(
    alloc: Global,
    mut store: S,
    notes: &[FeedNote],
    sink: &mut K,
) -> Result<ChangeJournal<S>, (OpenFault, S)>
    ensures found { IfOk result (λ j. Shown S.Store store j.store (λ old new.
        Finds old new × (noted_in old ≡ entries_of notes.now)
        × LeadsTo K.ChangeSink.takes sink.old (stored_in old) sink.new)) }
    ensures counts { IfOk result (λ j. j.committed ≡ j.count) }
    ensures quiet { IfOk result (λ j. IsQuietCall S.Store store j.store) }
    ensures unharmed { IfErr result (λ e. IsQuietCall S.Store store e.1) }
    ensures cause { IfErr result (λ e. IsHonest S.Store e.1
        → IsntOpened S.Store store e.1 (entries_of notes.now) e.0) }
{
    store.rollback();
    let mut row = Row::new(alloc);
    match read_all(&mut store, &mut row, notes, sink) {
        Ok(read) => {
            let digest = read.1;
            let committed_digest = read.1;
            Ok(ChangeJournal {
                store,
                row,
                count: read.0,
                committed: read.0,
                digest,
                committed_digest,
            })
        }
        Err(fault) => Err((fault, store)),
    }
}
