//! A session over a store: its changes are taken before the first record, and those of the session are kept in it.
ghost use Rattle.std.specs.Prelude.{◌≡◌, ◌≤◌, ◌⊎◌, [], IfOk, IfErr, IfSome};
ghost use Rattle.sqlite_trees.specs.Tree.{Trees};
ghost use Rattle.sqlite_trees.specs.View.{IsClean};
ghost use Rattle.cube_store.specs.Calls.{IsntStarted, IsntReopened};
ghost use Rattle.cube_store.specs.Codes.{IsToldOf, TellsFailedCall};
ghost use Rattle.cube_store.specs.Making.{LeavesNotes};
ghost use Rattle.cube_store.specs.Rows.{entries_of};
ghost use Rattle.cube_store.specs.State.{stored_in, noted_in, form_in, stored_form, IsStore, IsUnmade, LeadsTo};
ghost use Rattle.cube_store.specs.Keeping.{HasKept};
ghost use Rattle.cube_store_commands.specs.Replay.{TakesStored};
ghost use Rattle.cube_live.specs.Keeping.{KeepsOn, keeping_after, made_sure};
ghost use Rattle.cube_live.specs.Serving.{Serves};
ghost use Rattle.cube_store_commands.specs.Kept.{FailsStored, keeps};
ghost use Rattle.cube_store_commands.specs.Serving.{BreaksStored, ExplainsResume, IfRefused, IfUntaken, ServesStored, WritesNothing};

use crate::journal::StoreJournal;
use crate::replay::Replay;
use cube_feed::RecordReader;
use cube_live::{Live, Rests, SessionFault, serve};
use cube_store::{FeedNote, StoreFault, start, start_made};
use sqlite_trees::store::Store;
use std::alloc::Global;
use std::io::{Read, Write};
use std::thread::Threads;

/// Why a session over a store ended before its input did.
#[derive(Clone, Copy, Debug, PartialEq, Eq)]
pub enum StoredFault {
    /// The store wasn't taken, and nothing was answered.
    Store(StoreFault),
    /// The store has more changes of this source than the schema takes, and nothing was answered.
    TooMany(u32),
    /// The session failed.
    Session(SessionFault),
}

/// When the changes of a session are made certain though nothing asks for it.
#[derive(Drop)]
pub struct Commits<P: Rests + Drop> {
    /// Where the input rests, as this tells.
    pub rests: P,
    /// Where so many changes wait, at least one.
    pub most_waiting: u64,
}

/// Why the changes of a store aren't taken.
#[derive(Clone, Copy, Debug, PartialEq, Eq)]
pub enum ResumeFault {
    /// The store isn't taken.
    Store(StoreFault),
    /// The store has more changes of this source than the schema takes.
    TooMany(u32),
}

impl From<ResumeFault> for StoredFault {
    ghost use Rattle.std.specs.Prelude.{◌≡◌};
    ghost use Rattle.cube_store_commands.specs.Serving.{stored_fault_of};

    ghost from_gives = { λ fault stored. stored ≡ stored_fault_of fault };

    fn from(fault: ResumeFault) -> StoredFault {
        match fault {
            ResumeFault::Store(fault) => StoredFault::Store(fault),
            ResumeFault::TooMany(source) => StoredFault::TooMany(source),
        }
    }
}

/// Takes the changes of a store into the cube of a session, which stands where its feeds ended, and gives the journal that
/// keeps those of the session behind them, of which so many, at least one, may wait. A store without a row notes what the
/// feeds are, and must have the same notes else.
///
/// A store of changes and of these notes is refused only where a call fails, because memory ran out, or where it has more changes
/// of a source than the schema takes. What is told of one that isn't taken is why. An error gives the store back.
pub fn resume<'s, S: Store>(
    alloc: Global,
    live: Live<'s>,
    store: S,
    notes: &[FeedNote],
    most_waiting: u64,
) -> Result<(Live<'s>, StoreJournal<S>), (ResumeFault, S)>
    requires { 1 ≤ most_waiting }
    ensures taken { IfOk result (λ r. IsClean (S.Store.view r.1.store) → LeadsTo TakesStored live.entry (stored_in (S.Store.view store)) r.0) }
    ensures stored { IfOk result (λ r. IsClean (S.Store.view r.1.store) → stored_in (S.Store.view r.1.store) ≡ stored_in (S.Store.view store)) }
    ensures noted { IfOk result (λ r. IsClean (S.Store.view r.1.store) → noted_in (S.Store.view r.1.store) ≡ entries_of notes.now) }
    ensures formed { IfOk result (λ r. IsClean (S.Store.view r.1.store) → form_in (S.Store.view r.1.store) ≡ stored_form (S.Store.view store)) }
    ensures kept { IfOk result (λ r. HasKept S.Store.view S.Store.recovers r.1 r.1 [] 0) }
    ensures unharmed { IfErr result (λ e. (db : Trees) → S.Store.recovers e.1 db → LeavesNotes (S.Store.view store) (entries_of notes.now) db ⊎ S.Store.recovers store db) }
    ensures cause { IfErr result (λ e. IsClean (S.Store.view e.1) →
        IfUntaken (IsToldOf (IsntStarted S.Store store e.1 notes.now)) e.0) }
    ensures accepts { IfErr result (λ e. IsClean (S.Store.view e.1) → ExplainsResume live.entry (S.Store.view store)
        (IsStore (S.Store.view store) (entries_of notes.now) ⊎ IsUnmade (S.Store.view store)) e.0) }
{
    let mut replay = Replay::new(alloc, live);
    match start(alloc, store, notes, &mut replay) {
        Ok(journal) => match replay.over() {
            None => Ok((
                replay.into_live(),
                StoreJournal::new(alloc, journal, most_waiting),
            )),
            Some(source) => Err((ResumeFault::TooMany(source), journal.into_store())),
        },
        Err((fault, store)) => Err((ResumeFault::Store(fault), store)),
    }
}

/// Takes the changes of a store into the cube of a question, which stands where its feeds ended, and gives the journal of the
/// store. Nothing is written: a store must have these notes, and one without a row is refused.
///
/// A store of changes and of these notes is refused only where a call fails, because memory ran out, or where it has more changes
/// of a source than the schema takes. What is told of one that isn't taken is why. An error gives the store back.
pub fn resume_made<'s, S: Store>(
    alloc: Global,
    live: Live<'s>,
    store: S,
    notes: &[FeedNote],
) -> Result<(Live<'s>, StoreJournal<S>), (ResumeFault, S)>
    ensures taken { IfOk result (λ r. IsClean (S.Store.view r.1.store) → LeadsTo TakesStored live.entry (stored_in (S.Store.view store)) r.0) }
    ensures stored { IfOk result (λ r. IsClean (S.Store.view r.1.store) → stored_in (S.Store.view r.1.store) ≡ stored_in (S.Store.view store)) }
    ensures noted { IfOk result (λ r. IsClean (S.Store.view r.1.store) → noted_in (S.Store.view r.1.store) ≡ entries_of notes.now) }
    ensures formed { IfOk result (λ r. IsClean (S.Store.view r.1.store) → form_in (S.Store.view r.1.store) ≡ stored_form (S.Store.view store)) }
    ensures kept { IfOk result (λ r. HasKept S.Store.view S.Store.recovers r.1 r.1 [] 0) }
    ensures same { IfOk result (λ r. (db : Trees) → S.Store.recovers r.1.store db → S.Store.recovers store db) }
    ensures unharmed { IfErr result (λ e. (db : Trees) → S.Store.recovers e.1 db → S.Store.recovers store db) }
    ensures cause { IfErr result (λ e. IsClean (S.Store.view e.1) →
        IfUntaken (IsToldOf (IsntReopened S.Store store e.1 (entries_of notes.now))) e.0) }
    ensures accepts { IfErr result (λ e. IsClean (S.Store.view e.1) → ExplainsResume live.entry (S.Store.view store)
        (IsStore (S.Store.view store) (entries_of notes.now) × (¬ IsUnmade (S.Store.view store))) e.0) }
{
    let mut replay = Replay::new(alloc, live);
    match start_made(alloc, store, notes, &mut replay) {
        Ok(journal) => match replay.over() {
            None => Ok((replay.into_live(), StoreJournal::new(alloc, journal, 1))),
            Some(source) => Err((ResumeFault::TooMany(source), journal.into_store())),
        },
        Err((fault, store)) => Err((ResumeFault::Store(fault), store)),
    }
}

/// Takes the changes of a store, and then the records of a session to their end, as `serve` does.
///
/// The answers are those of a session in which the stored changes stood before the first record. Each change is in the store
/// before it is applied, and certain before a byte of a later answer goes out; `commits` says when it is else. A store is
/// refused as by [`resume`], before anything is written. An error gives the store back.
pub fn serve_stored<'s, T: Threads + Sync, S: Store, R: Read, P: Rests + Drop, W: Write>(
    rt: &T,
    alloc: Global,
    live: Live<'s>,
    store: S,
    notes: &[FeedNote],
    records: &mut RecordReader<R>,
    commits: Commits<P>,
    out: &mut W,
) -> Result<(Live<'s>, StoreJournal<S>), (StoredFault, S)>
    requires { 1 ≤ commits.most_waiting }
    ensures ok { IfOk result (λ r. IfSome records.old.left (λ taken. IsClean (S.Store.view r.1.store) →
        ServesStored live.entry.schema (S.Store.view store) (entries_of notes.now) taken live.entry r.0 (S.Store.view r.1.store) (S.Store.recovers r.1.store)
        (W.contents out.old) (W.contents out.new))) }
    ensures err { IfErr result (λ e. IfSome records.old.left (λ taken. IsClean (S.Store.view e.1) →
        BreaksStored live.entry.schema (S.Store.view store) (entries_of notes.now) taken live.entry (S.Store.recovers store) (S.Store.recovers e.1)
        (W.contents out.old) (W.contents out.new) e.0)) }
    ensures cause { IfErr result (λ e. IsClean (S.Store.view e.1) →
        IfRefused (IsToldOf (IsntStarted S.Store store e.1 notes.now)) e.0) }
    ensures accepts { IfErr result (λ e. IsClean (S.Store.view e.1) →
        IsStore (S.Store.view store) (entries_of notes.now) ⊎ IsUnmade (S.Store.view store) → IfRefused TellsFailedCall e.0) }
    ensures unwritten { IfErr result (λ e. WritesNothing e.0 (W.contents out.old) (W.contents out.new)) }
    ensures schema { IfOk result (λ r. IfSome records.old.left (λ taken. IsClean (S.Store.view r.1.store) → r.0.schema ≡ live.entry.schema)) }
{
    let Commits {
        mut rests,
        most_waiting,
    } = commits;
    match resume(alloc, live, store, notes, most_waiting) {
        Ok((live, journal)) => match serve_resumed(
            rt, alloc, live, journal, records, &mut rests, out,
        ) {
            Ok(served) => Ok(served),
            Err((fault, store)) => Err((StoredFault::Session(fault), store)),
        },
        Err((fault, store)) => Err((StoredFault::from(fault), store)),
    }
}

// Takes the records of a session to their end, as `serve` does.
fn serve_resumed<'s, T: Threads + Sync, S: Store, R: Read, P: Rests, W: Write>(
    rt: &T,
    alloc: Global,
    mut live: Live<'s>,
    mut journal: StoreJournal<S>,
    records: &mut RecordReader<R>,
    rests: &mut P,
    out: &mut W,
) -> Result<(Live<'s>, StoreJournal<S>), (SessionFault, S)>
    ensures ok { IfOk result (λ r. IfSome records.old.left (λ taken. Serves live.entry.schema taken live.entry r.0 (W.contents out.old) (W.contents out.new))) }
    ensures kept { IfOk result (λ r. IfSome records.old.left (λ taken. KeepsOn (keeps S.Store.view S.Store.recovers) (keeps S.Store.view S.Store.recovers) journal
        (λ k. made_sure (keeping_after live.entry.schema k taken)) r.1)) }
    ensures err { IfErr result (λ e. IfSome records.old.left (FailsStored S.Store.view S.Store.recovers live.entry journal e.1 e.0 (W.contents out.old) (W.contents out.new))) }
    ensures schema { IfOk result (λ r. r.0.schema ≡ live.entry.schema) }
{
    match serve(rt, alloc, &mut live, records, rests, &mut journal, out) {
        Ok(()) => Ok((live, journal)),
        Err(fault) => Err((fault, journal.into_store())),
    }
}
