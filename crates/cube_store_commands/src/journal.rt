//! The journal of a session over a store.
ghost use Rattle.std.specs.Prelude.{◌≡◌, ◌≤◌, [], IsTrue};
ghost use Rattle.sqlite_trees.specs.View.{IsClean};
ghost use Rattle.cube_store.specs.State.{held_in, stored_in};
ghost use Rattle.cube_store.specs.Keeping.{HasKept};
ghost use Rattle.cube_store_commands.specs.Kept.{journal_fault_of};

use crate::record::text_of;
use csv::ByteRecord;
use cube_live::{Journal, JournalFault};
use cube_store::{BatchJournal, ChangeJournal};
use sqlite_trees::error::StoreError;
use sqlite_trees::store::Store;
use std::alloc::Global;
use std::marker::Model;

/// Keeps each change as a row of a store before it is applied, and commits before each answer.
pub struct StoreJournal<S: Store> {
    alloc: Global,
    journal: BatchJournal<S>,
}

impl<S: Store> Model for StoreJournal<S> {
    ghost use Rattle.cube_store.specs.Keeping.{Batch, batch_code};

    ghost Value = { Batch S };

    ghost coded = { batch_code S.code };

    ghost view = { λ j. j.journal };
}

/// What a failed call is told as.
fn fault_of(error: StoreError) -> JournalFault
    ensures { result ≡ journal_fault_of error }
{
    match error {
        StoreError::OutOfMemory => JournalFault::Memory,
        StoreError::Io | StoreError::Corrupt | StoreError::Broken => JournalFault::Failed,
        StoreError::Full | StoreError::Unstorable => JournalFault::NoRoom,
    }
}

impl<S: Store> StoreJournal<S> {
    /// Goes on with a journal in which nothing waits for a commit, and so many changes, at least one, may.
    pub fn new(alloc: Global, journal: ChangeJournal<S>, most_waiting: u64) -> StoreJournal<S>
        requires { 1 ≤ most_waiting }
        ensures store { result.store ≡ journal.store }
        ensures kept { (IsClean (S.Store.view journal.store) → IsTrue (S.Store.view journal.store).is_open × (held_in (S.Store.view journal.store) ≡ stored_in (S.Store.view journal.store)))
            → HasKept S.Store.view S.Store.recovers result result [] 0 }
    {
        StoreJournal {
            alloc,
            journal: BatchJournal::new(journal, most_waiting),
        }
    }

    /// Gives the store back. What waits for a commit is lost.
    pub fn into_store(self) -> S
        ensures { result ≡ self.store }
    {
        self.into_journal().into_store()
    }

    /// Gives the journal back. What waits for a commit is lost with it.
    pub fn into_journal(self) -> ChangeJournal<S>
        ensures { result.store ≡ self.store }
    {
        let StoreJournal { alloc: _, journal } = self;
        journal.into_journal()
    }
}

impl<S: Store> Journal for StoreJournal<S> {
    ghost use Rattle.cube_store_commands.specs.Kept.{breaks, keeps};

    ghost keeps = { keeps S.Store.view S.Store.recovers };

    ghost breaks = { breaks S.Store.view S.Store.recovers };

    fn note(&mut self, source: u32, fields: &ByteRecord) -> Result<(), JournalFault> {
        let Ok(text) = text_of(self.alloc, fields) else {
            return Err(JournalFault::Memory);
        };
        match self.journal.append(source, text.as_slice()) {
            Ok(()) => Ok(()),
            Err(error) => Err(fault_of(error)),
        }
    }

    fn settle(&mut self) -> Result<(), JournalFault> {
        match self.journal.settle() {
            Ok(()) => Ok(()),
            Err(error) => Err(fault_of(error)),
        }
    }
}
