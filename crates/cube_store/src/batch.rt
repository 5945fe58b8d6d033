//! A journal that commits by itself where many changes wait.
ghost use Rattle.std.specs.Prelude.{◌≡◌, ◌<◌, ◌≤◌, [], IfErr, OnOk, OnErr};
ghost use Rattle.cube_store.specs.Keeping.{HasKept, CantStore, TakesAsBefore};
ghost use Rattle.cube_store.specs.Calls.{Shown, Remembers, IsCommitted, Fails, KeepsMore, BreaksAt};
ghost use Rattle.cube_store.specs.Calls.{KeepsOn, Breaks, MakesSure};

use crate::journal::ChangeJournal;
use sqlite_trees::error::StoreError;
use sqlite_trees::store::Store;
use std::marker::Model;

/// A journal of changes that commits by itself where as many wait as may, so that memory and a
/// commit's time have a bound.
pub struct BatchJournal<S: Store> {
    journal: ChangeJournal<S>,
    waiting: u64,
    // How many changes wait for a commit at most.
    most: u64,
}

impl<S: Store> Model for BatchJournal<S> {
    ghost use Rattle.std.specs.Prelude.{◌≤◌};
    ghost use Rattle.cube_store.specs.Keeping.{Batch, batch_code};

    ghost Value = { Batch S };

    ghost coded = { batch_code S.code };

    ghost view = { λ j. record { store = j.journal.store; waiting = j.waiting; most = j.most } };

    ghost invariant = { λ j. (1 ≤ j.most) × (j.waiting ≤ j.most) };
}

// By hand, so that no caller proves again how a store's parts are let go.
impl<S: Store + Drop> Drop for BatchJournal<S> {
    fn drop(self) {
        let BatchJournal {
            journal: _journal,
            waiting: _,
            most: _,
        } = self;
    }
}

impl<S: Store> BatchJournal<S> {
    /// Goes on with a journal in which nothing waits for a commit, and so many changes, at least
    /// one, may.
    pub fn new(journal: ChangeJournal<S>, most: u64) -> BatchJournal<S>
        requires { 1 ≤ most }
        ensures store { result.store ≡ journal.store }
        ensures most { result.most ≡ most }
        ensures kept { IsCommitted S.Store journal.store
            → HasKept S.Store.view S.Store.recovers result result [] 0 }
    {
        let _settled = journal.store();
        BatchJournal {
            journal,
            waiting: 0,
            most,
        }
    }

    /// Takes a change of a source, 1 to 64, and the bytes of its record, behind the others. No more
    /// is certain than before.
    ///
    /// After an error nothing more is to be taken: a crash, and the next opening, find a first part
    /// of the changes, and of these all that were certain.
    pub fn append(&mut self, source: u32, content: &[u8]) -> Result<(), StoreError>
        ensures kept { OnOk result (KeepsMore S.Store self.old self.new (source, content.now)) }
        ensures broken { OnErr result (BreaksAt S.Store self.old self.new (source, content.now)) }
        ensures cause { IfErr result (Fails S.Store self.old.store self.new.store
            (CantStore (S.Store.view self.old.store) (source, content.now))) }
        ensures on { Remembers S.Store self.old.store self.new.store }
    {
        self.make_room()?;
        let _held = self.journal.count();
        self.journal.append(source, content)?;
        self.waiting += 1;
        Ok(())
    }

    // Makes all changes certain where as many wait as may.
    fn make_room(&mut self) -> Result<(), StoreError>
        ensures kept { OnOk result (KeepsOn S.Store self.old self.new) }
        ensures broken { OnErr result (Breaks S.Store self.old self.new) }
        ensures room { OnOk result (self.new.waiting < self.new.most) }
        ensures same { OnOk result (Shown S.Store self.old.store self.new.store TakesAsBefore) }
        ensures cause { IfErr result (Fails S.Store self.old.store self.new.store ⊥) }
        ensures on { Remembers S.Store self.old.store self.new.store }
    {
        if self.waiting < self.most {
            return Ok(());
        }
        self.settle()
    }

    /// Makes all changes certain: each crash from now on leaves them.
    ///
    /// After an error nothing more is to be taken, as after one of `append`.
    pub fn settle(&mut self) -> Result<(), StoreError>
        ensures kept { OnOk result (MakesSure S.Store self.old self.new) }
        ensures still { OnOk result (KeepsOn S.Store self.old self.new) }
        ensures broken { OnErr result (Breaks S.Store self.old self.new) }
        ensures none { OnOk result (self.new.waiting ≡ 0) }
        ensures room { OnOk result (self.new.waiting < self.new.most) }
        ensures same { OnOk result (Shown S.Store self.old.store self.new.store TakesAsBefore) }
        ensures cause { IfErr result (Fails S.Store self.old.store self.new.store ⊥) }
        ensures on { Remembers S.Store self.old.store self.new.store }
    {
        if self.waiting == 0 {
            return Ok(());
        }
        self.journal.commit()?;
        self.waiting = 0;
        Ok(())
    }

    /// Gives the journal back. What waits for a commit is lost with it.
    pub fn into_journal(self) -> ChangeJournal<S>
        ensures { result.store ≡ self.store }
    {
        let BatchJournal {
            journal,
            waiting: _,
            most: _,
        } = self;
        journal
    }
}
