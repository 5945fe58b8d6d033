//! A journal of changes over an open store.
ghost use Rattle.std.specs.Prelude.{◌≡◌, ◌+◌, ◌≤◌, ◌^◌, length, IsTrue, IfErr, OnOk, OnErr};
ghost use Rattle.sqlite_trees.specs.View.{KeepsCommitted};
ghost use Rattle.cube_store.specs.Rows.{IsOfSource};
ghost use Rattle.cube_store.specs.State.{Appends, Undoes, Commits, held_in, HasTables, CantAppend};
ghost use Rattle.cube_store.specs.Calls.{PutsChange, IsHonest, Shown, IsQuietCall, Remembers};
ghost use Rattle.cube_store.specs.Calls.{HasTable, LeavesNoMore, LeavesHeld, LeavesHeldOrLess};
ghost use Rattle.cube_store.specs.Calls.{LeavesStored, StaysStore, CantWrite, Fails};

use crate::form::{DIGEST_BYTES, digest_after, form_of};
use crate::row::fill_change;
use sqlite_trees::error::StoreError;
use sqlite_trees::store::{Shape, Store};
use sqlite_value::row::Row;
use std::marker::Model;

/// The number of the tree that has the changes.
pub(crate) const CHANGES: u32 = 0;

/// The number of the tree that has the notes on feeds.
pub(crate) const FEEDS: u32 = 1;

/// More changes than any file has room for.
pub(crate) const MAX_CHANGES: u64 = 1 << 62;

/// A store of changes, to which changes are appended.
pub struct ChangeJournal<S: Store> {
    pub(crate) store: S,
    pub(crate) row: Row,
    /// How many changes there are.
    pub(crate) count: u64,
    /// How many of them are committed.
    pub(crate) committed: u64,
    /// What the next change is chained to, where rows have digests.
    pub(crate) digest: [u8; DIGEST_BYTES],
    /// The same of the last commit.
    pub(crate) committed_digest: [u8; DIGEST_BYTES],
}

impl<S: Store> Model for ChangeJournal<S> {
    ghost use Rattle.cube_store.specs.Kept.{CountedStore, kept_code};
    ghost use Rattle.cube_store.specs.State.{IsJournal};

    ghost Value = { CountedStore S };

    ghost coded = { kept_code S.code };

    ghost view = { λ j. record { store = j.store; count = j.count; committed = j.committed } };

    ghost invariant = { λ j.
        IsJournal (S.Store.view j.store) j.count j.committed j.digest j.committed_digest };
}

// By hand, so that no caller proves again how a store's parts are let go.
impl<S: Store + Drop> Drop for ChangeJournal<S> {
    fn drop(self) {
        let ChangeJournal {
            store: _store,
            row: _row,
            count: _,
            committed: _,
            digest: _,
            committed_digest: _,
        } = self;
    }
}

/// Puts the row of a change into the table, if it is one: its source is 1 to 64, and there is room
/// for its number. It ends in this digest where rows have one.
fn put_change<S: Store>(
    store: &mut S,
    row: &mut Row,
    digest: &[u8; DIGEST_BYTES],
    number: u64,
    source: u32,
    content: &[u8],
) -> Result<(), StoreError>
    requires { HasTable S.Store store.old 0 }
    ensures change { OnOk result (IsOfSource (source, content.now) × (number ≤ 2 ^ 62)) }
    ensures ok { OnOk result (Shown S.Store store.old store.new
        (PutsChange digest.now number (source, content.now))) }
    ensures kept { IsHonest S.Store store.new
        → OnErr result (KeepsCommitted (S.Store.view store.old) (S.Store.view store.new)) }
    ensures cause { IsHonest S.Store store.new → IfErr result (CantWrite S.Store store.old store.new
        (CantAppend ((S.Store.view store.old).reals 0) number (source, content.now))) }
    ensures quiet { IsQuietCall S.Store store.old store.new }
{
    if number > MAX_CHANGES || source < 1 || source > 64 {
        return Err(StoreError::Unstorable);
    }
    fill_change(row, form_of(store), digest, number, source, content)?;
    store.put(CHANGES, row)
}

impl<S: Store> ChangeJournal<S> {
    /// How many changes there are, those among them that aren't committed yet.
    pub fn count(&self) -> u64
        ensures value { result ≡ self.now.count }
        ensures held { IsTrue (S.Store.view self.now.store).is_open
            → length (held_in (S.Store.view self.now.store)) ≡ result }
    {
        self.count
    }

    /// How many changes wait for a commit.
    pub fn waiting(&self) -> u64
        ensures { result + self.now.committed ≡ self.now.count }
    {
        self.count - self.committed
    }

    /// Takes a change of a source, 1 to 64, and the bytes of its record, behind the others. It
    /// lasts from the next commit on: a crash leaves what it left before. An error takes back all
    /// that wasn't committed.
    pub fn append(&mut self, source: u32, content: &[u8]) -> Result<(), StoreError>
        ensures ok { OnOk result (Shown S.Store self.old.store self.new.store
            (λ old new. Appends old new (source, content.now))) }
        ensures counts { OnOk result ((self.new.count ≡ self.old.count + 1)
            × (self.new.committed ≡ self.old.committed)) }
        ensures err { OnErr result (Shown S.Store self.old.store self.new.store Undoes) }
        ensures taken_back { OnErr result ((self.new.count ≡ self.old.committed)
            × (self.new.committed ≡ self.old.committed)) }
        ensures cause { IfErr result (Fails S.Store self.old.store self.new.store (CantAppend
            ((S.Store.view self.old.store).reals 0) (self.old.count + 1) (source, content.now))) }
        ensures crash { LeavesNoMore S.Store self.old.store self.new.store }
        ensures on { Remembers S.Store self.old.store self.new.store }
    {
        let number = self.count + 1;
        let form = form_of(&self.store);
        let digest = digest_after(form, &self.digest, number, source, content);
        match put_change(
            &mut self.store,
            &mut self.row,
            &digest,
            number,
            source,
            content,
        ) {
            Ok(()) => {
                self.count = number;
                self.digest = digest;
                Ok(())
            }
            Err(error) => {
                self.store.rollback();
                let digest = self.committed_digest;
                self.count = self.committed;
                self.digest = digest;
                Err(error)
            }
        }
    }

    /// Makes what was appended last: after it each crash leaves exactly the changes so far, in
    /// their order. A crash within it leaves these, or what it left before. An error takes back all
    /// that wasn't committed.
    pub fn commit(&mut self) -> Result<(), StoreError>
        ensures ok { OnOk result (Shown S.Store self.old.store self.new.store Commits) }
        ensures counts { OnOk result ((self.new.count ≡ self.old.count)
            × (self.new.committed ≡ self.old.count)) }
        ensures reals { OnOk result (Shown S.Store self.old.store self.new.store
            (λ old new. new.reals ≡ old.reals)) }
        ensures durable { OnOk result (IsHonest S.Store self.new.store
            → LeavesHeld S.Store self.old.store self.new.store) }
        ensures err { OnErr result (Shown S.Store self.old.store self.new.store Undoes) }
        ensures taken_back { OnErr result ((self.new.count ≡ self.old.committed)
            × (self.new.committed ≡ self.old.committed)) }
        ensures cause { IfErr result (Fails S.Store self.old.store self.new.store ⊥) }
        ensures crash { LeavesHeldOrLess S.Store self.old.store self.new.store }
        ensures on { Remembers S.Store self.old.store self.new.store }
    {
        match self.store.commit() {
            Ok(()) => {
                let digest = self.digest;
                self.committed = self.count;
                self.committed_digest = digest;
                Ok(())
            }
            Err(error) => {
                let digest = self.committed_digest;
                self.count = self.committed;
                self.digest = digest;
                Err(error)
            }
        }
    }

    /// The store. Between any two calls, while no fault has shut it, a crash leaves exactly the
    /// changes of the last commit.
    pub fn store(&self) -> &S
        ensures value { result.now ≡ self.now.store }
        ensures settled { LeavesStored S.Store self.now.store }
        ensures can_open { StaysStore S.Store self.now.store }
        ensures tables { IsHonest S.Store self.now.store → HasTables (S.Store.view self.now.store) }
    {
        &self.store
    }

    /// Gives the store back. What isn't committed is lost with the journal.
    pub fn into_store(self) -> S
        ensures value { result ≡ self.store }
        ensures settled { LeavesStored S.Store self.store }
        ensures can_open { StaysStore S.Store self.store }
        ensures tables { IsHonest S.Store self.store → HasTables (S.Store.view self.store) }
    {
        let ChangeJournal {
            store,
            row: _,
            count: _,
            committed: _,
            digest: _,
            committed_digest: _,
        } = self;
        store
    }
}
