//! The facts of one source.
ghost use Rattle.std.specs.Prelude.{◌≡◌, [], Some, None, true, false, length, IfOk, IfErr, OnErr, IfNone, is_some};
ghost use Rattle.std.specs.Option.{option_map};
ghost use Rattle.cube_core.specs.Life.{id_of};
ghost use Rattle.cube_ledger.specs.Book.{AmendsAlike, GainsEntry, IsBook, Makes, Replaces, Takes, Explains, fact_at, fact_put, facts_of};
ghost use Rattle.cube_ledger.specs.Interest.{entries_of_interest};

use cube_core::{Change, Condition, Fact, HashKey, Partial, Text, hold};
use std::alloc::{AllocError, Global};
use std::collections::HashMap;
use std::collections::hash_map::{Entry, Values};
use std::marker::Model;
use std::mem::replace;
use thiserror::Error;

type Facts = HashMap<Text, Fact, HashKey>;

/// What a change took out of a book, and a copy of what it put in.
#[derive(Debug, Drop)]
pub struct Delta {
    pub gone: Option<Fact>,
    pub come: Option<Fact>,
}

/// Why a book took no change; where several faults hold, the first. The text of each is its name.
#[derive(Clone, Copy, Debug, PartialEq, Eq, Error)]
pub enum BookFault {
    /// The id of an insert is present.
    #[error("Present")]
    Present,
    /// The id of an update, an amendment or a delete is absent.
    #[error("Absent")]
    Absent,
    /// A growth was refused; never in a delete or a removal.
    #[error("Memory")]
    Memory,
}

/// The facts of one source, each under its id.
///
/// The ids are hashed by SipHash under a key that is given, since whoever writes a feed chooses them.
#[derive(Drop)]
pub struct Book {
    alloc: Global,
    facts: Facts,
}

impl Model for Book {
    ghost use Rattle.cube_ledger.specs.Book.{Entries, IsBook};

    ghost Value = { Entries };

    ghost view = { λ b. b.facts.entries };

    ghost invariant = { λ b. IsBook b.facts.entries };
}

impl Book {
    /// A book without facts; it takes no memory.
    pub fn new(alloc: Global, key: HashKey) -> Book
        ensures { result ≡ [] }
    {
        Book {
            alloc,
            facts: HashMap::with_hasher(alloc, key),
        }
    }

    /// The fact under an id, `None` where the id is absent. It takes no memory.
    pub fn get(&self, id: &Text) -> Option<&Fact>
        ensures { option_map (λ fact. fact.now) result ≡ fact_at self.now id.now }
    {
        self.facts.get(id)
    }

    /// How many facts there are.
    pub fn len(&self) -> usize
        ensures facts { result ≡ length self.now }
        ensures each_once { IsBook self.now }
    {
        self.facts.len()
    }

    /// The facts, in no order that is told.
    pub fn facts(&self) -> Values<'_, Text, Fact>
        ensures { result ≡ facts_of self.now }
    {
        self.facts.values()
    }

    /// Puts a fact under an id; the fact that was there comes out. Where memory runs out, the book is as it was,
    /// and the fact comes back.
    pub(crate) fn put(&mut self, id: Text, fact: Fact) -> Result<Option<Fact>, Fact>
        ensures put { IfOk result (λ gone. Replaces self.old id gone (Some fact) self.new) }
        ensures back { IfErr result (λ back. back ≡ fact) }
        ensures unchanged { OnErr result (self.new ≡ self.old) }
    {
        match self.facts.insert(id, fact) {
            Ok(gone) => Ok(gone),
            Err(refused) => Err(fact_of(refused.value)),
        }
    }

    /// Takes the fact under an id out, if there is one. It takes no memory.
    pub(crate) fn take(&mut self, id: &Text) -> Option<Fact>
        ensures taken { Replaces self.old id.now result None self.new }
        ensures absent { IfNone result (self.new ≡ self.old) }
    {
        self.facts.remove(id)
    }

    /// Takes a change: an insert of an absent id or an update of a present one puts its fact, an amendment of a
    /// present id puts the fact with some fields changed, an upsert puts its fact in any case, a delete of a present id
    /// takes the fact away, and so does a removal, where there is one. The answer is what went out, and a copy of what
    /// came in.
    ///
    /// An amendment has as many fields as the fact that it amends. On a fault the book is as it was. A delete and a
    /// removal take no memory.
    pub fn apply(&mut self, change: Change) -> Result<Delta, BookFault>
        requires { AmendsAlike self.old change }
        ensures taken { IfOk result (λ delta. Takes self.old change delta self.new) }
        ensures refused { IfErr result (Explains self.old change) }
        ensures unchanged { OnErr result (self.new ≡ self.old) }
    {
        match self.copy_come(&change) {
            Ok(come) => self.enter_beside(change, come),
            Err(fault) => {
                drop(change);
                Err(fault)
            }
        }
    }

    // Takes a change whose fact, where it puts one, was copied.
    fn enter_beside(&mut self, change: Change, come: Option<Fact>) -> Result<Delta, BookFault>
        requires alike { AmendsAlike self.old change }
        requires come { come ≡ fact_put change (fact_at self.old (id_of change)) }
        ensures taken { IfOk result (λ delta. Takes self.old change delta self.new) }
        ensures refused { IfErr result (Explains self.old change) }
        ensures unchanged { OnErr result (self.new ≡ self.old) }
    {
        match self.enter(change) {
            Ok(gone) => Ok(Delta { gone, come }),
            Err(fault) => {
                drop(come);
                Err(fault)
            }
        }
    }

    // A copy of the fact that a change puts.
    fn copy_come(&self, change: &Change) -> Result<Option<Fact>, BookFault>
        requires { AmendsAlike self.now change.now }
        ensures come { IfOk result
            (λ come. come ≡ fact_put change.now (fact_at self.now (id_of change.now))) }
        ensures refused { IfErr result (Explains self.now change.now) }
    {
        match change {
            Change::Insert { id, fact } => {
                if self.has(id) {
                    return Err(BookFault::Present);
                }
                copy_fact(self.alloc, fact)
            }
            Change::Update { id, fact } => {
                if !self.has(id) {
                    return Err(BookFault::Absent);
                }
                copy_fact(self.alloc, fact)
            }
            Change::Amend { id, part } => self.copy_amended(id, part),
            Change::Upsert { fact, .. } => copy_fact(self.alloc, fact),
            Change::Delete { .. } => Ok(None),
            Change::Remove { .. } => Ok(None),
        }
    }

    // The fact that an amendment puts.
    fn copy_amended(&self, id: &Text, part: &Partial) -> Result<Option<Fact>, BookFault>
        requires { AmendsAlike self.now (Change.Amend id.now part.now) }
        ensures come { IfOk result
            (λ come. come ≡ fact_put (Change.Amend id.now part.now) (fact_at self.now id.now)) }
        ensures refused { IfErr result (Explains self.now (Change.Amend id.now part.now)) }
    {
        let Some(old) = self.get(id) else {
            return Err(BookFault::Absent);
        };
        match part.over(self.alloc, old) {
            Ok(fact) => Ok(Some(fact)),
            Err(_) => Err(BookFault::Memory),
        }
    }

    /// Takes a change as `apply` does, and copies no fact: the one of the change is moved into the book. The answer
    /// is what went out. The id is looked up once.
    pub(crate) fn enter(&mut self, change: Change) -> Result<Option<Fact>, BookFault>
        requires { AmendsAlike self.old change }
        ensures made { IfOk result (λ gone. Makes self.old change gone self.new) }
        ensures refused { IfErr result (Explains self.old change) }
        ensures unchanged { OnErr result (self.new ≡ self.old) }
    {
        match change {
            Change::Insert { id, fact } => self.insert(id, fact),
            Change::Update { id, fact } => self.update(&id, fact),
            Change::Amend { id, part } => self.amend(&id, &part),
            Change::Upsert { id, fact } => self.upsert(id, fact),
            Change::Delete { id } => self.delete(&id),
            Change::Remove { id } => Ok(self.take(&id)),
        }
    }

    fn insert(&mut self, id: Text, fact: Fact) -> Result<Option<Fact>, BookFault>
        ensures made { IfOk result
            (λ gone. Makes self.old (Change.Insert id fact) gone self.new) }
        ensures refused { IfErr result (Explains self.old (Change.Insert id fact)) }
        ensures unchanged { OnErr result (self.new ≡ self.old) }
    {
        match put_new(&mut self.facts, id, fact) {
            Ok(true) => Ok(None),
            Ok(false) => Err(BookFault::Present),
            Err(_) => Err(BookFault::Memory),
        }
    }

    fn update(&mut self, id: &Text, fact: Fact) -> Result<Option<Fact>, BookFault>
        ensures made { IfOk result
            (λ gone. Makes self.old (Change.Update id.now fact) gone self.new) }
        ensures refused { IfErr result (Explains self.old (Change.Update id.now fact)) }
        ensures unchanged { OnErr result (self.new ≡ self.old) }
    {
        let Some(place) = self.facts.get_mut(id) else {
            drop(fact);
            return Err(BookFault::Absent);
        };
        Ok(Some(replace(place, fact)))
    }

    fn amend(&mut self, id: &Text, part: &Partial) -> Result<Option<Fact>, BookFault>
        requires { AmendsAlike self.old (Change.Amend id.now part.now) }
        ensures made { IfOk result
            (λ gone. Makes self.old (Change.Amend id.now part.now) gone self.new) }
        ensures refused { IfErr result (Explains self.old (Change.Amend id.now part.now)) }
        ensures unchanged { OnErr result (self.new ≡ self.old) }
    {
        let Some(place) = self.facts.get_mut(id) else {
            return Err(BookFault::Absent);
        };
        match part.over(self.alloc, place) {
            Ok(fact) => Ok(Some(replace(place, fact))),
            Err(_) => Err(BookFault::Memory),
        }
    }

    fn upsert(&mut self, id: Text, fact: Fact) -> Result<Option<Fact>, BookFault>
        ensures made { IfOk result
            (λ gone. Makes self.old (Change.Upsert id fact) gone self.new) }
        ensures refused { IfErr result (Explains self.old (Change.Upsert id fact)) }
        ensures unchanged { OnErr result (self.new ≡ self.old) }
    {
        match self.put(id, fact) {
            Ok(gone) => Ok(gone),
            Err(back) => {
                drop(back);
                Err(BookFault::Memory)
            }
        }
    }

    fn delete(&mut self, id: &Text) -> Result<Option<Fact>, BookFault>
        ensures made { IfOk result
            (λ gone. Makes self.old (Change.Delete id.now) gone self.new) }
        ensures refused { IfErr result (Explains self.old (Change.Delete id.now)) }
        ensures unchanged { OnErr result (self.new ≡ self.old) }
    {
        match self.take(id) {
            Some(gone) => Ok(Some(gone)),
            None => Err(BookFault::Absent),
        }
    }

    /// Keeps the facts of which all conditions hold, and lets go of the others. It takes no memory.
    pub(crate) fn keep(&mut self, conditions: &[Condition])
        ensures { self.new ≡ entries_of_interest conditions.now self.old }
    {
        keep_of_interest(&mut self.facts, conditions);
    }

    /// Whether an id is present.
    pub(crate) fn has(&self, id: &Text) -> bool
        ensures { result ≡ is_some (fact_at self.now id.now) }
    {
        self.facts.contains_key(id)
    }
}

// Puts a fact under an id that is absent; answers whether it was.
fn put_new(facts: &mut Facts, id: Text, fact: Fact) -> Result<bool, AllocError>
    ensures put { IfOk result
        (λ was. was ≡ true → GainsEntry facts.old.entries id fact facts.new.entries) }
    ensures present { IfOk result
        (λ was. was ≡ false → is_some (fact_at facts.old.entries id) ≡ true) }
    ensures left { IfOk result (λ was. was ≡ false → facts.new.entries ≡ facts.old.entries) }
    ensures err { OnErr result (facts.new.entries ≡ facts.old.entries) }
    ensures memory { OnErr result (fact_at facts.old.entries id ≡ None) }
{
    if let Entry::Vacant(place) = facts.entry(id)? {
        place.insert(fact);
        return Ok(true);
    }
    drop(fact);
    Ok(false)
}

// Keeps the entries whose facts are of interest.
fn keep_of_interest(facts: &mut Facts, conditions: &[Condition])
    ensures kept { facts.new.entries ≡ entries_of_interest conditions.now facts.old.entries }
    ensures each_once { IsBook facts.new.entries }
{
    facts.retain(|_, fact| hold(conditions, fact));
}

// A copy of a fact.
fn copy_fact(alloc: Global, fact: &Fact) -> Result<Option<Fact>, BookFault>
    ensures copy { IfOk result (λ copy. copy ≡ Some fact.now) }
    ensures memory { IfErr result (λ fault. fault ≡ BookFault.Memory) }
{
    match fact.copy(alloc) {
        Ok(copy) => Ok(Some(copy)),
        Err(_) => Err(BookFault::Memory),
    }
}

// The fact of an entry.
fn fact_of(entry: (Text, Fact)) -> Fact
    ensures { result ≡ entry.1 }
{
    entry.1
}
