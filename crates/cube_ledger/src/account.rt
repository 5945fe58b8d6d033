//! What a ledger keeps of one source.
ghost use Rattle.std.specs.Prelude.{◌≡◌, Ok, None, Some, true, IfOk, IfErr, OnOk, OnErr, is_some};
ghost use Rattle.cube_core.specs.Life.{id_of};
ghost use Rattle.cube_core.specs.Refusals.{code_by_presence};
ghost use Rattle.cube_core.specs.Takes.{takes};
ghost use Rattle.cube_ledger.specs.Book.{AmendsAlike, fact_at, facts_of, refused_by};
ghost use Rattle.cube_ledger.specs.Ledger.{AllFit, Enters, Exchanges, IsRuling, RulingFits, ComesTo, is_amendment, says_amendment, says_taken, new_account, with_refusal, without_facts};
ghost use Rattle.cube_ledger.specs.Interest.{account_of_interest};

use crate::book::{Book, BookFault};
use crate::code::{absent_code, code_by_presence, code_of_fault, id_of, present_code};
use crate::ruling::Ruling;
use cube_core::{
    Change, Condition, Fact, HashKey, Item, LineFault, Partial, Refusal, Schema, Text,
};
use std::alloc::{AllocError, Global};
use std::marker::Model;
use std::mem::replace;

/// The book of a source, and its refusals in the order of its items.
#[derive(Drop)]
pub struct Account {
    book: Book,
    refusals: Vec<Refusal>,
}

impl Model for Account {
    ghost use Rattle.cube_ledger.specs.Ledger.{AccountView};

    ghost Value = { AccountView };

    ghost view = { λ a. record { book = a.book; refusals = a.refusals.items } };
}

impl Account {
    /// The account of a source of which no item came; it takes no memory.
    pub(crate) fn new(alloc: Global, key: HashKey) -> Account
        ensures { result ≡ new_account }
    {
        Account {
            book: Book::new(alloc, key),
            refusals: Vec::new(alloc),
        }
    }

    /// Keeps the facts of the book of which all conditions hold; the refusals stay. It takes no memory.
    pub(crate) fn keep(&mut self, conditions: &[Condition])
        ensures { self.new ≡ account_of_interest conditions.now self.old }
    {
        self.book.keep(conditions);
    }

    /// Takes the book out, with its facts; the refusals stay. A book with this hash key and no fact takes its place. It takes no
    /// memory.
    pub(crate) fn take_book(&mut self, alloc: Global, key: HashKey) -> Book
        ensures book { result ≡ self.old.book }
        ensures left { self.new ≡ without_facts self.old }
    {
        replace(&mut self.book, Book::new(alloc, key))
    }

    /// What an item comes to whose change, where it says one, the schema takes: its refusal, a fact that is put under
    /// an id, or an id whose fact is taken out. The only error is that memory ran out, and only an amendment takes some.
    pub(crate) fn rule(
        &self,
        alloc: Global,
        schema: &Schema,
        what: Result<Change, LineFault>,
    ) -> Result<Ruling, AllocError>
        requires all_fit { AllFit schema.now (facts_of self.now.book) }
        requires taken { says_taken schema.now what ≡ true }
        ensures ruling { IfOk result (IsRuling schema.now self.now.book what) }
        ensures fits { IfOk result (RulingFits schema.now) }
        ensures amends { OnErr result (says_amendment what ≡ true) }
    {
        match what {
            Ok(change) => self.rule_change(alloc, schema, change),
            Err(fault) => Ok(Ruling::Refuse {
                code: code_of_fault(schema, fault),
            }),
        }
    }

    // What a change comes to that the schema takes.
    fn rule_change(
        &self,
        alloc: Global,
        schema: &Schema,
        change: Change,
    ) -> Result<Ruling, AllocError>
        requires all_fit { AllFit schema.now (facts_of self.now.book) }
        requires taken { takes schema.now change ≡ true }
        ensures ruling { IfOk result (IsRuling schema.now self.now.book (Ok change)) }
        ensures fits { IfOk result (RulingFits schema.now) }
        ensures amends { OnErr result (is_amendment change ≡ true) }
    {
        if let Some(code) = self.code(schema, &change) {
            drop(change);
            return Ok(Ruling::Refuse { code });
        }
        self.settle(alloc, change)
    }

    // The code of a change that is refused.
    fn code(&self, schema: &Schema, change: &Change) -> Option<u8>
        ensures { result ≡ code_by_presence schema.now change.now
            (is_some (fact_at self.now.book (id_of change.now))) }
    {
        code_by_presence(schema, change, self.book.has(id_of(change)))
    }

    // What a change comes to that isn't refused.
    fn settle(&self, alloc: Global, change: Change) -> Result<Ruling, AllocError>
        requires alike { AmendsAlike self.now.book change }
        requires lawful { refused_by self.now.book change ≡ None }
        ensures settles { IfOk result (ComesTo self.now.book change) }
        ensures amends { OnErr result (is_amendment change ≡ true) }
    {
        match change {
            Change::Insert { id, fact } => Ok(Ruling::Put { id, fact }),
            Change::Update { id, fact } => Ok(Ruling::Put { id, fact }),
            Change::Amend { id, part } => self.amended(alloc, id, part),
            Change::Upsert { id, fact } => Ok(Ruling::Put { id, fact }),
            Change::Delete { id } => Ok(Ruling::Take { id }),
            Change::Remove { id } => Ok(Ruling::Take { id }),
        }
    }

    // What an amendment comes to that isn't refused.
    fn amended(&self, alloc: Global, id: Text, part: Partial) -> Result<Ruling, AllocError>
        requires alike { AmendsAlike self.now.book (Change.Amend id part) }
        requires lawful { refused_by self.now.book (Change.Amend id part) ≡ None }
        ensures { IfOk result (ComesTo self.now.book (Change.Amend id part)) }
    {
        let old = self.book.get(&id).unwrap();
        let fact = part.over(alloc, old)?;
        Ok(Ruling::Put { id, fact })
    }

    /// Takes an item whose change, where it says one, the schema takes: a refused one is noted with its code, and the
    /// change of any other is made in the book. Where memory runs out, the account is as it was, and the item is
    /// given up.
    pub(crate) fn enter(&mut self, schema: &Schema, item: Item) -> Result<(), AllocError>
        requires all_fit { AllFit schema.now (facts_of self.old.book) }
        requires taken { says_taken schema.now item.what ≡ true }
        ensures enters { OnOk result (Enters schema.now item self.old self.new) }
        ensures err { OnErr result (self.new ≡ self.old) }
    {
        let Item { number, what } = item;
        let change = match what {
            Ok(change) => change,
            Err(fault) => return self.refuse(number, code_of_fault(schema, fault)),
        };
        match self.book.enter(change) {
            Ok(_) => Ok(()),
            Err(BookFault::Present) => self.refuse(number, present_code(schema)),
            Err(BookFault::Absent) => self.refuse(number, absent_code(schema)),
            Err(BookFault::Memory) => Err(AllocError),
        }
    }

    /// Notes a refused item; where memory runs out, the account is as it was.
    pub(crate) fn refuse(&mut self, number: u32, code: u8) -> Result<(), AllocError>
        ensures ok { OnOk result (self.new ≡ with_refusal self.old number code) }
        ensures err { OnErr result (self.new ≡ self.old) }
        ensures book { self.new.book ≡ self.old.book }
    {
        self.refusals.push(Refusal { number, code })?;
        Ok(())
    }

    /// Puts a fact under an id; the fact that was there comes out. Where memory runs out, the account is as it was,
    /// and the fact comes back.
    pub(crate) fn put(&mut self, id: Text, fact: Fact) -> Result<Option<Fact>, Fact>
        ensures put { IfOk result (λ gone. Exchanges id gone (Some fact) self.old self.new) }
        ensures back { IfErr result (λ back. back ≡ fact) }
        ensures err { OnErr result (self.new ≡ self.old) }
    {
        self.book.put(id, fact)
    }

    /// Takes the fact under an id out, if there is one. It takes no memory.
    pub(crate) fn take(&mut self, id: &Text) -> Option<Fact>
        ensures { Exchanges id.now result None self.old self.new }
    {
        self.book.take(id)
    }

    /// The facts of the source, each under its id.
    pub fn book(&self) -> &Book
        ensures { result.now ≡ self.now.book }
    {
        &self.book
    }

    /// The refusals, in the order of the items.
    pub fn refusals(&self) -> &[Refusal]
        ensures { result.now ≡ self.now.refusals }
    {
        self.refusals.as_slice()
    }
}
