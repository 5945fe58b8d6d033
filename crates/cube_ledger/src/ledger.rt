//! The books and the refusals of all sources.
ghost use Rattle.std.specs.Prelude.{◌≡◌, ◌≤◌, ◌+◌, ◌++◌, ◌∷◌, [], None, Some, true, length, map, IfOk, IfErr, OnOk, OnErr, replicate};
ghost use Rattle.cube_core.specs.Arrival.{Arrivals};
ghost use Rattle.cube_core.specs.Takes.{fits};
ghost use Rattle.cube_ledger.specs.Book.{facts_of};
ghost use Rattle.cube_ledger.specs.Ledger.{AllFit, AtSource, Enters, Exchanges, IsRuling, LedgerStandsAt, RulingFits, account_of, all_facts, ledger_without_facts, new_account, says_amendment, says_taken, with_refusal, without_facts};
ghost use Rattle.cube_ledger.specs.Interest.{account_of_interest, ledger_of_interest};

use crate::account::Account;
use crate::book::Book;
use crate::code::{has_shape, says_taken, shape_code};
use crate::ruling::Ruling;
use cube_core::{Change, Condition, Fact, HashKey, Item, LineFault, Refusal, Schema, Text};
use cube_feed::FeedItem;
use std::alloc::{AllocError, Global};
use std::marker::Model;
use std::thread;
use std::thread::Threads;

/// How many facts a book has at least that is freed on a thread of its own.
const LARGE: usize = 4_096;

/// The books and the refusals of 1 to 64 sources, each known by its number from 1.
#[derive(Drop)]
pub struct Ledger {
    alloc: Global,
    schema: Schema,
    accounts: Vec<Account>,
}

impl Model for Ledger {
    ghost use Rattle.cube_ledger.specs.Ledger.{LedgerView, IsLedger};

    ghost Value = { LedgerView };

    ghost view = { λ l. record { schema = l.schema; accounts = l.accounts.items } };

    ghost invariant = { λ l. IsLedger l.schema l.accounts.items };
}

impl Ledger {
    /// A ledger of 1 to 64 sources of which no item came. The only error is that memory ran out.
    pub fn new(alloc: Global, schema: &Schema, sources: u32) -> Result<Ledger, AllocError>
        requires { sources ≤ 64 }
        ensures schema { IfOk result (λ ledger. ledger.schema ≡ schema.now) }
        ensures accounts { IfOk result (λ ledger. ledger.accounts ≡ replicate sources new_account) }
        ensures stands { IfOk result (λ ledger. LedgerStandsAt ledger []) }
    {
        Ok(Ledger {
            alloc,
            schema: schema.copy(alloc)?,
            accounts: new_accounts(alloc, schema.hash_key(), sources)?,
        })
    }

    /// The schema.
    pub fn schema(&self) -> &Schema
        ensures value { result.now ≡ self.now.schema }
        ensures fit { AllFit self.now.schema (all_facts self.now.accounts) }
    {
        &self.schema
    }

    /// How many sources there are.
    pub fn sources(&self) -> u32
        ensures { result ≡ length self.now.accounts }
    {
        self.accounts.len() as u32
    }

    /// The refusals of a source, in the order of its items.
    pub fn refusals(&self, source: u32) -> &[Refusal]
        requires first { 1 ≤ source }
        requires last { source ≤ length self.now.accounts }
        ensures { result.now ≡ (account_of self.now source).refusals }
    {
        self.accounts[source as usize - 1].refusals()
    }

    /// What an item of a source comes to: its refusal, a fact that is put under an id, or an id whose fact is taken
    /// out. The only error is that memory ran out, and only an amendment takes some.
    pub fn rule(&self, source: u32, what: Result<Change, LineFault>) -> Result<Ruling, AllocError>
        requires first { 1 ≤ source }
        requires last { source ≤ length self.now.accounts }
        ensures ruling { IfOk result
            (IsRuling self.now.schema (account_of self.now source).book what) }
        ensures fits { IfOk result (RulingFits self.now.schema) }
        ensures amends { OnErr result (says_amendment what ≡ true) }
    {
        if !says_taken(&self.schema, &what) {
            drop(what);
            return Ok(Ruling::Refuse {
                code: shape_code(&self.schema),
            });
        }
        let account = &self.accounts[source as usize - 1];
        account.rule(self.alloc, &self.schema, what)
    }

    /// Notes a refused item of a source; where memory runs out, the ledger is as it was.
    pub fn refuse(&mut self, source: u32, number: u32, code: u8) -> Result<(), AllocError>
        requires first { 1 ≤ source }
        requires last { source ≤ length self.old.accounts }
        ensures ok { OnOk result
            (AtSource (λ old new. new ≡ with_refusal old number code) source self.old self.new) }
        ensures err { OnErr result (self.new ≡ self.old) }
    {
        let account = &mut self.accounts[source as usize - 1];
        account.refuse(number, code)
    }

    /// Puts a fact that fits under an id of a source; the fact that was there comes out. Where memory runs out, the
    /// ledger is as it was, and the fact comes back.
    pub fn put(&mut self, source: u32, id: Text, fact: Fact) -> Result<Option<Fact>, Fact>
        requires first { 1 ≤ source }
        requires last { source ≤ length self.old.accounts }
        requires fits { fits self.old.schema fact ≡ true }
        ensures put { IfOk result
            (λ gone. AtSource (Exchanges id gone (Some fact)) source self.old self.new) }
        ensures back { IfErr result (λ back. back ≡ fact) }
        ensures err { OnErr result (self.new ≡ self.old) }
    {
        let account = &mut self.accounts[source as usize - 1];
        account.put(id, fact)
    }

    /// Takes the fact under an id of a source out, if there is one. It takes no memory.
    pub fn take(&mut self, source: u32, id: &Text) -> Option<Fact>
        requires first { 1 ≤ source }
        requires last { source ≤ length self.old.accounts }
        ensures { AtSource (Exchanges id.now result None) source self.old self.new }
    {
        let account = &mut self.accounts[source as usize - 1];
        account.take(id)
    }

    /// Takes an item of a source: a refused one is noted with its code, and the change of any other is made in the
    /// source's book. Where memory runs out, the ledger is as it was, and the item is given up.
    pub fn apply(&mut self, source: u32, item: Item) -> Result<(), AllocError>
        requires first { 1 ≤ source }
        requires last { source ≤ length self.old.accounts }
        ensures enters { OnOk result
            (AtSource (Enters self.old.schema item) source self.old self.new) }
        ensures stands { OnOk result ((arrivals : Arrivals) → LedgerStandsAt self.old arrivals →
            LedgerStandsAt self.new (arrivals ++ (source, item) ∷ [])) }
        ensures err { OnErr result (self.new ≡ self.old) }
    {
        let is_taken = says_taken(&self.schema, &item.what);
        self.enter(source, item, is_taken)
    }

    /// Takes an item of a feed as [`Ledger::apply`] does, without a look at its texts, which are lawful.
    #[inline(always)]
    pub fn apply_fed(&mut self, source: u32, item: FeedItem) -> Result<(), AllocError>
        requires first { 1 ≤ source }
        requires last { source ≤ length self.old.accounts }
        ensures enters { OnOk result
            (AtSource (Enters self.old.schema item) source self.old self.new) }
        ensures stands { OnOk result ((arrivals : Arrivals) → LedgerStandsAt self.old arrivals →
            LedgerStandsAt self.new (arrivals ++ (source, item) ∷ [])) }
        ensures err { OnErr result (self.new ≡ self.old) }
    {
        let is_taken = has_shape(&self.schema, item.what());
        self.enter(source, item.into_item(), is_taken)
    }

    /// The same of an item whose change, where it says one, the schema takes, as a feed's items are.
    pub(crate) fn apply_taken(&mut self, source: u32, item: Item) -> Result<(), AllocError>
        requires first { 1 ≤ source }
        requires last { source ≤ length self.old.accounts }
        requires taken { says_taken self.old.schema item.what ≡ true }
        ensures enters { OnOk result
            (AtSource (Enters self.old.schema item) source self.old self.new) }
        ensures stands { OnOk result ((arrivals : Arrivals) → LedgerStandsAt self.old arrivals →
            LedgerStandsAt self.new (arrivals ++ (source, item) ∷ [])) }
        ensures err { OnErr result (self.new ≡ self.old) }
    {
        self.enter_taken(source, item)
    }

    /// Puts the accounts of another ledger, which has the same schema, after its own; at most 64 sources in all. Nothing
    /// of them is copied. Where memory runs out, the ledger is as it was, and the other is given up.
    pub fn append(&mut self, other: Ledger) -> Result<(), AllocError>
        requires schema { other.schema ≡ self.old.schema }
        requires most { length self.old.accounts + length other.accounts ≤ 64 }
        ensures schema { self.new.schema ≡ self.old.schema }
        ensures accounts { OnOk result (self.new.accounts ≡ self.old.accounts ++ other.accounts) }
        ensures err { OnErr result (self.new ≡ self.old) }
    {
        let Ledger {
            alloc: _,
            schema: _,
            accounts,
        } = other;
        let mut accounts = accounts;
        self.accounts.append(&mut accounts)
    }

    /// Keeps the facts of interest of every book, those of which all conditions hold, and lets go of the others; schema,
    /// sources and refusals stay. With no condition nothing is looked at. It takes no memory.
    ///
    /// The ledger stands at no feeds' items any more: what comes later finds the ids of the others absent.
    pub fn keep(&mut self, conditions: &[Condition])
        ensures { self.new ≡ ledger_of_interest conditions.now self.old }
    {
        if !conditions.is_empty() {
            keep_of_interest(self.accounts.as_mut_slice(), conditions);
        }
    }

    /// Lets go of the facts of every book; schema, sources and refusals stay. It takes no memory.
    ///
    /// A thread that nobody waits for frees the memory of a large book; where none can be started, it is freed at once.
    pub fn forget<T: Threads>(&mut self, rt: &T)
        ensures { self.new ≡ ledger_without_facts self.old }
    {
        let key = self.schema.hash_key();
        forget_facts(rt, self.accounts.as_mut_slice(), self.alloc, key);
    }

    // What an item does to the account of its source, where it was seen whether the schema takes its change.
    #[inline(always)]
    fn enter(&mut self, source: u32, item: Item, is_taken: bool) -> Result<(), AllocError>
        requires first { 1 ≤ source }
        requires last { source ≤ length self.old.accounts }
        requires taken { is_taken ≡ says_taken self.old.schema item.what }
        ensures enters { OnOk result
            (AtSource (Enters self.old.schema item) source self.old self.new) }
        ensures err { OnErr result (self.new ≡ self.old) }
    {
        if !is_taken {
            let code = shape_code(&self.schema);
            let number = item.number;
            drop(item);
            return self.refuse(source, number, code);
        }
        self.enter_taken(source, item)
    }

    #[inline(always)]
    fn enter_taken(&mut self, source: u32, item: Item) -> Result<(), AllocError>
        requires first { 1 ≤ source }
        requires last { source ≤ length self.old.accounts }
        requires taken { says_taken self.old.schema item.what ≡ true }
        ensures enters { OnOk result
            (AtSource (Enters self.old.schema item) source self.old self.new) }
        ensures err { OnErr result (self.new ≡ self.old) }
    {
        let account = &mut self.accounts[source as usize - 1];
        account.enter(&self.schema, item)
    }

    /// The facts of all books, source after source. The only error is that memory ran out.
    pub fn facts(&self) -> Result<Vec<&Fact>, AllocError>
        ensures facts { IfOk result (λ facts.
            map (λ fact. fact.now) facts.items ≡ all_facts self.now.accounts) }
        ensures fit { AllFit self.now.schema (all_facts self.now.accounts) }
    {
        let mut facts = Vec::new(self.alloc);
        for account in self.accounts.iter() {
            push_facts(&mut facts, account.book())?;
        }
        Ok(facts)
    }

    /// The accounts of the sources, from the first.
    pub fn accounts(&self) -> &[Account]
        ensures accounts { result.now ≡ self.now.accounts }
        ensures fit { AllFit self.now.schema (all_facts self.now.accounts) }
    {
        self.accounts.as_slice()
    }
}

// An account for each of so many sources.
fn new_accounts(alloc: Global, key: HashKey, sources: u32) -> Result<Vec<Account>, AllocError>
    ensures { IfOk result (λ accounts. accounts.items ≡ replicate sources new_account) }
{
    let mut accounts = Vec::new(alloc);
    for _ in 0..sources {
        accounts.push(Account::new(alloc, key))?;
    }
    Ok(accounts)
}

// Keeps the facts of interest of every account.
fn keep_of_interest(accounts: &mut [Account], conditions: &[Condition])
    ensures { accounts.new ≡ map (account_of_interest conditions.now) accounts.old }
{
    for account in accounts.iter_mut() {
        account.keep(conditions);
    }
}

// Lets go of the facts of every account.
fn forget_facts<T: Threads>(rt: &T, accounts: &mut [Account], alloc: Global, key: HashKey)
    ensures { accounts.new ≡ map without_facts accounts.old }
{
    for account in accounts.iter_mut() {
        free_aside(rt, account.take_book(alloc, key));
    }
}

// Frees a book, a large one on a thread that nobody waits for.
fn free_aside<T: Threads>(rt: &T, book: Book) {
    if book.len() < LARGE {
        drop(book);
        return;
    }
    // Where no thread can be started, the book is freed here.
    let _freeing = thread::spawn(rt, move || drop(book));
}

// Puts the facts of a book behind others. The only error is that memory ran out.
fn push_facts<'b>(facts: &mut Vec<&'b Fact>, book: &'b Book) -> Result<(), AllocError>
    ensures { OnOk result (map (λ fact. fact.now) facts.new.items
        ≡ map (λ fact. fact.now) facts.old.items ++ facts_of book.now) }
{
    facts.reserve(book.len())?;
    for fact in book.facts() {
        facts.push(fact)?;
    }
    Ok(())
}
