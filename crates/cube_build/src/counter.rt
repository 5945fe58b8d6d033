//! What takes feeds that need no book.
ghost use Rattle.std.specs.Prelude.{◌≡◌, ◌≤◌, ◌<◌, ◌+◌, ◌∷◌, [], Ok, Err, true, false, length, IfOk, OnOk, OnErr};
ghost use Rattle.cube_core.specs.Conditions.{of_interest};
ghost use Rattle.cube_core.specs.Refusals.{code_of_fault};
ghost use Rattle.cube_core.specs.Takes.{fits};
ghost use Rattle.cube_core.specs.declared.change.Change.TheVariants.{Insert};
ghost use Rattle.cube_build.specs.Builder.{GainsFacts};
ghost use Rattle.cube_build.specs.CounterShares.{IsJoined};
ghost use Rattle.cube_build.specs.Counting.{Admits, AreCountsOf, CountsItem, CountsNoText, NotesFault, IsNewCounter, IsOneCounter, weight_of, weight_with};

use crate::counts::Counts;
use crate::trace::LedgerTrace;
use cube_cells::{Cube, Numbers};
use cube_core::{Change, Condition, Fact, Item, LineFault, Schema, Text, hold};
use cube_feed::{FeedItem, TakesItems};
use cube_ledger::{Ledger, Ruling};
use std::alloc::{AllocError, Global};
use std::marker::Model;

/// The refusals of feeds of which each record is an insert under its number, and the cube over the finest grouping set of
/// the facts of interest, each of which is counted as it is taken, and let go.
///
/// No text is counted of these feeds. Contracts see the ledger of all that was taken. Of each source the weight of the last id is kept: where ids weigh the
/// more the later they come, none is there twice.
#[derive(Drop)]
pub(crate) struct Counter<'c, N: Numbers> {
    conditions: &'c [Condition],
    weights: Vec<u64>,
    refused: Ledger,
    cube: Cube<N>,
    trace: LedgerTrace,
    is_spent: bool,
}

impl<'c, N: Numbers> Model for Counter<'c, N> {
    ghost use Rattle.cube_build.specs.Counting.{CounterView, IsCounter};

    ghost Value = { CounterView };

    ghost view = { λ c. record {
      is_spent = c.is_spent;
      conditions = c.conditions.now;
      ledger = c.trace.ledger;
    } };

    ghost invariant = { λ c.
        IsCounter c.is_spent c.conditions.now c.refused c.trace.ledger c.weights.items c.cube };
}

impl<'c, N: Numbers> TakesItems for Counter<'c, N> {
    ghost use Rattle.std.specs.Prelude.{length, false};
    ghost use Rattle.cube_build.specs.Counting.{CounterStandsFrom};

    ghost sources = { λ counter. length counter.ledger.accounts };

    ghost stands = { CounterStandsFrom };

    ghost full = { λ counter. false };

    fn sources(&self) -> u32 {
        self.refused.sources()
    }

    fn is_full(&self) -> bool {
        false
    }

    fn take_item(&mut self, source: u32, item: FeedItem) -> Result<(), AllocError> {
        self.apply(source, item.into_item())
    }
}

impl<'c, N: Numbers> Counter<'c, N> {
    /// A counter of so many sources that counts the facts of which all conditions hold. The only error is that memory ran
    /// out.
    pub fn new(
        alloc: Global,
        schema: &Schema,
        sources: u32,
        conditions: &'c [Condition],
    ) -> Result<Counter<'c, N>, AllocError>
        requires sources { sources ≤ 64 }
        requires plain { CountsNoText schema.now }
        ensures { IfOk result (IsNewCounter schema.now sources conditions.now) }
    {
        let refused = Ledger::new(alloc, schema, sources)?;
        let cube = Cube::finest_over(alloc, schema)?;
        let weights = vec![in alloc; 0u64; sources as usize]?;
        let trace = LedgerTrace::of(&refused);
        Ok(Counter {
            conditions,
            weights,
            refused,
            cube,
            trace,
            is_spent: false,
        })
    }

    // Takes the next item of a source. The only error is that memory ran out, or that the item is none of a feed without
    // ids and operations.
    fn apply(&mut self, source: u32, item: Item) -> Result<(), AllocError>
        requires { (1 ≤ source) × (source ≤ length self.old.ledger.accounts) }
        ensures sources { length self.new.ledger.accounts ≡ length self.old.ledger.accounts }
        ensures counts { OnOk result (CountsItem source item self.old self.new) }
        ensures spent { OnErr result (self.new.is_spent ≡ true) }
    {
        if self.is_spent {
            drop(item);
            return Err(AllocError);
        }
        let Item { number, what } = item;
        match what {
            Err(fault) => self.refuse(source, number, fault),
            Ok(Change::Insert { id, fact }) => self.count(source, number, &id, &fact),
            Ok(other) => {
                drop(other);
                self.is_spent = true;
                Err(AllocError)
            }
        }
    }

    // Notes a line fault of a source.
    fn refuse(&mut self, source: u32, number: u32, fault: LineFault) -> Result<(), AllocError>
        requires source { (1 ≤ source) × (source ≤ length self.old.ledger.accounts) }
        requires unspent { self.old.is_spent ≡ false }
        ensures sources { length self.new.ledger.accounts ≡ length self.old.ledger.accounts }
        ensures counts { OnOk result
            (CountsItem source (record { number = number; what = Err fault }) self.old self.new) }
        ensures spent { OnErr result (self.new.is_spent ≡ true) }
    {
        match note_fault(&mut self.refused, source, number, fault) {
            Ok(code) => {
                self.trace = self.trace.refusing(source, number, code);
                Ok(())
            }
            Err(error) => {
                self.is_spent = true;
                Err(error)
            }
        }
    }

    // Counts the fact of an insert of a source, where it is of interest.
    fn count(&mut self, source: u32, number: u32, id: &Text, fact: &Fact) -> Result<(), AllocError>
        requires source { (1 ≤ source) × (source ≤ length self.old.ledger.accounts) }
        requires unspent { self.old.is_spent ≡ false }
        ensures sources { length self.new.ledger.accounts ≡ length self.old.ledger.accounts }
        ensures counts { OnOk result
            (CountsItem source (record { number = number; what = Ok (Insert id.now fact.now) }) self.old self.new) }
        ensures spent { OnErr result (self.new.is_spent ≡ true) }
    {
        let place = source as usize - 1;
        let weight = weight_of(id);
        let last = self.weights[place];
        let schema = self.refused.schema();
        match admit(schema, &mut self.cube, self.conditions, last, weight, fact) {
            Ok(()) => {
                self.weights[place] = weight;
                self.trace = self.trace.putting(source, id, fact);
                Ok(())
            }
            Err(error) => {
                self.is_spent = true;
                Err(error)
            }
        }
    }

    /// Whether memory ran out for it.
    pub fn is_spent(&self) -> bool
        ensures { result ≡ self.now.is_spent }
    {
        self.is_spent
    }

    /// The counter that has the sources of another of the same schema and conditions after its own. The only error is that
    /// memory ran out.
    pub fn joined(self, more: Counter<'c, N>) -> Result<Counter<'c, N>, AllocError>
        requires unspent { (self.is_spent ≡ false) × (more.is_spent ≡ false) }
        requires schema { more.ledger.schema ≡ self.ledger.schema }
        requires conditions { more.conditions ≡ self.conditions }
        requires most { length self.ledger.accounts + length more.ledger.accounts ≤ 64 }
        ensures { IfOk result (IsJoined self.entry more.entry) }
    {
        let Counter {
            conditions,
            mut weights,
            mut refused,
            cube,
            trace,
            is_spent,
        } = self;
        let mut others = more;
        let cube = cube.merged(others.cube)?;
        refused.append(others.refused)?;
        weights.append(&mut others.weights)?;
        let trace = trace.appending(&others.trace);
        Ok(Counter {
            conditions,
            weights,
            refused,
            cube,
            trace,
            is_spent,
        })
    }

    /// What was counted, over the finest grouping set alone. The only error is that memory ran out before.
    pub fn finish(self) -> Result<Counts<N>, AllocError>
        ensures { IfOk result (AreCountsOf self.entry) }
    {
        if self.is_spent {
            return Err(AllocError);
        }
        let trace = self.trace.keeping(self.conditions);
        Ok(Counts::new(self.refused, self.cube, trace))
    }
}

// Notes a line fault of a source, and answers its code. Where memory runs out, the ledger is as it was.
fn note_fault(
    ledger: &mut Ledger,
    source: u32,
    number: u32,
    fault: LineFault,
) -> Result<u8, AllocError>
    requires { (1 ≤ source) × (source ≤ length ledger.old.accounts) }
    ensures noted { IfOk result (NotesFault ledger.old.schema fault source number ledger.old ledger.new) }
    ensures same { OnErr result (ledger.new ≡ ledger.old) }
{
    let code = code_of(ledger, source, fault)?;
    ledger.refuse(source, number, code)?;
    Ok(code)
}

// The code of a line fault of a source. The only error is that memory ran out.
fn code_of(ledger: &Ledger, source: u32, fault: LineFault) -> Result<u8, AllocError>
    requires { (1 ≤ source) × (source ≤ length ledger.now.accounts) }
    ensures { IfOk result (λ code. code_of_fault ledger.now.schema fault ≡ code) }
{
    let ruling = ledger.rule(source, Err(fault))?;
    match ruling {
        Ruling::Refuse { code } => Ok(code),
        Ruling::Put { .. } => Err(AllocError),
        Ruling::Take { .. } => Err(AllocError),
    }
}

// How much an id weighs.
fn weight_of(id: &Text) -> u64
    ensures { result ≡ weight_of id.now }
{
    id.as_str()
        .as_bytes()
        .iter()
        .fold(0u64, |weight, byte| weight_with(weight, *byte))
}

// A weight with one byte more.
fn weight_with(weight: u64, byte: u8) -> u64
    ensures { result ≡ weight_with weight byte }
{
    weight.wrapping_mul(10).wrapping_add(u64::from(byte))
}

// Adds the fact of an id of this weight, where it is of interest, if the last one weighs less and the fact fits. The only error
// is that memory ran out, or that one of these doesn't hold; no cell is asked then.
fn admit<N: Numbers>(
    schema: &Schema,
    cube: &mut Cube<N>,
    conditions: &[Condition],
    last: u64,
    weight: u64,
    fact: &Fact,
) -> Result<(), AllocError>
    requires { cube.old.schema ≡ schema.now }
    ensures schema { cube.new.schema ≡ cube.old.schema }
    ensures admits { OnOk result (Admits conditions.now last weight fact.now cube.old cube.new) }
{
    if weight <= last || !schema.fits(fact) {
        return Err(AllocError);
    }
    gather_where(cube, conditions, fact)
}

// Adds a fact of which all conditions hold. The only error is that memory ran out, or of numbers to count the facts with;
// no cell is asked then.
fn gather_where<N: Numbers>(
    cube: &mut Cube<N>,
    conditions: &[Condition],
    fact: &Fact,
) -> Result<(), AllocError>
    requires { fits cube.old.schema fact.now ≡ true }
    ensures schema { cube.new.schema ≡ cube.old.schema }
    ensures gains { OnOk result (GainsFacts (of_interest conditions.now (fact.now ∷ [])) cube.old cube.new) }
{
    if !hold(conditions, fact) {
        return Ok(());
    }
    if cube.facts() == u64::MAX {
        return Err(AllocError);
    }
    cube.gather(fact)
}

/// One counter of so many sources, in a list. The only error is that memory ran out.
pub(crate) fn new_counters<'c, N: Numbers>(
    alloc: Global,
    schema: &Schema,
    sources: u32,
    conditions: &'c [Condition],
) -> Result<Vec<Counter<'c, N>>, AllocError>
    requires sources { sources ≤ 64 }
    requires plain { CountsNoText schema.now }
    ensures { IfOk result (λ counters. IsOneCounter schema.now sources conditions.now counters.items) }
{
    let counter = Counter::new(alloc, schema, sources, conditions)?;
    let mut counters = Vec::with_capacity(alloc, 1)?;
    counters.push(counter)?;
    Ok(counters)
}
