//! Ledgers that only clauses see.
ghost use Rattle.std.specs.Prelude.{◌≡◌};
ghost use Rattle.std.specs.Borrow.{ftrue};
ghost use Rattle.cube_ledger.specs.Interest.{ledger_of_interest};
ghost use Rattle.cube_ledger.specs.Ledger.{LedgerView};
ghost use Rattle.cube_build.specs.CounterShares.{appended};
ghost use Rattle.cube_build.specs.Counting.{putting, refusing};
ghost use Rattle.cube_build.specs.Sharded.{united};

use cube_core::{Condition, Fact, Text};
use cube_ledger::Ledger;
use std::marker::{Model, PhantomData};

/// A ledger, as clauses see it; it has no bytes.
///
/// Nothing in memory says what it has, so whoever keeps one says by an `invariant` what follows from it. `read`, which is
/// proved by hand, is all that makes one.
#[derive(Drop)]
pub struct LedgerTrace {
    nothing: PhantomData<()>,
    pub ghost ledger: { LedgerView },
}

impl Model for LedgerTrace {
    ghost also_owns = { λ _. ftrue };
}

/// What the trace of a ledger is read off.
trait Traced {
    ghost ledger: { Self → LedgerView };
}

impl LedgerTrace {
    /// The trace of the ledger that a value stands for.
    fn read<X: Traced>(x: &X) -> LedgerTrace
        ensures { result.ledger ≡ X.ledger x.now }
    {
        let _ = x;
        LedgerTrace {
            nothing: PhantomData,
        }
    }

    /// The trace of a ledger.
    pub fn of(ledger: &Ledger) -> LedgerTrace
        ensures { result.ledger ≡ ledger.now }
    {
        LedgerTrace::read(&Kept { ledger })
    }

    /// The trace of this ledger after an item of a source was refused.
    pub fn refusing(&self, source: u32, number: u32, code: u8) -> LedgerTrace
        ensures { result.ledger ≡ refusing self.now.ledger source number code }
    {
        LedgerTrace::read(&Refused {
            old: self,
            source,
            number,
            code,
        })
    }

    /// The trace of this ledger with a fact of a source more, under an id.
    pub fn putting(&self, source: u32, id: &Text, fact: &Fact) -> LedgerTrace
        ensures { result.ledger ≡ putting self.now.ledger source id.now fact.now }
    {
        LedgerTrace::read(&Put {
            old: self,
            source,
            id,
            fact,
        })
    }

    /// The trace of this ledger with the accounts of another after its own.
    pub fn appending(&self, other: &LedgerTrace) -> LedgerTrace
        ensures { result.ledger ≡ appended self.now.ledger other.now.ledger }
    {
        LedgerTrace::read(&Appended { old: self, other })
    }

    /// The trace of the ledger of one source that has the facts of the accounts of one, and the refusals of another.
    pub fn uniting(apart: &Ledger, refused: &Ledger) -> LedgerTrace
        ensures { result.ledger ≡ united apart.now refused.now }
    {
        LedgerTrace::read(&United { apart, refused })
    }

    /// The trace of this ledger with the facts of interest alone.
    pub fn keeping(&self, conditions: &[Condition]) -> LedgerTrace
        ensures { result.ledger ≡ ledger_of_interest conditions.now self.now.ledger }
    {
        LedgerTrace::read(&OfInterest {
            old: self,
            conditions,
        })
    }
}

#[derive(Drop)]
struct Kept<'a> {
    ledger: &'a Ledger,
}

impl<'a> Traced for Kept<'a> {
    ghost ledger = { λ x. x.ledger.now };
}

#[derive(Drop)]
struct Refused<'a> {
    old: &'a LedgerTrace,
    source: u32,
    number: u32,
    code: u8,
}

impl<'a> Traced for Refused<'a> {
    ghost ledger = { λ x. refusing x.old.now.ledger x.source x.number x.code };
}

#[derive(Drop)]
struct Put<'a> {
    old: &'a LedgerTrace,
    source: u32,
    id: &'a Text,
    fact: &'a Fact,
}

impl<'a> Traced for Put<'a> {
    ghost ledger = { λ x. putting x.old.now.ledger x.source x.id.now x.fact.now };
}

#[derive(Drop)]
struct Appended<'a> {
    old: &'a LedgerTrace,
    other: &'a LedgerTrace,
}

impl<'a> Traced for Appended<'a> {
    ghost ledger = { λ x. appended x.old.now.ledger x.other.now.ledger };
}

#[derive(Drop)]
struct United<'a> {
    apart: &'a Ledger,
    refused: &'a Ledger,
}

impl<'a> Traced for United<'a> {
    ghost ledger = { λ x. united x.apart.now x.refused.now };
}

#[derive(Drop)]
struct OfInterest<'a> {
    old: &'a LedgerTrace,
    conditions: &'a [Condition],
}

impl<'a> Traced for OfInterest<'a> {
    ghost ledger = { λ x. ledger_of_interest x.conditions.now x.old.now.ledger };
}

unsafe impl Send for LedgerTrace {}

unsafe impl Sync for LedgerTrace {}
