//! A cube that is kept right change by change, and answers questions in between.
ghost use Rattle.std.specs.Prelude.{◌≡◌, ◌==◌, ◌≤◌, ◌-◌, ℕ, not, length, get_or, IfOk, IfErr, OnOk, OnErr};
ghost use Rattle.cube_core.specs.Arrival.{Arrivals, of_sources};
ghost use Rattle.cube_live.specs.Live.{CanAsk, ExplainsLive, IsLive, LiveStandsAt, SameLive, TakesNext};
ghost use Rattle.cube_live.specs.Shows.{Shows};

use crate::refusals::{print_refusals, refusals_after_text};
use crate::request::Question;
use crate::rows::{cube_text, rows_text};
use cube_build::Parted;
use cube_core::{Change, Item, LineFault, Schema};
use cube_ledger::Ledger;
use std::alloc::{AllocError, Global};
use std::marker::Model;
use std::thread::Threads;

/// Why a record wasn't taken.
#[derive(Clone, Copy, Debug, PartialEq, Eq)]
pub enum LiveFault {
    /// The source has the last record that the schema takes.
    TooMany,
    /// A growth was refused.
    Memory,
}

/// The books, the refusals and the cubes of 64 sources, and the number of the last record of each that was taken.
///
/// A change is made in the books at once, and in the cubes before the next question is answered.
pub struct Live<'s> {
    alloc: Global,
    schema: &'s Schema,
    parted: Parted,
    numbers: Vec<u32>,
    threads: usize,
}

impl<'s> Model for Live<'s> {
    ghost use Rattle.cube_live.specs.Live.{IsLive, LiveView};

    ghost Value = { LiveView };

    ghost view = { λ l. record { schema = l.schema.now; ledger = l.parted; numbers = l.numbers.items } };

    ghost invariant = { λ l. IsLive l.schema.now l.parted l.numbers.items };
}

// By hand, so that no caller proves again how its parts are let go.
impl Drop for Live<'_> {
    fn drop(self) {
        let Live {
            alloc: _,
            schema: _,
            parted: _parted,
            numbers: _numbers,
            threads: _,
        } = self;
    }
}

impl<'s> Live<'s> {
    /// What is kept of 64 sources, over all grouping sets of the schema, where these are the numbers of the last records of
    /// the sources that were taken, 0 where none was; at most so many threads have the cubes follow the books.
    pub fn new(
        alloc: Global,
        schema: &'s Schema,
        parted: Parted,
        numbers: Vec<u32>,
        threads: usize,
    ) -> Live<'s>
        requires schema { parted.schema ≡ schema.now }
        requires sources { length parted.accounts ≡ 64 }
        requires numbered { length numbers.items ≡ 64 }
        requires at_most { (place : ℕ) → get_or numbers.items place 0 ≤ schema.now.max_records }
        ensures schema { result.schema ≡ schema.now }
        ensures ledger { result.ledger ≡ parted }
        ensures numbers { result.numbers ≡ numbers.items }
    {
        Live {
            alloc,
            schema,
            parted,
            numbers,
            threads,
        }
    }

    /// Takes what the next record of a source says, 1 to 64: a change, or a line fault. The cubes wait for the next question.
    ///
    /// It is refused, and noted so, as an item of a feed is, and that is no error. On an error nothing changed.
    pub fn apply(&mut self, source: u32, what: Result<Change, LineFault>) -> Result<(), LiveFault>
        requires first { 1 ≤ source }
        requires last { source ≤ 64 }
        ensures takes { OnOk result (TakesNext source what self.old self.new) }
        ensures schema { self.new.schema ≡ self.old.schema }
        ensures same { OnErr result (SameLive self.old self.new) }
        ensures why { IfErr result (ExplainsLive source self.old) }
    {
        let place = source as usize - 1;
        let number = self.numbers[place];
        if number == self.schema.max_records() {
            drop(what);
            return Err(LiveFault::TooMany);
        }
        let number = number + 1;
        match self.parted.apply(source, Item { number, what }) {
            Ok(()) => {
                self.numbers[place] = number;
                Ok(())
            }
            Err(_) => Err(LiveFault::Memory),
        }
    }

    /// The text that answers a question over what was taken. The only error is that memory ran out.
    pub fn text_of<T: Threads + Sync>(
        &mut self,
        rt: &T,
        question: &Question,
    ) -> Result<Vec<u8>, AllocError>
        requires { CanAsk self.old.schema question.now }
        ensures text { IfOk result (λ text. (arrivals : Arrivals) → LiveStandsAt self.old arrivals →
            Shows question.now self.old.schema (of_sources 64 arrivals) text.items) }
        ensures same { self.new ≡ self.old }
    {
        if !matches!(question, Question::Sync) {
            self.settle(rt)?;
        }
        self.shown(question)
    }

    /// Has the cubes follow the books, as each question does. The only error is that memory ran out.
    pub fn settle<T: Threads + Sync>(&mut self, rt: &T) -> Result<(), AllocError>
        ensures { self.new ≡ self.old }
    {
        self.parted.settle(rt, self.threads)
    }

    // The text that answers a question, where the cubes have followed the books.
    fn shown(&self, question: &Question) -> Result<Vec<u8>, AllocError>
        requires { CanAsk self.now.schema question.now }
        ensures { IfOk result (λ text. (arrivals : Arrivals) → LiveStandsAt self.now arrivals →
            Shows question.now self.now.schema (of_sources 64 arrivals) text.items) }
    {
        let (alloc, schema, parted) = (self.alloc, self.schema, &self.parted);
        match question {
            Question::Print => cube_text(alloc, schema, parted),
            Question::Slice(_) => rows_text(alloc, schema, parted, question),
            Question::Drill(_, _) => rows_text(alloc, schema, parted, question),
            Question::RollUp(_, _) => rows_text(alloc, schema, parted, question),
            Question::Refusals => print_refusals(alloc, parted.ledger()),
            Question::RefusalsAfter(source, number) => refusals_after_text(
                alloc,
                *source,
                *number,
                parted.ledger().refusals(*source),
            ),
            Question::Sync => Ok(Vec::new(alloc)),
        }
    }

    /// Whether a record of a source, 1 to 64, may be taken: it hasn't the last that the schema takes.
    pub fn has_room(&self, source: u32) -> bool
        requires first { 1 ≤ source }
        requires last { source ≤ 64 }
        ensures { result ≡ not (get_or self.now.numbers (source - 1) 0 == self.now.schema.max_records) }
    {
        self.numbers[source as usize - 1] != self.schema.max_records()
    }

    /// The schema.
    pub fn schema(&self) -> &'s Schema
        ensures { result.now ≡ self.now.schema }
    {
        self.schema
    }

    /// The books and the refusals.
    pub fn ledger(&self) -> &Ledger
        ensures value { result.now ≡ self.now.ledger }
        ensures live { IsLive self.now.schema self.now.ledger self.now.numbers }
    {
        self.parted.ledger()
    }

    /// The books and the refusals alone; no change follows.
    pub fn into_ledger(self) -> Ledger
        ensures value { result ≡ self.entry.ledger }
        ensures live { IsLive self.entry.schema self.entry.ledger self.entry.numbers }
    {
        let Live {
            alloc: _,
            schema: _,
            parted,
            numbers: _numbers,
            threads: _,
        } = self;
        parted.into_ledger()
    }
}
