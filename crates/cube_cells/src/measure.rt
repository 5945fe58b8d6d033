//! The values of one measure in a cell.
ghost use Rattle.std.specs.Prelude.{◌≡◌, ◌<◌, ◌≤◌, ◌+◌, ◌+ℤ◌, ◌-ℤ◌, ◌^◌, true, List, IsTrue, IfNone, IfOk, IfSome, OnOk, OnErr, ℤ, FitsSigned};
ghost use Rattle.std.specs.Int.{w128};
ghost use Rattle.std.specs.Option.{ForSome};
ghost use Rattle.cube_core.specs.Answer.{IsSum, IsLeast, IsGreatest, IsMean, IsDistinctCount, IsPercentile, IsSumOfSquares, IsVarianceAnswer, AreValues};
ghost use Rattle.cube_core.specs.Fraction.{IsInLowestTerms};
ghost use Rattle.cube_core.specs.Layout.{is_level};
ghost use Rattle.cube_core.specs.declared.aggregate.Answer.TheVariants.{Null, Whole};
ghost use Rattle.cube_values.specs.Bag.{AddsBag, SameHeld, size_of, held_of};
ghost use Rattle.cube_cells.specs.Tally.{AddsValue, IsBagOf, holds_value};

use cube_core::{Answer, Sequence, reduced, variance_from};
use cube_values::{Counted, Numbers, percentile_place};
use std::alloc::{AllocError, Global};
use std::marker::Model;

/// The values of one measure, nulls left out, with their sum.
#[derive(Drop)]
pub struct Measure<N: Numbers = Counted> {
    sum: i128,
    values: N,
}

impl<N: Numbers> Model for Measure<N> {
    ghost use Rattle.cube_values.specs.Bag.{Bag};
    ghost use Rattle.cube_cells.specs.Sum.{IsSumOf};

    ghost Value = { Bag };

    ghost view = { λ m. N.bag m.values };

    ghost invariant = { λ m. IsSumOf (N.bag m.values) m.sum };
}

impl<N: Numbers> Measure<N> {
    /// No value; it takes no memory.
    pub fn new(alloc: Global) -> Measure<N>
        ensures held { (x : ℤ) → held_of result x ≡ 0 }
        ensures size { size_of result ≡ 0 }
    {
        Measure {
            sum: 0,
            values: N::new(alloc),
        }
    }

    /// The same values. The only error is that memory ran out.
    pub fn copy(&self, alloc: Global) -> Result<Measure<N>, AllocError>
        ensures { IfOk result (SameHeld self.now) }
    {
        // So the prover learns that they are fewer than 2 ^ 64.
        let _count = self.count();
        let mut copy = Measure::new(alloc);
        copy.merge(self)?;
        Ok(copy)
    }

    /// Adds a value; a null changes nothing.
    pub fn plus(&mut self, value: Option<i64>) -> Result<(), AllocError>
        requires { size_of self.old + 1 < 2 ^ 64 }
        ensures added { OnOk result (AddsValue self.old self.new value) }
        ensures err { OnErr result (self.new ≡ self.old) }
    {
        if let Some(value) = value {
            self.values.add(value)?;
            self.sum = sum_with(self.sum, value);
        }
        Ok(())
    }

    /// Adds the values of another measure. Where memory runs out, no value is left.
    pub fn merge(&mut self, more: &Measure<N>) -> Result<(), AllocError>
        requires { size_of self.old + size_of more.now < 2 ^ 64 }
        ensures merged { OnOk result (AddsBag self.old self.new more.now) }
        ensures err { OnErr result (size_of self.new ≡ 0) }
    {
        if let Err(error) = self.values.merge(&more.values) {
            self.sum = 0;
            return Err(error);
        }
        self.sum = sum_of_both(self.sum, more.sum);
        Ok(())
    }

    /// Gives back the room beyond the values, and brings many in order where that is asked for. It takes no memory.
    pub fn shrink_to_fit(&mut self, in_order: bool)
        ensures { self.new ≡ self.old }
    {
        self.values.shrink_to_fit();
        if in_order {
            self.values.bring_in_order();
        }
    }

    /// How many values there are.
    pub fn count(&self) -> u64
        ensures { result ≡ size_of self.now }
    {
        self.values.len()
    }

    /// The sum of the values, null where there is none.
    pub fn sum(&self) -> Answer
        ensures { (values : List ℤ) → IsBagOf values self.now → IsSum values result }
    {
        if self.values.is_empty() {
            Answer::Null
        } else {
            Answer::Whole(self.sum)
        }
    }

    /// The least value, null where there is none.
    pub fn least(&self) -> Answer
        ensures { (values : List ℤ) → IsBagOf values self.now → IsLeast values result }
    {
        answer_of(self.values.least())
    }

    /// The greatest value, null where there is none.
    pub fn greatest(&self) -> Answer
        ensures { (values : List ℤ) → IsBagOf values self.now → IsGreatest values result }
    {
        answer_of(self.values.greatest())
    }

    /// The mean of the values in lowest terms, null where there is no value.
    pub fn mean(&self) -> Answer
        ensures { (values : List ℤ) → IsBagOf values self.now → IsMean values result }
    {
        if self.values.is_empty() {
            return Answer::Null;
        }
        let (p, q) = lowest_terms(self.sum, self.values.len());
        Answer::Ratio { p, q }
    }

    /// How many different values there are. The only error is that memory ran out.
    pub fn different(&self) -> Result<Answer, AllocError>
        requires { IsTrue N.keeps }
        ensures { IfOk result (λ answer. (values : List ℤ) → IsBagOf values self.now → IsDistinctCount values answer) }
    {
        let number = self.values.different()?;
        Ok(Answer::Count(number))
    }

    /// The value at the place of a percentile of this level, null where there is none. It takes no memory.
    pub fn percentile(&self, units: u16, places: u8) -> Answer
        requires keeps { IsTrue N.keeps }
        requires level { is_level units places ≡ true }
        ensures { (values : List ℤ) → IsBagOf values self.now → IsPercentile units places values result }
    {
        if self.values.is_empty() {
            return Answer::Null;
        }
        let place = percentile_place(units, places, self.values.len());
        Answer::Whole(i128::from(self.values.at_place(place)))
    }

    /// The sum of the squares of the values, null where there is none. It takes no memory.
    pub fn sum_of_squares(&self) -> Answer
        requires { IsTrue N.keeps }
        ensures { (values : List ℤ) → IsBagOf values self.now → IsSumOfSquares values result }
    {
        if self.values.is_empty() {
            return Answer::Null;
        }
        Answer::Squares(self.values.squares())
    }

    /// The variance of the values, of the population or of a sample, null where nothing is left to divide by. It takes no
    /// memory.
    pub fn variance(&self, is_sample: bool) -> Answer
        requires { IsTrue N.keeps }
        ensures { (values : List ℤ) → IsBagOf values self.now → IsVarianceAnswer is_sample values result }
    {
        let squares = self.values.squares();
        match variance_from(self.values.len(), self.sum, squares, is_sample) {
            Some((p, q)) => Answer::Variance { p, q },
            None => Answer::Null,
        }
    }

    /// The values in order, each different one with how often it is held. The only error is that memory ran out.
    pub fn in_order(&self) -> Result<Answer, AllocError>
        requires { IsTrue N.keeps }
        ensures { IfOk result (λ answer. (values : List ℤ) → IsBagOf values self.now → AreValues values answer) }
    {
        let held = self.values.in_order()?;
        Ok(Answer::Values(Sequence::from_vec(held)))
    }
}

impl Measure {
    /// Takes a value away; a null changes nothing. Where memory runs out, it does without.
    pub fn minus(&mut self, value: Option<i64>)
        requires { ForSome value (λ v. 0 < held_of self.old v) }
        ensures { AddsValue self.new self.old value }
    {
        if let Some(value) = value {
            self.values.take(value);
            self.sum = sum_without(self.sum, value);
        }
    }

    /// Whether the value is held; a null is, where there are more facts than values.
    pub fn holds(&self, value: Option<i64>, facts: u64) -> bool
        ensures { result ≡ holds_value facts self.now value }
    {
        match value {
            Some(value) => self.values.holds(value),
            None => self.values.len() < facts,
        }
    }
}

// A sum by a count in lowest terms. Most cells of many have one value, and by 1 nothing is divided.
fn lowest_terms(sum: i128, count: u64) -> (i128, u64)
    requires { 1 ≤ count }
    ensures { IsInLowestTerms sum count result.0 result.1 }
{
    if count == 1 {
        return (sum, 1);
    }
    reduced(sum, count)
}

fn answer_of(number: Option<i64>) -> Answer
    ensures none { IfNone number (result ≡ Null) }
    ensures some { IfSome number (λ n. result ≡ Whole n) }
{
    match number {
        None => Answer::Null,
        Some(number) => Answer::Whole(i128::from(number)),
    }
}

fn sum_with(sum: i128, value: i64) -> i128
    requires { FitsSigned w128 (sum +ℤ value) }
    ensures { result ≡ sum +ℤ value }
{
    sum + i128::from(value)
}

fn sum_of_both(sum: i128, more: i128) -> i128
    requires { FitsSigned w128 (sum +ℤ more) }
    ensures { result ≡ sum +ℤ more }
{
    sum + more
}

fn sum_without(sum: i128, value: i64) -> i128
    requires { FitsSigned w128 (sum -ℤ value) }
    ensures { result ≡ sum -ℤ value }
{
    sum - i128::from(value)
}
