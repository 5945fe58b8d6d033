//! The statistics of a multiset: its numbers in order, how many different ones there are, the number at a place, and the
//! sum of the squares.
ghost use Rattle.std.specs.Prelude.{◌≡◌, ◌<◌, ◌≤◌, ◌≤ℤ◌, ◌+ℤ◌, ◌^◌, pos, IfOk};
ghost use Rattle.cube_values.specs.Bag.{SameHeld, size_of};
ghost use Rattle.cube_values.specs.Statistics.{AreInOrder, HasDifferent, IsAtPlace, IsSpanOf, size_up_to, squares_held};
ghost use Rattle.cube_values.specs.Values.{bag_of};

use super::{Counted, Values};
use crate::log::{numbers_in_order, put_in_order};
use crate::squares::{narrow_squares, pair_squares, pairs_squares};
use crate::up_to::{narrow_up_to, pair_up_to, pairs_up_to};
use cube_core::{Squares, Wide};
use std::alloc::{AllocError, Global};

impl Counted {
    /// The numbers in order, each with how often it is held.
    pub fn in_order(&self) -> Result<Vec<(i64, u64)>, AllocError>
        ensures { IfOk result (λ pairs. AreInOrder self.now pairs.items) }
    {
        let _len = self.len;
        in_order(self.alloc, &self.values)
    }

    /// How many different numbers are held.
    pub fn different(&self) -> Result<u64, AllocError>
        ensures { IfOk result (HasDifferent self.now) }
    {
        if let Values::Ordered(ordered) = &self.values {
            return ordered.different(self.alloc);
        }
        let pairs = self.in_order()?;
        Ok(pairs.len() as u64)
    }

    /// The number at a place, counted from 1, of the numbers in order. It takes no memory and sorts nothing: where they
    /// aren't kept in order, it halves the span from the least to the greatest number, and each time counts the numbers
    /// up to the middle, which takes a search of those that were brought in order.
    pub fn at_place(&self, place: u64) -> i64
        requires first { 1 ≤ place }
        requires last { place ≤ size_of self.now }
        ensures { IsAtPlace self.now place result }
    {
        if let Values::Many(table) = &self.values {
            return table.at_place(place);
        }
        let (Some(least), Some(greatest)) = (self.least(), self.greatest()) else {
            return 0;
        };
        let _len = self.len;
        number_in_span(&self.values, place, span_of(least, greatest))
    }

    /// The sum of the squares of the numbers. It takes no memory, and looks at each pair.
    pub fn squares(&self) -> Squares
        ensures { result ≡ squares_held self.now }
    {
        let _len = self.len;
        match Squares::of(squares(&self.values)) {
            Some(squares) => squares,
            None => unreachable!(),
        }
    }
}

// The numbers in order, each with how often it is held.
fn in_order(alloc: Global, values: &Values) -> Result<Vec<(i64, u64)>, AllocError>
    requires { size_of (bag_of values.now) < 2 ^ 64 }
    ensures { IfOk result (λ pairs. AreInOrder (bag_of values.now) pairs.items) }
{
    let pairs = match values {
        Values::One(single) => Vec::from_slice(alloc, &[single.pair()])?,
        Values::Few(short) => Vec::from_slice(alloc, short.pairs())?,
        Values::Narrow(narrow) => return numbers_in_order(alloc, narrow.numbers()),
        Values::Ordered(ordered) => return ordered.in_order(alloc),
        Values::Logged(log) => return log.in_order(alloc),
        Values::Many(table) => table.pairs(alloc)?,
    };
    Ok(put_in_order(pairs))
}

// How many numbers are at most `value`.
fn up_to(values: &Values, value: i64) -> u64
    requires { size_of (bag_of values.now) < 2 ^ 64 }
    ensures { result ≡ size_up_to (bag_of values.now) value }
{
    match values {
        Values::One(single) => pair_up_to(single.pair(), value),
        Values::Few(short) => pairs_up_to(short.pairs(), value),
        Values::Narrow(narrow) => narrow_up_to(narrow.numbers(), value),
        Values::Ordered(ordered) => ordered.up_to(value),
        Values::Logged(log) => log.up_to(value),
        Values::Many(table) => table.up_to(value),
    }
}

// The sum of the squares of the numbers.
fn squares(values: &Values) -> Wide
    requires { size_of (bag_of values.now) < 2 ^ 64 }
    ensures value { result ≡ squares_held (bag_of values.now) }
    ensures bound { result < 2 ^ 190 }
{
    match values {
        Values::One(single) => pair_squares(single.pair()),
        Values::Few(short) => pairs_squares(short.pairs()),
        Values::Narrow(narrow) => narrow_squares(narrow.numbers()),
        Values::Ordered(ordered) => ordered.squares(),
        Values::Logged(log) => log.squares(),
        Values::Many(table) => table.squares(),
    }
}

// A number, and the numbers up to so many above it.
#[derive(Clone, Copy, Drop)]
struct Span {
    low: i64,
    width: u64,
}

// The numbers from the least to the greatest.
fn span_of(least: i64, greatest: i64) -> Span
    requires { least ≤ℤ greatest }
    ensures low { result.low ≡ least }
    ensures high { result.low +ℤ pos result.width ≡ greatest }
{
    Span {
        low: least,
        width: greatest.abs_diff(least),
    }
}

// The number at a place that lies in a span.
fn number_in_span(values: &Values, place: u64, span: Span) -> i64
    requires fits { size_of (bag_of values.now) < 2 ^ 64 }
    requires span { IsSpanOf (bag_of values.now) place span.low span.width }
    ensures { IsAtPlace (bag_of values.now) place result }
{
    let mut left = span;
    while left.width > 0 {
        left = half_of(values, place, left);
    }
    left.low
}

// The half of a span in which the number at a place lies.
fn half_of(values: &Values, place: u64, span: Span) -> Span
    requires fits { size_of (bag_of values.now) < 2 ^ 64 }
    requires span { IsSpanOf (bag_of values.now) place span.low span.width }
    requires wide { 0 < span.width }
    ensures span { IsSpanOf (bag_of values.now) place result.low result.width }
    ensures less { result.width < span.width }
{
    let half = span.width / 2;
    let middle = span.low + half as i64;
    if place <= up_to(values, middle) {
        Span {
            low: span.low,
            width: half,
        }
    } else {
        Span {
            low: middle + 1,
            width: span.width - half - 1,
        }
    }
}
