//! A bag of many numbers of 32 bits: a list of them as they came.
ghost use Rattle.std.specs.Prelude.{true, false, Ok, ◌≡◌, ◌<◌, ◌≤ℤ◌, ◌∷◌, ◌↔◌, [], All, Contains, IsNone, IfNone, IfSome, IfOk, OnErr, length};
ghost use Rattle.std.specs.Ordering.{int_eq};
ghost use Rattle.std.specs.Bool.{OnTrue, OnFalse};
ghost use Rattle.std.specs.List.{HoldsAt};
ghost use Rattle.cube_values.specs.Bag.{AddsBag, AddsOne, AddsTimes, held_of, size_of, HasLeast, HasGreatest, HasEnds};
ghost use Rattle.cube_values.specs.Narrow.{once_each};

use crate::repeats::is_repetitive;
use std::alloc::{AllocError, Global};
use std::marker::Model;

/// How many numbers the first block of a list has room for.
const ROOM: usize = 8;

/// How many numbers a list has at least that is looked at before it grows.
const MANY: usize = 16;

/// Many numbers of 32 bits as they came, each as often as it is held, with their ends. There is one at least.
#[derive(Drop)]
pub struct Narrow {
    numbers: Vec<i32>,
    least: i32,
    greatest: i32,
}

impl Model for Narrow {
    ghost use Rattle.cube_values.specs.Bag.{Bag, HasEnds};
    ghost use Rattle.cube_values.specs.Narrow.{once_each};

    ghost Value = { Bag };

    ghost view = { λ n. once_each n.numbers.items };

    ghost invariant = { λ n. HasEnds (once_each n.numbers.items) n.least n.greatest };
}

impl Narrow {
    /// Two numbers; None where one is not of 32 bits, or is not held once.
    pub fn of_two(
        alloc: Global,
        first: (i64, u64),
        second: (i64, u64),
    ) -> Result<Option<Box<Narrow>>, AllocError>
        ensures { IfOk result (λ made. IfSome made (λ narrow. AddsTimes (first ∷ []) narrow.value second.0 second.1)) }
    {
        let (Some(first), Some(second)) = (narrowed(first), narrowed(second)) else {
            return Ok(None);
        };
        let mut numbers = Vec::with_capacity(alloc, ROOM)?;
        numbers.extend_from_slice(&[first, second])?;
        let narrow = Narrow {
            numbers,
            least: first.min(second),
            greatest: first.max(second),
        };
        Ok(Some(Box::new(alloc, narrow)?))
    }

    /// A list of the same numbers, with room for so many more.
    pub fn copy(&self, alloc: Global, more: usize) -> Result<Box<Narrow>, AllocError>
        ensures { IfOk result (λ narrow. narrow.value ≡ self.now) }
    {
        let mut numbers = Vec::with_capacity(alloc, self.numbers.len().saturating_add(more))?;
        numbers.extend_from_slice(&self.numbers)?;
        let copied = Narrow {
            numbers,
            least: self.least,
            greatest: self.greatest,
        };
        Ok(Box::new(alloc, copied)?)
    }

    /// A list of numbers with these ends.
    pub(crate) fn of_list(
        alloc: Global,
        numbers: Vec<i32>,
        ends: (i32, i32),
    ) -> Result<Box<Narrow>, AllocError>
        requires { HasEnds (once_each numbers.items) ends.0 ends.1 }
        ensures { IfOk result (λ narrow. narrow.value ≡ once_each numbers.items) }
    {
        let narrow = Narrow {
            numbers,
            least: ends.0,
            greatest: ends.1,
        };
        Ok(Box::new(alloc, narrow)?)
    }

    /// The numbers, and the least and the greatest of them.
    pub(crate) fn into_parts(self) -> (Vec<i32>, (i32, i32))
        ensures numbers { self ≡ once_each result.0.items }
        ensures ends { HasEnds self result.1.0 result.1.1 }
    {
        (self.numbers, (self.least, self.greatest))
    }

    /// The least and the greatest number.
    pub(crate) fn ends(&self) -> (i32, i32)
        ensures { HasEnds self.now result.0 result.1 }
    {
        (self.least, self.greatest)
    }

    /// The numbers, each as often as it is held.
    pub fn numbers(&self) -> &[i32]
        ensures { self.now ≡ once_each result.now }
    {
        &self.numbers
    }

    /// Adds `value` `times` times, and answers whether it did: not where it is wider than 32 bits or comes more than
    /// once, nor where a form that counts how often each number is held would be much smaller.
    pub fn add(&mut self, value: i64, times: u64) -> Result<bool, AllocError>
        ensures added { result ≡ Ok true → AddsTimes self.old self.new value times }
        ensures refused { result ≡ Ok false → self.new ≡ self.old }
        ensures err { OnErr result (self.new ≡ self.old) }
    {
        let Some(number) = narrowed((value, times)) else {
            return Ok(false);
        };
        if self.numbers.len() == self.numbers.capacity() && numbers_repeat(&self.numbers) {
            return Ok(false);
        }
        self.numbers.push(number)?;
        self.least = self.least.min(number);
        self.greatest = self.greatest.max(number);
        Ok(true)
    }

    /// Adds numbers with these ends, and answers whether it did: not where a form that counts how often each number is
    /// held would be much smaller.
    pub(crate) fn append_list(&mut self, more: &[i32], ends: (i32, i32)) -> Result<bool, AllocError>
        requires { HasEnds (once_each more.now) ends.0 ends.1 }
        ensures added { result ≡ Ok true → AddsBag self.old self.new (once_each more.now) }
        ensures refused { result ≡ Ok false → self.new ≡ self.old }
    {
        let room = self.numbers.capacity() - self.numbers.len();
        if more.len() > room && numbers_repeat(&self.numbers) {
            return Ok(false);
        }
        self.numbers.extend_from_slice(more)?;
        self.least = self.least.min(ends.0);
        self.greatest = self.greatest.max(ends.1);
        Ok(true)
    }

    /// Gives back the room beyond the numbers.
    pub fn shrink_to_fit(&mut self)
        ensures { self.new ≡ self.old }
    {
        self.numbers.shrink_to_fit();
    }

    /// Takes one `value` away, which is held beside another number; it looks at each number.
    pub fn take(&mut self, value: i64)
        requires held { 0 < held_of self.old value }
        requires more { 1 < size_of self.old }
        ensures { AddsOne self.new self.old value }
    {
        let Some(place) = place_of(&self.numbers, value) else {
            return;
        };
        let _ = self.numbers.swap_remove(place);
        if let (Some(least), Some(greatest)) = (
            least_number(&self.numbers),
            greatest_number(&self.numbers),
        ) {
            self.least = least;
            self.greatest = greatest;
        }
    }

    /// Whether `value` is held; it looks at each number.
    pub fn holds(&self, value: i64) -> bool
        ensures held { OnTrue result (0 < held_of self.now value) }
        ensures absent { OnFalse result (held_of self.now value ≡ 0) }
    {
        place_of(&self.numbers, value).is_some()
    }

    /// The least number held.
    pub fn least(&self) -> Option<i64>
        ensures none { IsNone result ↔ (size_of self.now ≡ 0) }
        ensures least { IfSome result (HasLeast self.now) }
    {
        Some(i64::from(self.least))
    }

    /// The greatest number held.
    pub fn greatest(&self) -> Option<i64>
        ensures none { IsNone result ↔ (size_of self.now ≡ 0) }
        ensures greatest { IfSome result (HasGreatest self.now) }
    {
        Some(i64::from(self.greatest))
    }
}

/// Whether there are many numbers, which seem to be few different ones.
pub fn numbers_repeat(numbers: &[i32]) -> bool {
    numbers.len() >= MANY && is_repetitive(numbers, |number| i64::from(*number))
}

/// The number of a pair, where it is of 32 bits and is held once.
pub fn narrowed(pair: (i64, u64)) -> Option<i32>
    ensures { IfSome result (λ number. pair ≡ (number, 1)) }
{
    let fits = i64::from(i32::MIN) <= pair.0 && pair.0 <= i64::from(i32::MAX);
    if fits && pair.1 == 1 {
        Some(pair.0 as i32)
    } else {
        None
    }
}

/// The place of the first number that is `value`.
pub fn place_of(numbers: &[i32], value: i64) -> Option<usize>
    ensures absent { IfNone result (All (λ x. int_eq value x ≡ false) numbers.now) }
    ensures within { IfSome result (λ place. place < length numbers.now) }
    ensures found { IfSome result (HoldsAt (λ x. x ≡ value) numbers.now) }
{
    numbers
        .iter()
        .position(|number| value == i64::from(*number))
}

fn least_number(numbers: &[i32]) -> Option<i32>
    ensures none { IsNone result ↔ (numbers.now ≡ []) }
    ensures held { IfSome result (Contains numbers.now) }
    ensures least { IfSome result (λ m. All (λ x. m ≤ℤ x) numbers.now) }
{
    numbers.iter().copied().min()
}

fn greatest_number(numbers: &[i32]) -> Option<i32>
    ensures none { IsNone result ↔ (numbers.now ≡ []) }
    ensures held { IfSome result (Contains numbers.now) }
    ensures greatest { IfSome result (λ m. All (λ x. x ≤ℤ m) numbers.now) }
{
    numbers.iter().copied().max()
}
