//! A bag of many numbers of 32 bits that were brought in order: a list of them, of which the first are in order, and a
//! list of those that were taken away since.
ghost use Rattle.std.specs.Prelude.{true, false, Ok, ◌≡◌, ◌<◌, ◌≤◌, ◌+◌, ◌^◌, ◌↔◌, IsNone, IfSome, IfOk, OnErr};
ghost use Rattle.std.specs.Bool.{OnTrue, OnFalse};
ghost use Rattle.std.specs.List.Sorted.{IsSorted};
ghost use Rattle.std.specs.Ordering.{int_cmp};
ghost use Rattle.cube_values.specs.Bag.{AddsOne, AddsTimes, SameHeld, held_of, size_of, HasLeast, HasGreatest, HasEnds};
ghost use Rattle.cube_values.specs.Narrow.{once_each};
ghost use Rattle.cube_values.specs.Ordered.{KeepsEnds};
ghost use Rattle.cube_values.specs.Statistics.{AreInOrder, HasDifferent, size_up_to, squares_held};

use crate::log::{numbers_in_order, owe};
use crate::narrow::{Narrow, narrowed, numbers_repeat};
use crate::paid::{different_in_order, ends_in_order, pay, remove_one};
use crate::squares::narrow_squares;
use crate::trace::Trace;
use crate::up_to::{narrow_up_to, sorted_up_to};
use cube_core::Wide;
use std::alloc::{AllocError, Global};
use std::marker::Model;

/// How many numbers may at least stand behind those in order, and as many be owed, before the list is brought in order.
const BESIDE: usize = 512;

/// For how many numbers of the list there may be one more of those.
const SHARE: usize = 64;

/// The part of those that has to have come or gone for the list to be brought in order without counting it as early.
const PAID: usize = 8;

/// How often in a row the list is brought in order early, before it gives way to a log.
const EARLY: u8 = 16;

/// Many numbers of 32 bits, each as often as it is held, with their ends. There is one at least.
///
/// A number is put behind the others. One that is taken away is put on a second list, of what is owed, where the ends
/// stay. Where many stand behind the others or are owed, or an end goes, all are brought in order, in the room that
/// they have, and what is owed leaves them.
#[derive(Drop)]
pub struct Ordered {
    numbers: Vec<i32>,
    // How many of the numbers, from the first one on, are in order.
    sorted: usize,
    // The numbers that were taken away, and that the list still has.
    taken: Vec<i32>,
    least: i32,
    greatest: i32,
    // How often in a row the list was brought in order early, since an end went.
    early: u8,
    // The numbers as they came and went.
    trace: Trace,
}

impl Model for Ordered {
    ghost use Rattle.cube_values.specs.Bag.{Bag};
    ghost use Rattle.cube_values.specs.Ordered.{IsListed};

    ghost Value = { Bag };

    ghost view = { λ o. o.trace.bag };

    ghost invariant = { λ o. IsListed o.trace.bag o.numbers.items o.taken.items o.sorted o.least o.greatest };
}

impl Ordered {
    /// A list of one number, to be replaced: what is made of it takes no memory.
    pub fn room(alloc: Global) -> Result<Box<Ordered>, AllocError> {
        let mut numbers = Vec::new(alloc);
        numbers.push(0)?;
        let trace = Trace::list(&numbers);
        let room = Ordered {
            numbers,
            sorted: 0,
            taken: Vec::new(alloc),
            least: 0,
            greatest: 0,
            early: 0,
            trace,
        };
        Ok(Box::new(alloc, room)?)
    }

    /// The numbers of a narrow list, brought in order.
    pub fn of_narrow(alloc: Global, narrow: Narrow) -> Ordered
        ensures { result ≡ narrow }
    {
        let (mut numbers, (least, greatest)) = narrow.into_parts();
        let trace = Trace::list(&numbers);
        numbers.sort_unstable();
        let sorted = numbers.len();
        Ordered {
            numbers,
            sorted,
            taken: Vec::new(alloc),
            least,
            greatest,
            early: 0,
            trace,
        }
    }

    /// The numbers, each as often as it is held, where nothing is owed.
    pub fn numbers(&self) -> Option<&[i32]>
        ensures { IfSome result (λ numbers. SameHeld self.now (once_each numbers.now)) }
    {
        if self.taken.is_empty() {
            Some(&self.numbers)
        } else {
            None
        }
    }

    /// The least and the greatest number.
    pub fn ends(&self) -> (i32, i32)
        ensures { HasEnds self.now result.0 result.1 }
    {
        (self.least, self.greatest)
    }

    /// A copy of the numbers in order, without what is owed, with room for so many more.
    pub fn left(&self, alloc: Global, more: usize) -> Result<Vec<i32>, AllocError>
        ensures same { IfOk result (λ numbers. SameHeld self.now (once_each numbers.items)) }
        ensures sorted { IfOk result (λ numbers. IsSorted int_cmp numbers.items) }
    {
        let mut numbers = Vec::with_capacity(alloc, self.numbers.len().saturating_add(more))?;
        numbers.extend_from_slice(&self.numbers)?;
        let mut owed = Vec::from_slice(alloc, &self.taken)?;
        pay(&mut numbers, &mut owed);
        Ok(numbers)
    }

    /// A narrow list of the same numbers, with room for so many more.
    pub fn copy(&self, alloc: Global, more: usize) -> Result<Box<Narrow>, AllocError>
        ensures { IfOk result (λ narrow. SameHeld self.now narrow.value) }
    {
        let numbers = self.left(alloc, more)?;
        Narrow::of_list(alloc, numbers, self.ends())
    }

    /// The numbers in order, each different one with how often it is held.
    pub fn in_order(&self, alloc: Global) -> Result<Vec<(i64, u64)>, AllocError>
        requires { size_of self.now < 2 ^ 64 }
        ensures { IfOk result (λ pairs. AreInOrder self.now pairs.items) }
    {
        let numbers = self.left(alloc, 0)?;
        numbers_in_order(alloc, &numbers)
    }

    /// How many different numbers are held.
    pub fn different(&self, alloc: Global) -> Result<u64, AllocError>
        ensures { IfOk result (HasDifferent self.now) }
    {
        let numbers = self.left(alloc, 0)?;
        Ok(different_in_order(&numbers))
    }

    /// How many numbers are at most `value`: a search of those in order, and a look at each that isn't, and at each
    /// that is owed.
    pub fn up_to(&self, value: i64) -> u64
        ensures { result ≡ size_up_to self.now value }
    {
        let (sorted, others) = self.numbers.split_at(self.sorted);
        sorted_up_to(sorted, value) + narrow_up_to(others, value) - narrow_up_to(&self.taken, value)
    }

    // How often `value` is held.
    fn count_of(&self, value: i64) -> u64
        ensures { result ≡ held_of self.now value }
    {
        if value < i64::from(self.least) || i64::from(self.greatest) < value {
            return 0;
        }
        self.up_to(value) - self.up_to(value - 1)
    }

    /// The sum of the squares of the numbers; it looks at each, and at each that is owed.
    pub fn squares(&self) -> Wide
        ensures value { result ≡ squares_held self.now }
        ensures bound { result < 2 ^ 190 }
    {
        narrow_squares(&self.numbers).minus(narrow_squares(&self.taken))
    }

    /// Adds `value` `times` times, and answers whether it did: not where it is wider than 32 bits or comes more than
    /// once, nor where a form that counts how often each number is held would be much smaller.
    pub fn add(&mut self, value: i64, times: u64) -> Result<bool, AllocError>
        ensures added { result ≡ Ok true → AddsTimes self.old self.new value times }
        ensures refused { result ≡ Ok false → self.new ≡ self.old }
        ensures err { OnErr result (self.new ≡ self.old) }
    {
        let Some(number) = narrowed((value, times)) else {
            return Ok(false);
        };
        if self.numbers.len() == self.numbers.capacity() && numbers_repeat(&self.numbers) {
            return Ok(false);
        }
        self.numbers.push(number)?;
        self.least = self.least.min(number);
        self.greatest = self.greatest.max(number);
        self.trace = self.trace.and(&Trace::one(value));
        self.settle_where_due();
        Ok(true)
    }

    // Brings the numbers in order where many stand behind the others.
    fn settle_where_due(&mut self)
        ensures { self.new ≡ self.old }
    {
        if self.numbers.len() - self.sorted > self.most() {
            self.settle();
        }
    }

    // How many numbers may stand behind those in order, and how many may be owed.
    fn most(&self) -> usize {
        BESIDE.max(self.numbers.len() / SHARE)
    }

    /// Brings the numbers in order, and takes out of them what is owed; where there is no memory, it does without.
    pub fn settle(&mut self)
        ensures { self.new ≡ self.old }
    {
        pay(&mut self.numbers, &mut self.taken);
        self.taken.clear();
        self.sorted = self.numbers.len();
        self.early = 0;
    }

    /// Gives back the room beyond the numbers and beyond what is owed.
    pub fn shrink_to_fit(&mut self)
        ensures { self.new ≡ self.old }
    {
        self.numbers.shrink_to_fit();
        self.taken.shrink_to_fit();
    }

    /// Takes one `value` away, which is held beside another number; it makes no search for it where the ends stay and
    /// little is owed.
    pub fn take(&mut self, value: i64)
        requires held { 0 < held_of self.old value }
        requires more { 1 < size_of self.old }
        ensures { AddsOne self.new self.old value }
    {
        let most = self.most();
        if self.keeps_ends(value) && owe(&mut self.taken, value as i32, most) {
            self.trace = self.trace.without(value);
            return;
        }
        self.settle_without(value);
    }

    // Whether the ends stay where one `value` goes.
    fn keeps_ends(&self, value: i64) -> bool
        ensures { OnTrue result (KeepsEnds self.now value) }
    {
        if i64::from(self.least) < value && value < i64::from(self.greatest) {
            return true;
        }
        self.count_of(value) > 1
    }

    // Takes one `value` out of the numbers, brings them in order, and takes out of them what is owed.
    fn settle_without(&mut self, value: i64)
        requires held { 0 < held_of self.old value }
        requires more { 1 < size_of self.old }
        ensures { AddsOne self.new self.old value }
    {
        self.early = self.early_next();
        remove_one(&mut self.numbers, value);
        pay(&mut self.numbers, &mut self.taken);
        self.taken.clear();
        self.sorted = self.numbers.len();
        self.trace = Trace::list(&self.numbers);
        let (least, greatest) = ends_in_order(&self.numbers);
        self.least = least;
        self.greatest = greatest;
    }

    // How often in a row the list will have been brought in order early, where it is now.
    fn early_next(&self) -> u8 {
        let behind = self.numbers.len() - self.sorted;
        if self.taken.len() + behind >= self.most() / PAID {
            return 0;
        }
        self.early.saturating_add(1)
    }

    /// Whether a log is to take the place of the list before `value` is taken away: where an end goes again and again.
    pub fn gives_way(&self, value: i64) -> bool {
        self.early >= EARLY && !self.keeps_ends(value)
    }

    /// How many numbers are held.
    pub fn count(&self) -> usize
        ensures { result ≡ size_of self.now }
    {
        self.numbers.len() - self.taken.len()
    }

    /// Whether `value` is held: a search of the numbers in order, and a look at each that isn't, and at each that is
    /// owed.
    pub fn holds(&self, value: i64) -> bool
        ensures held { OnTrue result (0 < held_of self.now value) }
        ensures absent { OnFalse result (held_of self.now value ≡ 0) }
    {
        self.count_of(value) > 0
    }

    /// The least number held.
    pub fn least(&self) -> Option<i64>
        ensures none { IsNone result ↔ (size_of self.now ≡ 0) }
        ensures least { IfSome result (HasLeast self.now) }
    {
        Some(i64::from(self.least))
    }

    /// The greatest number held.
    pub fn greatest(&self) -> Option<i64>
        ensures none { IsNone result ↔ (size_of self.now ≡ 0) }
        ensures greatest { IfSome result (HasGreatest self.now) }
    {
        Some(i64::from(self.greatest))
    }
}
