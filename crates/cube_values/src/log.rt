//! A bag of many numbers: a list of them as they came, and a list of those that were taken away since.
ghost use Rattle.std.specs.Prelude.{true, false, Ok, ◌≡◌, ◌<◌, ◌≤◌, ◌<ℤ◌, ◌+◌, ◌++◌, ◌∷◌, ◌^◌, ◌↔◌, [], length, All, IsNone, IfSome, IfNone, IfOk, OnErr};
ghost use Rattle.std.specs.Bool.{OnTrue, OnFalse};
ghost use Rattle.std.specs.Int.{int_min, int_max};
ghost use Rattle.std.specs.List.{HoldsAt, AllWithin};
ghost use Rattle.cube_values.specs.Bag.{Bag, AddsBag, AddsOne, AddsTimes, SameHeld, held_of, size_of, HasLeast, HasGreatest, HasEnds};
ghost use Rattle.cube_values.specs.Log.{Rises, IsJoined, IsOrdered, IsLastOf, IsCut, without, Covers, TakesAll};
ghost use Rattle.cube_values.specs.Narrow.{times_in, once_each};
ghost use Rattle.cube_values.specs.Statistics.{AreInOrder, size_up_to, squares_held};

use crate::repeats::is_repetitive;
use crate::short::{greatest_number, least_number};
use crate::squares::{numbers_squares, pairs_squares};
use crate::up_to::{numbers_up_to, pairs_up_to};
use cube_core::Wide;
use std::alloc::{AllocError, Global};
use std::marker::Model;

/// How many pairs the first block of a log has room for.
const ROOM: usize = 32;

/// How many pairs a log has at least for each number that it owes.
const SHARE: usize = 4;

/// For how many pairs each number that was owed pays, where they are sorted and go on as a log.
const PAID: usize = 16;

/// Many numbers, each with how often it is held.
///
/// A pair is put behind the others without a search, so that a number may stand in several. A number that is taken away
/// and lies between the ends is put on a second list, of what is owed. Any other, and one where much is owed already,
/// brings the pairs in order, in the room that they have, and takes out of them what is owed. Where that was much, the
/// pairs go on as a log. Else they stay in order, and none is added from then on.
#[derive(Drop)]
pub struct Log {
    pairs: Vec<(i64, u64)>,
    // The numbers that were taken away, and that the pairs still count.
    taken: Vec<i64>,
    // How many numbers were added: no fewer than the pairs count. None where that is too many to say.
    total: Option<u64>,
    // None where the pairs are in order.
    ends: Option<Ends>,
}

// The least and the greatest number that is held.
#[derive(Clone, Copy, Drop)]
struct Ends {
    least: i64,
    greatest: i64,
}

impl Ends {
    // The ends of the numbers of both.
    fn joined(self, more: Ends) -> Ends
        ensures least { result.least ≡ int_min self.least more.least }
        ensures greatest { result.greatest ≡ int_max self.greatest more.greatest }
    {
        Ends {
            least: self.least.min(more.least),
            greatest: self.greatest.max(more.greatest),
        }
    }

    // Whether `value` lies between the ends, and is neither.
    fn are_around(self, value: i64) -> bool
        ensures above { OnTrue result (self.least <ℤ value) }
        ensures below { OnTrue result (value <ℤ self.greatest) }
    {
        self.least < value && value < self.greatest
    }
}

impl Model for Log {
    ghost use Rattle.std.specs.Prelude.{IfSome, IfNone};
    ghost use Rattle.cube_values.specs.Bag.{Bag, HasEnds};
    ghost use Rattle.cube_values.specs.Log.{IsSettled, Owes, without};

    ghost Value = { Bag };

    ghost view = { λ l. without l.taken.items l.pairs.items };

    ghost invariant = { λ l. Owes l.pairs.items l.taken.items l.total × IfSome l.ends (λ e. HasEnds (without l.taken.items l.pairs.items) e.least e.greatest) × IfNone l.ends (IsSettled l.pairs.items l.taken.items) };
}

impl Log {
    /// A log of the numbers of few pairs and others.
    pub fn of_both(
        alloc: Global,
        few: &[(i64, u64)],
        others: &[(i64, u64)],
    ) -> Result<Box<Log>, AllocError>
        requires few { All (λ e. 0 < e.1) few.now }
        requires others { All (λ e. 0 < e.1) others.now }
        ensures { IfOk result (λ log. AddsBag few.now log.value others.now) }
    {
        let mut pairs = Vec::with_capacity(alloc, ROOM)?;
        pairs.extend_from_slice(few)?;
        pairs.extend_from_slice(others)?;
        Log::of_pairs(alloc, pairs)
    }

    /// A log of numbers that are each held once, and of few pairs.
    pub fn of_numbers(
        alloc: Global,
        numbers: &[i32],
        few: &[(i64, u64)],
    ) -> Result<Box<Log>, AllocError>
        requires { All (λ e. 0 < e.1) few.now }
        ensures { IfOk result (λ log. AddsBag (once_each numbers.now) log.value few.now) }
    {
        let mut pairs = pairs_of(alloc, numbers)?;
        pairs.extend_from_slice(few)?;
        Log::of_pairs(alloc, pairs)
    }

    // A log of these pairs.
    fn of_pairs(alloc: Global, pairs: Vec<(i64, u64)>) -> Result<Box<Log>, AllocError>
        requires { All (λ e. 0 < e.1) pairs.items }
        ensures { IfOk result (λ log. log.value ≡ pairs.items) }
    {
        let total = total_of(&pairs);
        let ends = ends_of(&pairs);
        let log = Log {
            pairs,
            taken: Vec::new(alloc),
            total,
            ends,
        };
        Ok(Box::new(alloc, log)?)
    }

    /// A log of the same pairs, which owes the same.
    pub fn copy(&self, alloc: Global) -> Result<Box<Log>, AllocError>
        ensures { IfOk result (λ log. log.value ≡ self.now) }
    {
        let copied = Log {
            pairs: Vec::from_slice(alloc, &self.pairs)?,
            taken: Vec::from_slice(alloc, &self.taken)?,
            total: self.total,
            ends: self.ends,
        };
        Ok(Box::new(alloc, copied)?)
    }

    /// The numbers, each with how often it is held, where nothing is owed; a pair may hold its number no times.
    pub fn pairs(&self) -> Option<&[(i64, u64)]>
        ensures { IfSome result (λ pairs. pairs.now ≡ self.now) }
    {
        if self.taken.is_empty() {
            Some(&self.pairs)
        } else {
            None
        }
    }

    /// A copy of the numbers, each with how often it is held, in order and without what is owed.
    pub fn settled(&self, alloc: Global) -> Result<Vec<(i64, u64)>, AllocError>
        requires { size_of self.now < 2 ^ 64 }
        ensures same { IfOk result (λ pairs. SameHeld self.now pairs.items) }
        ensures ordered { IfOk result (λ pairs. IsOrdered pairs.items) }
    {
        let mut pairs = sorted_copy(alloc, &self.pairs)?;
        pay(&mut pairs, &self.taken);
        Ok(pairs)
    }

    /// The numbers in order, each with how often it is held.
    pub fn in_order(&self, alloc: Global) -> Result<Vec<(i64, u64)>, AllocError>
        requires { size_of self.now < 2 ^ 64 }
        ensures { IfOk result (λ pairs. AreInOrder self.now pairs.items) }
    {
        let mut pairs = self.settled(alloc)?;
        drop_uncounted(&mut pairs);
        Ok(pairs)
    }

    /// How many numbers are at most `value`; it looks at each pair, and at each number that is owed.
    pub fn up_to(&self, value: i64) -> u64
        requires { size_of self.now < 2 ^ 64 }
        ensures { result ≡ size_up_to self.now value }
    {
        pairs_up_to(&self.pairs, value) - numbers_up_to(&self.taken, value)
    }

    /// The sum of the squares of the numbers; it looks at each pair, and at each number that is owed.
    pub fn squares(&self) -> Wide
        requires { size_of self.now < 2 ^ 64 }
        ensures value { result ≡ squares_held self.now }
        ensures bound { result < 2 ^ 190 }
    {
        pairs_squares(&self.pairs).minus(numbers_squares(&self.taken))
    }

    /// Adds `value` `times` times, and answers whether it did: not where the pairs are in order, nor where a table of
    /// the numbers would be much smaller.
    pub fn add(&mut self, value: i64, times: u64) -> Result<bool, AllocError>
        requires { 0 < times }
        ensures added { result ≡ Ok true → AddsTimes self.old self.new value times }
        ensures refused { result ≡ Ok false → self.new ≡ self.old }
        ensures err { OnErr result (self.new ≡ self.old) }
    {
        let (Some(ends), Some(total)) = (self.ends, self.total) else {
            return Ok(false);
        };
        let Some(total) = total.checked_add(times) else {
            return Ok(false);
        };
        if self.pairs.len() == self.pairs.capacity() && repeat(&self.pairs) {
            return Ok(false);
        }
        self.pairs.push((value, times))?;
        self.total = Some(total);
        let alone = Ends {
            least: value,
            greatest: value,
        };
        self.ends = Some(ends.joined(alone));
        Ok(true)
    }

    /// Adds the numbers of another log, and answers whether it did: not where the pairs of either are in order, nor
    /// where the other owes some, nor where a table of the numbers would be much smaller.
    pub fn append(&mut self, more: &Log) -> Result<bool, AllocError>
        ensures added { result ≡ Ok true → AddsBag self.old self.new more.now }
        ensures refused { result ≡ Ok false → self.new ≡ self.old }
    {
        let (Some(more_ends), Some(more_total)) = (more.ends, more.total) else {
            return Ok(false);
        };
        if !more.taken.is_empty() {
            return Ok(false);
        }
        self.append_pairs(&more.pairs, more_ends, more_total)
    }

    /// Adds the numbers of few pairs, and answers whether it did: not where the pairs of the log are in order, nor
    /// where a table of the numbers would be much smaller.
    pub fn append_few(&mut self, few: &[(i64, u64)]) -> Result<bool, AllocError>
        requires { All (λ e. 0 < e.1) few.now }
        ensures added { result ≡ Ok true → AddsBag self.old self.new few.now }
        ensures refused { result ≡ Ok false → self.new ≡ self.old }
    {
        let Some(more_ends) = ends_of(few) else {
            return Ok(true);
        };
        let Some(more_total) = total_of(few) else {
            return Ok(false);
        };
        self.append_pairs(few, more_ends, more_total)
    }

    // Adds the numbers of pairs with these ends, which are no more than the total.
    fn append_pairs(
        &mut self,
        more: &[(i64, u64)],
        more_ends: Ends,
        more_total: u64,
    ) -> Result<bool, AllocError>
        requires ends { HasEnds more.now more_ends.least more_ends.greatest }
        requires total { size_of more.now ≤ more_total }
        ensures added { result ≡ Ok true → AddsBag self.old self.new more.now }
        ensures refused { result ≡ Ok false → self.new ≡ self.old }
    {
        let (Some(ends), Some(total)) = (self.ends, self.total) else {
            return Ok(false);
        };
        let Some(total) = total.checked_add(more_total) else {
            return Ok(false);
        };
        let room = self.pairs.capacity() - self.pairs.len();
        if more.len() > room && repeat(&self.pairs) {
            return Ok(false);
        }
        self.pairs.extend_from_slice(more)?;
        self.total = Some(total);
        self.ends = Some(ends.joined(more_ends));
        Ok(true)
    }

    /// Gives back the room beyond the pairs and beyond what is owed.
    pub fn shrink_to_fit(&mut self)
        ensures { self.new ≡ self.old }
    {
        self.pairs.shrink_to_fit();
        self.taken.shrink_to_fit();
    }

    /// Takes one `value` away, which is held. Where it lies between the ends and little is owed it is put on the list of
    /// what is owed, with no search; where there is no memory for that, it is taken out of the pairs in order.
    pub fn take(&mut self, value: i64)
        requires held { 0 < held_of self.old value }
        requires fits { size_of self.old < 2 ^ 64 }
        ensures { AddsOne self.new self.old value }
    {
        let Some(ends) = self.ends else {
            take_held(&mut self.pairs, value);
            return;
        };
        if self.total.is_none() || !ends.are_around(value) {
            self.settle(value);
            return;
        }
        if !owe(&mut self.taken, value, self.pairs.len() / SHARE) {
            self.settle(value);
        }
    }

    // Brings the pairs in order, and takes out of them what is owed and one `value`.
    fn settle(&mut self, value: i64)
        requires held { 0 < held_of self.old value }
        requires fits { size_of self.old < 2 ^ 64 }
        ensures { AddsOne self.new self.old value }
    {
        let is_paid = self.taken.len().saturating_mul(PAID) >= self.pairs.len();
        pay_and_take(&mut self.pairs, &self.taken, value);
        self.taken.clear();
        self.ends = reopened(&mut self.pairs, is_paid);
    }

    /// Whether `value` is held; where the pairs aren't in order it looks at each, and at each number that is owed.
    pub fn holds(&self, value: i64) -> bool
        ensures held { OnTrue result (0 < held_of self.now value) }
        ensures absent { OnFalse result (held_of self.now value ≡ 0) }
    {
        match self.ends {
            Some(_) => counts_more(&self.pairs, value, count_in(&self.taken, value)),
            None => place_in_order(&self.pairs, value).is_some(),
        }
    }

    /// The least number held; where the pairs are in order it passes over the numbers below it that are gone.
    pub fn least(&self) -> Option<i64>
        ensures none { IsNone result ↔ (size_of self.now ≡ 0) }
        ensures least { IfSome result (HasLeast self.now) }
    {
        match self.ends {
            Some(ends) => Some(ends.least),
            None => least_held(&self.pairs),
        }
    }

    /// The greatest number held; where the pairs are in order it passes over the numbers above it that are gone.
    pub fn greatest(&self) -> Option<i64>
        ensures none { IsNone result ↔ (size_of self.now ≡ 0) }
        ensures greatest { IfSome result (HasGreatest self.now) }
    {
        match self.ends {
            Some(ends) => Some(ends.greatest),
            None => greatest_held(&self.pairs),
        }
    }
}

// The pairs of numbers that are each held once, with room for more.
fn pairs_of(alloc: Global, numbers: &[i32]) -> Result<Vec<(i64, u64)>, AllocError>
    ensures { IfOk result (λ pairs. pairs.items ≡ once_each numbers.now) }
{
    let mut pairs = Vec::with_capacity(alloc, numbers.len().saturating_add(ROOM))?;
    for number in numbers {
        pairs.push((i64::from(*number), 1))?;
    }
    Ok(pairs)
}

// A copy of pairs, sorted by number, which takes one pass where they are in order but for a few behind the others.
fn sorted_copy(alloc: Global, pairs: &[(i64, u64)]) -> Result<Vec<(i64, u64)>, AllocError>
    ensures { IfOk result (λ sorted. SameHeld pairs.now sorted.items) }
{
    let mut sorted = Vec::from_slice(alloc, pairs)?;
    sorted.sort_by_key(|pair| pair.0)?;
    Ok(sorted)
}

// The ends of pairs that hold a number; None where there is no pair.
fn ends_of(pairs: &[(i64, u64)]) -> Option<Ends>
    requires { All (λ e. 0 < e.1) pairs.now }
    ensures none { IfNone result (pairs.now ≡ []) }
    ensures some { IfSome result (λ ends. HasEnds pairs.now ends.least ends.greatest) }
{
    match (least_number(pairs), greatest_number(pairs)) {
        (Some(least), Some(greatest)) => Some(Ends { least, greatest }),
        _ => None,
    }
}

// The first pair in order that counts is of the least number held.
fn least_held(pairs: &[(i64, u64)]) -> Option<i64>
    requires { Rises pairs.now }
    ensures none { IsNone result ↔ (size_of pairs.now ≡ 0) }
    ensures least { IfSome result (HasLeast pairs.now) }
{
    let place = first_counted(pairs)?;
    Some(pairs[place].0)
}

// The last pair in order that counts is of the greatest number held.
fn greatest_held(pairs: &[(i64, u64)]) -> Option<i64>
    requires { Rises pairs.now }
    ensures none { IsNone result ↔ (size_of pairs.now ≡ 0) }
    ensures greatest { IfSome result (HasGreatest pairs.now) }
{
    let place = last_counted(pairs)?;
    Some(pairs[place].0)
}

fn first_counted(pairs: &[(i64, u64)]) -> Option<usize>
    ensures none { IfNone result (AllWithin (λ e. e.1 ≡ 0) pairs.now 0 (length pairs.now)) }
    ensures within { IfSome result (λ place. place < length pairs.now) }
    ensures found { IfSome result (HoldsAt (λ e. 0 < e.1) pairs.now) }
    ensures before { IfSome result (AllWithin (λ e. e.1 ≡ 0) pairs.now 0) }
{
    pairs.iter().position(|pair| pair.1 > 0)
}

fn last_counted(pairs: &[(i64, u64)]) -> Option<usize>
    ensures none { IfNone result (AllWithin (λ e. e.1 ≡ 0) pairs.now 0 (length pairs.now)) }
    ensures within { IfSome result (λ place. place < length pairs.now) }
    ensures found { IfSome result (HoldsAt (λ e. 0 < e.1) pairs.now) }
    ensures after { IfSome result (λ place. AllWithin (λ e. e.1 ≡ 0) pairs.now (place + 1) (length pairs.now)) }
{
    pairs.iter().rposition(|pair| pair.1 > 0)
}

// Whether the pairs seem to be of few numbers.
fn repeat(pairs: &[(i64, u64)]) -> bool {
    is_repetitive(pairs, |pair| pair.0)
}

// How many numbers the pairs hold; None where that is too many to say.
fn total_of(pairs: &[(i64, u64)]) -> Option<u64>
    ensures { IfSome result (λ total. size_of pairs.now ≤ total) }
{
    let mut total = 0u64;
    for pair in pairs {
        total = total.checked_add(pair.1)?;
    }
    Some(total)
}

// How often `value` stands in a list.
fn count_in(numbers: &[i64], value: i64) -> u64
    ensures { result ≡ times_in numbers.now value }
{
    let mut count = 0;
    for number in numbers {
        if *number == value {
            count += 1;
        }
    }
    count
}

// Whether `value` is held more than so many times.
fn counts_more(pairs: &[(i64, u64)], value: i64, times: u64) -> bool
    ensures more { OnTrue result (times < held_of pairs.now value) }
    ensures other { OnFalse result (held_of pairs.now value ≤ times) }
{
    let mut left = times;
    for pair in pairs {
        if pair.0 == value {
            if pair.1 > left {
                return true;
            }
            left -= pair.1;
        }
    }
    false
}

/// Puts a number on a list of fewer than `most` numbers; answers whether it did.
pub fn owe<X: Drop>(taken: &mut Vec<X>, value: X, most: usize) -> bool
    ensures owed { OnTrue result (taken.new.items ≡ taken.old.items ++ value ∷ []) }
    ensures unchanged { OnFalse result (taken.new.items ≡ taken.old.items) }
{
    if taken.len() >= most {
        return false;
    }
    taken.push(value).is_ok()
}

// Brings the pairs in order, and takes out of them what is owed and one `value`.
fn pay_and_take(pairs: &mut [(i64, u64)], owed: &[i64], value: i64)
    requires covered { Covers pairs.old owed.now }
    requires fits { size_of pairs.old < 2 ^ 64 }
    requires held { 0 < held_of (without owed.now pairs.old) value }
    ensures ordered { IsOrdered pairs.new }
    ensures taken { AddsOne pairs.new (without owed.now pairs.old) value }
{
    pay(pairs, owed);
    take_held(pairs, value);
}

// Brings the pairs in order, and takes out of them what is owed.
fn pay(pairs: &mut [(i64, u64)], owed: &[i64])
    requires covered { Covers pairs.old owed.now }
    requires fits { size_of pairs.old < 2 ^ 64 }
    ensures ordered { IsOrdered pairs.new }
    ensures same { SameHeld (without owed.now pairs.old) pairs.new }
{
    bring_in_order(pairs);
    take_all(pairs, owed);
}

// Takes each number of a list out of pairs in order.
fn take_all(pairs: &mut [(i64, u64)], numbers: &[i64])
    requires ordered { IsOrdered pairs.old }
    requires covered { Covers pairs.old numbers.now }
    ensures ordered { IsOrdered pairs.new }
    ensures taken { TakesAll pairs.old pairs.new numbers.now }
{
    for number in numbers {
        take_held(pairs, *number);
    }
}

// Takes one `value` out of pairs in order, which hold it.
fn take_held(pairs: &mut [(i64, u64)], value: i64)
    requires ordered { IsOrdered pairs.old }
    requires held { 0 < held_of pairs.old value }
    ensures ordered { IsOrdered pairs.new }
    ensures taken { AddsOne pairs.new pairs.old value }
{
    let _ = take_one(pairs, value);
}

// The ends of pairs in order that go on as a log, without those that count nothing; None where they stay in order.
fn reopened(pairs: &mut Vec<(i64, u64)>, is_paid: bool) -> Option<Ends>
    requires { IsOrdered pairs.old.items }
    ensures same { SameHeld pairs.old.items pairs.new.items }
    ensures ends { IfSome result (λ ends. HasEnds pairs.new.items ends.least ends.greatest) }
    ensures ordered { IfNone result (IsOrdered pairs.new.items) }
{
    if !is_paid {
        return None;
    }
    let ends = ends_in_order(pairs)?;
    drop_uncounted(pairs);
    Some(ends)
}

// The ends of pairs in order; None where they hold no number.
fn ends_in_order(pairs: &[(i64, u64)]) -> Option<Ends>
    requires { Rises pairs.now }
    ensures { IfSome result (λ ends. HasEnds pairs.now ends.least ends.greatest) }
{
    let least = least_held(pairs)?;
    let greatest = greatest_held(pairs)?;
    Some(Ends { least, greatest })
}

fn drop_uncounted(pairs: &mut Vec<(i64, u64)>)
    ensures same { SameHeld pairs.old.items pairs.new.items }
    ensures ordered { IsOrdered pairs.old.items → AreInOrder pairs.old.items pairs.new.items }
{
    pairs.retain(|pair| pair.1 > 0);
}

/// The numbers of pairs in order, each with how often it is held.
pub fn put_in_order(mut pairs: Vec<(i64, u64)>) -> Vec<(i64, u64)>
    requires { size_of pairs.items < 2 ^ 64 }
    ensures { AreInOrder pairs.items result.items }
{
    bring_in_order(&mut pairs);
    drop_uncounted(&mut pairs);
    pairs
}

/// Numbers that are each held once, in order, each different one with how often it is held. They are sorted before their
/// pairs are made, which takes one pass where they are in order but for a few behind the others.
pub fn numbers_in_order(alloc: Global, numbers: &[i32]) -> Result<Vec<(i64, u64)>, AllocError>
    requires { size_of (once_each numbers.now) < 2 ^ 64 }
    ensures { IfOk result (λ pairs. AreInOrder (once_each numbers.now) pairs.items) }
{
    let mut sorted = Vec::from_slice(alloc, numbers)?;
    sorted.sort()?;
    let mut pairs = pairs_of(alloc, &sorted)?;
    join_counts(&mut pairs);
    drop_uncounted(&mut pairs);
    Ok(pairs)
}

// Sorts the pairs by number, and counts each number in the last of its pairs.
fn bring_in_order(pairs: &mut [(i64, u64)])
    requires { size_of pairs.old < 2 ^ 64 }
    ensures same { SameHeld pairs.old pairs.new }
    ensures ordered { IsOrdered pairs.new }
{
    sort_numbers(pairs);
    join_counts(pairs);
}

fn sort_numbers(pairs: &mut [(i64, u64)])
    ensures same { SameHeld pairs.old pairs.new }
    ensures rises { Rises pairs.new }
{
    pairs.sort_unstable_by_key(|pair| pair.0);
}

// Of equal numbers that stand side by side, counts all in the last.
fn join_counts(pairs: &mut [(i64, u64)])
    requires rises { Rises pairs.old }
    requires fits { size_of pairs.old < 2 ^ 64 }
    ensures same { SameHeld pairs.old pairs.new }
    ensures ordered { IsOrdered pairs.new }
{
    for place in 1..pairs.len() {
        join_at(pairs, place);
    }
}

// Where the pair before this place is of the same number as the one here, counts it here.
fn join_at(pairs: &mut [(i64, u64)], place: usize)
    requires after { 0 < place }
    requires within { place < length pairs.old }
    requires rises { Rises pairs.old }
    requires joined { IsJoined pairs.old place }
    requires fits { size_of pairs.old < 2 ^ 64 }
    ensures length { length pairs.new ≡ length pairs.old }
    ensures same { SameHeld pairs.old pairs.new }
    ensures rises { Rises pairs.new }
    ensures joined { IsJoined pairs.new (place + 1) }
{
    if pairs[place - 1].0 != pairs[place].0 {
        return;
    }
    let count = pairs[place - 1].1;
    pairs[place - 1].1 = 0;
    pairs[place].1 += count;
}

// The place in order where `value` is counted, where it is held.
fn place_in_order(pairs: &[(i64, u64)], value: i64) -> Option<usize>
    requires { IsOrdered pairs.now }
    ensures absent { IfNone result (held_of pairs.now value ≡ 0) }
    ensures found { IfSome result (IsLastOf pairs.now value) }
{
    let past = place_past(pairs, value);
    if past == 0 {
        return None;
    }
    let (number, count) = pairs[past - 1];
    if number != value {
        return None;
    }
    if count == 0 {
        return None;
    }
    Some(past - 1)
}

// The place past all numbers up to `value`.
fn place_past(pairs: &[(i64, u64)], value: i64) -> usize
    requires { Rises pairs.now }
    ensures { IsCut pairs.now value result }
{
    pairs.partition_point(|pair| pair.0 <= value)
}

fn take_one(pairs: &mut [(i64, u64)], value: i64) -> bool
    requires { IsOrdered pairs.old }
    ensures ordered { IsOrdered pairs.new }
    ensures taken { OnTrue result (AddsOne pairs.new pairs.old value) }
    ensures absent { OnFalse result (held_of pairs.old value ≡ 0) }
    ensures unchanged { OnFalse result (pairs.new ≡ pairs.old) }
{
    let Some(place) = place_in_order(pairs, value) else {
        return false;
    };
    pairs[place].1 -= 1;
    true
}
