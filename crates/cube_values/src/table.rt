//! A bag of many numbers: an ordered table.
ghost use Rattle.std.specs.Prelude.{true, false, Ok, ◌≡◌, ◌<◌, ◌≤◌, ◌≤ℤ◌, ◌+◌, ◌*◌, ◌^◌, ◌↔◌, [], ◌∷◌, None, Contains, All, IsNone, IsSome, IfSome, IfOk, OnOk, OnErr};
ghost use Rattle.std.specs.Bool.{OnTrue, OnFalse};
ghost use Rattle.std.specs.BTreeMap.{get};
ghost use Rattle.std.specs.Map.{values_of, keys_of, lookup, set_value, remove_entry};
ghost use Rattle.std.specs.List.Sorted.{IsPermutation};
ghost use Rattle.std.specs.Ordering.{int_cmp, int_eq};
ghost use Rattle.cube_values.specs.Bag.{Bag, AddsOne, AddsTimes, SameHeld, held_of, size_of, HasLeast, HasGreatest};
ghost use Rattle.cube_values.specs.Narrow.{once_each};
ghost use Rattle.cube_values.specs.Statistics.{IsAtPlace, size_up_to, squares_held};

use crate::squares::pair_squares;
use crate::up_to::pair_up_to;
use cube_core::Wide;
use std::alloc::{AllocError, Global};
use std::collections::BTreeMap;
use std::marker::Model;

/// Many numbers, each with how often it is held.
#[derive(Drop)]
pub struct Table {
    counts: BTreeMap<i64, u64>,
}

impl Model for Table {
    ghost Value = { Bag };

    ghost view = { λ t. t.counts.entries };

    ghost invariant = { λ t. All (λ n. 0 < n) (values_of t.counts.entries) };
}

impl Table {
    /// An empty table; it takes no memory.
    pub fn new(alloc: Global) -> Table
        ensures { result ≡ [] }
    {
        Table {
            counts: BTreeMap::new(alloc),
        }
    }

    /// A table of the numbers of pairs, each held as often as its pairs say.
    pub fn of_pairs(alloc: Global, pairs: &[(i64, u64)]) -> Result<Table, AllocError>
        requires { size_of pairs.now < 2 ^ 64 }
        ensures { IfOk result (SameHeld pairs.now) }
    {
        let mut table = Table::new(alloc);
        for pair in pairs {
            table.add_pair(*pair)?;
        }
        Ok(table)
    }

    /// A table of numbers that are each held once.
    pub fn of_numbers(alloc: Global, numbers: &[i32]) -> Result<Table, AllocError>
        requires { size_of (once_each numbers.now) < 2 ^ 64 }
        ensures { IfOk result (SameHeld (once_each numbers.now)) }
    {
        let mut table = Table::new(alloc);
        for number in numbers {
            table.add(i64::from(*number), 1)?;
        }
        Ok(table)
    }

    // Adds a number as often as its pair says; a pair of no count changes nothing.
    fn add_pair(&mut self, pair: (i64, u64)) -> Result<(), AllocError>
        requires { size_of self.old + pair.1 < 2 ^ 64 }
        ensures { OnOk result (AddsTimes self.old self.new pair.0 pair.1) }
    {
        if pair.1 == 0 {
            return Ok(());
        }
        self.add(pair.0, pair.1)
    }

    /// The numbers, each with how often it is held.
    #[tactic(auto, using(crate::proofs::BagLaws::some_entries))]
    pub fn counts(&self) -> &BTreeMap<i64, u64>
        ensures counts { result.now.entries ≡ self.now }
        ensures some { All (λ e. 0 < e.1) self.now }
    {
        &self.counts
    }

    /// A copy of the numbers, each with how often it is held.
    pub fn pairs(&self, alloc: Global) -> Result<Vec<(i64, u64)>, AllocError>
        ensures { IfOk result (λ pairs. pairs.items ≡ self.now) }
    {
        pairs_of(alloc, &self.counts)
    }

    /// How many numbers are at most `value`; it looks at each.
    pub fn up_to(&self, value: i64) -> u64
        requires { size_of self.now < 2 ^ 64 }
        ensures { result ≡ size_up_to self.now value }
    {
        entries_up_to(&self.counts, value)
    }

    /// The sum of the squares of the numbers; it looks at each.
    pub fn squares(&self) -> Wide
        requires { size_of self.now < 2 ^ 64 }
        ensures value { result ≡ squares_held self.now }
        ensures bound { result ≤ 2 ^ 126 * size_of self.now }
    {
        entries_squares(&self.counts)
    }

    /// The number at a place, counted from 1, of the numbers in order; it passes over those before it.
    pub fn at_place(&self, place: u64) -> i64
        requires first { 1 ≤ place }
        requires last { place ≤ size_of self.now }
        ensures { IsAtPlace self.now place result }
    {
        entry_at(&self.counts, place)
    }

    /// Adds `value` `times` times.
    #[tactic(auto, using(crate::proofs::BagLaws::count_found, crate::proofs::BagLaws::adds_found, crate::proofs::BagLaws::adds_entry, crate::proofs::BagLaws::some_put, crate::proofs::BagLaws::some_set))]
    pub fn add(&mut self, value: i64, times: u64) -> Result<(), AllocError>
        requires some { 0 < times }
        requires fits { size_of self.old + times < 2 ^ 64 }
        ensures added { OnOk result (AddsTimes self.old self.new value times) }
        ensures err { OnErr result (self.new ≡ self.old) }
    {
        if let Some(count) = self.counts.get_mut(&value) {
            *count += times;
            return Ok(());
        }
        put_new(&mut self.counts, value, times)
    }

    /// Takes one `value` away; answers whether there was one.
    #[tactic(auto, using(crate::proofs::BagLaws::held_of_none, crate::proofs::BagLaws::takes_found, crate::proofs::BagLaws::takes_entry, crate::proofs::BagLaws::some_set, crate::proofs::BagLaws::some_left))]
    pub fn remove(&mut self, value: i64) -> bool
        ensures taken { OnTrue result (AddsOne self.new self.old value) }
        ensures absent { OnFalse result (held_of self.old value ≡ 0) }
        ensures unchanged { OnFalse result (self.new ≡ self.old) }
    {
        let Some(count) = count_of(&self.counts, value) else {
            return false;
        };
        if count > 1 {
            set_count(&mut self.counts, value, count - 1);
        } else {
            take_out(&mut self.counts, value);
        }
        true
    }

    /// Whether `value` is held.
    #[tactic(auto, using(crate::proofs::BagLaws::held_of_none, crate::proofs::BagLaws::held_found))]
    pub fn holds(&self, value: i64) -> bool
        ensures held { OnTrue result (0 < held_of self.now value) }
        ensures absent { OnFalse result (held_of self.now value ≡ 0) }
    {
        count_of(&self.counts, value).is_some()
    }

    /// The least number held.
    #[tactic(auto, using(crate::proofs::BagLaws::least_of_table, crate::proofs::BagLaws::no_entries))]
    pub fn least(&self) -> Option<i64>
        ensures none { IsNone result ↔ (size_of self.now ≡ 0) }
        ensures least { IfSome result (HasLeast self.now) }
    {
        least_number(&self.counts)
    }

    /// The greatest number held.
    #[tactic(auto, using(crate::proofs::BagLaws::greatest_of_table, crate::proofs::BagLaws::no_entries))]
    pub fn greatest(&self) -> Option<i64>
        ensures none { IsNone result ↔ (size_of self.now ≡ 0) }
        ensures greatest { IfSome result (HasGreatest self.now) }
    {
        greatest_number(&self.counts)
    }
}

// The entries as pairs.
fn pairs_of(alloc: Global, counts: &BTreeMap<i64, u64>) -> Result<Vec<(i64, u64)>, AllocError>
    ensures { IfOk result (λ pairs. pairs.items ≡ counts.now.entries) }
{
    let mut pairs = Vec::with_capacity(alloc, counts.len())?;
    for (number, count) in counts {
        pairs.push((*number, *count))?;
    }
    Ok(pairs)
}

// How many numbers of entries are at most `value`.
fn entries_up_to(counts: &BTreeMap<i64, u64>, value: i64) -> u64
    requires { size_of counts.now.entries < 2 ^ 64 }
    ensures { result ≡ size_up_to counts.now.entries value }
{
    let mut total = 0;
    for (number, count) in counts {
        total += pair_up_to((*number, *count), value);
    }
    total
}

// The sum of the squares of the numbers of entries.
fn entries_squares(counts: &BTreeMap<i64, u64>) -> Wide
    requires { size_of counts.now.entries < 2 ^ 64 }
    ensures value { result ≡ squares_held counts.now.entries }
    ensures bound { result ≤ 2 ^ 126 * size_of counts.now.entries }
{
    let mut sum = Wide::of(0);
    for (number, count) in counts {
        sum = sum.plus(pair_squares((*number, *count)));
    }
    sum
}

// The number of the entry that has a place.
fn entry_at(counts: &BTreeMap<i64, u64>, place: u64) -> i64
    requires first { 1 ≤ place }
    requires last { place ≤ size_of counts.now.entries }
    ensures { IsAtPlace counts.now.entries place result }
{
    let mut left = place;
    for (number, count) in counts {
        if left <= *count {
            return *number;
        }
        left -= *count;
    }
    0
}

// Sets the count of a number that is there.
fn set_count(counts: &mut BTreeMap<i64, u64>, value: i64, count: u64)
    requires { IsSome (get int_cmp counts.old value) }
    ensures { counts.new.entries ≡ set_value (int_eq value) counts.old.entries count }
{
    if let Some(place) = counts.get_mut(&value) {
        *place = count;
    }
}

fn count_of(counts: &BTreeMap<i64, u64>, value: i64) -> Option<u64>
    ensures { result ≡ lookup (int_eq value) counts.now.entries }
{
    counts.get(&value).copied()
}

// Puts the count of a number that is absent.
#[tactic(auto, using(crate::proofs::TableLaws::one_more_entry))]
fn put_new(counts: &mut BTreeMap<i64, u64>, value: i64, count: u64) -> Result<(), AllocError>
    requires { lookup (int_eq value) counts.old.entries ≡ None }
    ensures put { OnOk result (IsPermutation ((value, count) ∷ counts.old.entries) counts.new.entries) }
    ensures err { OnErr result (counts.new.entries ≡ counts.old.entries) }
{
    counts.insert(value, count)?;
    Ok(())
}

fn take_out(counts: &mut BTreeMap<i64, u64>, value: i64)
    ensures { IsPermutation (remove_entry (int_eq value) counts.old.entries) counts.new.entries }
{
    let _ = counts.remove(&value);
}

fn least_number(counts: &BTreeMap<i64, u64>) -> Option<i64>
    ensures none { IsNone result ↔ (counts.now.entries ≡ []) }
    ensures held { IfSome result (Contains (keys_of counts.now.entries)) }
    ensures least { IfSome result (λ m. All (λ x. m ≤ℤ x) (keys_of counts.now.entries)) }
{
    let Some((number, _)) = counts.first_key_value() else {
        return None;
    };
    Some(*number)
}

fn greatest_number(counts: &BTreeMap<i64, u64>) -> Option<i64>
    ensures none { IsNone result ↔ (counts.now.entries ≡ []) }
    ensures held { IfSome result (Contains (keys_of counts.now.entries)) }
    ensures greatest { IfSome result (λ m. All (λ x. x ≤ℤ m) (keys_of counts.now.entries)) }
{
    let Some((number, _)) = counts.last_key_value() else {
        return None;
    };
    Some(*number)
}
