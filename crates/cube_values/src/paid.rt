//! Lists of numbers of 32 bits that are brought in order, and what is taken out of them.
ghost use Rattle.std.specs.Prelude.{◌≡◌, ◌<◌, ◌≤◌, ℤ, length, take, slice_index_or};
ghost use Rattle.std.specs.Bool.{OnTrue, OnFalse};
ghost use Rattle.std.specs.List.Sorted.{IsSorted};
ghost use Rattle.std.specs.Ordering.{int_cmp};
ghost use Rattle.cube_values.specs.Bag.{AddsBag, AddsOne, SameHeld, HasEnds, held_of};
ghost use Rattle.cube_values.specs.Log.{Covers};
ghost use Rattle.cube_values.specs.Narrow.{once_each};
ghost use Rattle.cube_values.specs.Ordered.{left_of};
ghost use Rattle.cube_values.specs.Statistics.{HasDifferent};

use crate::narrow::place_of;

/// Brings numbers in order, and takes out of them those that are owed; where there is no memory, it does without.
pub fn pay(numbers: &mut Vec<i32>, owed: &mut [i32])
    requires { Covers (once_each numbers.old.items) owed.old }
    ensures same { AddsBag (once_each numbers.new.items) (once_each numbers.old.items) (once_each owed.old) }
    ensures sorted { IsSorted int_cmp numbers.new.items }
{
    bring_in_order(numbers);
    owed.sort_unstable();
    take_out(numbers, owed);
}

// Brings numbers in order, which takes one pass where they are in order but for a few behind the others.
fn bring_in_order(numbers: &mut Vec<i32>)
    ensures same { SameHeld (once_each numbers.old.items) (once_each numbers.new.items) }
    ensures sorted { IsSorted int_cmp numbers.new.items }
{
    if numbers.sort().is_err() {
        numbers.sort_unstable();
    }
}

// Takes numbers in order out of others in order.
fn take_out(numbers: &mut Vec<i32>, owed: &[i32])
    requires sorted { IsSorted int_cmp numbers.old.items }
    requires owed { IsSorted int_cmp owed.now }
    requires covered { Covers (once_each numbers.old.items) owed.now }
    ensures same { AddsBag (once_each numbers.new.items) (once_each numbers.old.items) (once_each owed.now) }
    ensures sorted { IsSorted int_cmp numbers.new.items }
{
    if owed.is_empty() {
        return;
    }
    let kept = keep_others(numbers, owed);
    numbers.truncate(kept);
}

// Moves the numbers that stay to the front; answers how many they are.
fn keep_others(numbers: &mut [i32], owed: &[i32]) -> usize
    ensures within { result ≤ length numbers.old }
    ensures kept { take result numbers.new ≡ left_of numbers.old owed.now }
{
    let mut kept = 0;
    let mut paid = 0;
    for place in 0..numbers.len() {
        let number = numbers[place];
        if paid < owed.len() && owed[paid] == number {
            paid += 1;
        } else {
            numbers[kept] = number;
            kept += 1;
        }
    }
    kept
}

/// Takes one `value` out of numbers that have it; the others stay as they stand.
pub fn remove_one(numbers: &mut Vec<i32>, value: i64)
    requires { 0 < held_of (once_each numbers.old.items) value }
    ensures { AddsOne (once_each numbers.new.items) (once_each numbers.old.items) value }
{
    let Some(place) = place_of(numbers, value) else {
        return;
    };
    let _ = numbers.remove(place);
}

/// The first and the last of numbers in order.
pub fn ends_in_order(numbers: &[i32]) -> (i32, i32)
    requires sorted { IsSorted int_cmp numbers.now }
    requires some { 0 < length numbers.now }
    ensures { HasEnds (once_each numbers.now) result.0 result.1 }
{
    (numbers[0], numbers[numbers.len() - 1])
}

/// How many different numbers there are in a list in order.
pub fn different_in_order(numbers: &[i32]) -> u64
    requires { IsSorted int_cmp numbers.now }
    ensures { HasDifferent (once_each numbers.now) result }
{
    let mut count = 0;
    for place in 0..numbers.len() {
        if is_new(numbers, place) {
            count += 1;
        }
    }
    count
}

// Whether the number at a place in order is another than those before it.
fn is_new(numbers: &[i32], place: usize) -> bool
    requires within { place < length numbers.now }
    requires sorted { IsSorted int_cmp numbers.now }
    ensures new { OnTrue result ((d : ℤ) → held_of (once_each (take place numbers.now)) (slice_index_or numbers.now place d) ≡ 0) }
    ensures seen { OnFalse result ((d : ℤ) → 0 < held_of (once_each (take place numbers.now)) (slice_index_or numbers.now place d)) }
{
    if place == 0 {
        return true;
    }
    if numbers[place - 1] == numbers[place] {
        return false;
    }
    true
}
