//! A bag of few numbers: a list that is searched from its start.
ghost use Rattle.std.specs.Prelude.{true, false, Ok, ◌≡◌, ◌<◌, ◌≤◌, ◌≤ℤ◌, map, ◌+◌, ◌^◌, ◌↔◌, [], ◌∷◌, All, Contains, IsNone, IfNone, IfSome, IfOk, OnErr, length};
ghost use Rattle.std.specs.Ordering.{int_eq};
ghost use Rattle.std.specs.Bool.{OnTrue, OnFalse};
ghost use Rattle.std.specs.List.{HoldsAt};
ghost use Rattle.cube_values.specs.Bag.{Bag, AddsOne, AddsTimes, held_of, size_of, HasLeast, HasGreatest};
ghost use Rattle.cube_values.specs.Narrow.{once_each};

use std::alloc::{AllocError, Global};
use std::marker::Model;

/// The most pairs that a list takes.
pub const FEW: usize = 16;

/// How many pairs the first block of a list has room for.
const ROOM: usize = 6;

/// Few numbers, each with how often it is held.
#[derive(Drop)]
pub struct Short {
    pairs: Vec<(i64, u64)>,
}

impl Model for Short {
    ghost Value = { Bag };

    ghost view = { λ s. s.pairs.items };

    ghost invariant = { λ s. All (λ e. 0 < e.1) s.pairs.items };
}

impl Short {
    /// Numbers that are each held once, and a number that is held so often; None where there is no place for all.
    pub fn of_numbers(
        alloc: Global,
        numbers: &[i32],
        more: (i64, u64),
    ) -> Result<Option<Short>, AllocError>
        requires some { 0 < more.1 }
        requires fits { size_of (once_each numbers.now) + more.1 < 2 ^ 64 }
        ensures { IfOk result (λ made. IfSome made (λ short. AddsTimes (once_each numbers.now) short more.0 more.1)) }
    {
        let mut short = Short {
            pairs: Vec::with_capacity(alloc, ROOM)?,
        };
        for number in numbers {
            if !short.add(i64::from(*number), 1)? {
                return Ok(None);
            }
        }
        if !short.add(more.0, more.1)? {
            return Ok(None);
        }
        Ok(Some(short))
    }

    /// Two numbers, each with how often it is held.
    #[tactic(auto, using(crate::proofs::BagLaws::adds_pair))]
    pub fn of_two(alloc: Global, first: (i64, u64), second: (i64, u64)) -> Result<Short, AllocError>
        requires first { 0 < first.1 }
        requires second { 0 < second.1 }
        ensures { IfOk result (λ short. AddsTimes (first ∷ []) short second.0 second.1) }
    {
        let mut pairs = Vec::with_capacity(alloc, ROOM)?;
        pairs.extend_from_slice(&[first, second])?;
        Ok(Short { pairs })
    }

    /// A list of the same pairs, with no room for more.
    pub fn copy(&self, alloc: Global) -> Result<Short, AllocError>
        ensures { IfOk result (λ short. short ≡ self.now) }
    {
        let pairs = Vec::from_slice(alloc, &self.pairs)?;
        Ok(Short { pairs })
    }

    /// Gives back the room beyond the pairs.
    pub fn shrink_to_fit(&mut self)
        ensures { self.new ≡ self.old }
    {
        self.pairs.shrink_to_fit();
    }

    /// The numbers, each with how often it is held.
    pub fn pairs(&self) -> &[(i64, u64)]
        ensures pairs { result.now ≡ self.now }
        ensures some { All (λ e. 0 < e.1) self.now }
    {
        &self.pairs
    }

    /// Adds `value` `times` times where it is held already, or where there is place for it; answers whether it did.
    pub fn add(&mut self, value: i64, times: u64) -> Result<bool, AllocError>
        requires some { 0 < times }
        requires fits { size_of self.old + times < 2 ^ 64 }
        ensures added { result ≡ Ok true → AddsTimes self.old self.new value times }
        ensures full { result ≡ Ok false → self.new ≡ self.old }
        ensures only_where_full { result ≡ Ok false → FEW ≤ length self.old }
        ensures err { OnErr result (self.new ≡ self.old) }
    {
        if let Some(place) = place_of(&self.pairs, value) {
            self.pairs[place].1 += times;
            return Ok(true);
        }
        if self.pairs.len() >= FEW {
            return Ok(false);
        }
        self.pairs.push((value, times))?;
        Ok(true)
    }

    /// Takes one `value` away; answers whether there was one.
    pub fn remove(&mut self, value: i64) -> bool
        ensures taken { OnTrue result (AddsOne self.new self.old value) }
        ensures absent { OnFalse result (held_of self.old value ≡ 0) }
        ensures unchanged { OnFalse result (self.new ≡ self.old) }
    {
        let Some(place) = place_of(&self.pairs, value) else {
            return false;
        };
        if self.pairs[place].1 > 1 {
            self.pairs[place].1 -= 1;
        } else {
            let _ = self.pairs.swap_remove(place);
        }
        true
    }

    /// Whether `value` is held.
    #[tactic(auto, using(crate::proofs::BagLaws::held_by_place, crate::proofs::BagLaws::absent_by_place))]
    pub fn holds(&self, value: i64) -> bool
        ensures held { OnTrue result (0 < held_of self.now value) }
        ensures absent { OnFalse result (held_of self.now value ≡ 0) }
    {
        place_of(&self.pairs, value).is_some()
    }

    /// The least number held; it looks at each pair.
    #[tactic(auto, using(crate::proofs::BagLaws::least_of_pairs, crate::proofs::BagLaws::no_pairs))]
    pub fn least(&self) -> Option<i64>
        ensures none { IsNone result ↔ (size_of self.now ≡ 0) }
        ensures least { IfSome result (HasLeast self.now) }
    {
        least_number(&self.pairs)
    }

    /// The greatest number held; it looks at each pair.
    #[tactic(auto, using(crate::proofs::BagLaws::greatest_of_pairs, crate::proofs::BagLaws::no_pairs))]
    pub fn greatest(&self) -> Option<i64>
        ensures none { IsNone result ↔ (size_of self.now ≡ 0) }
        ensures greatest { IfSome result (HasGreatest self.now) }
    {
        greatest_number(&self.pairs)
    }
}

/// The place of the first pair of `value`.
pub fn place_of(pairs: &[(i64, u64)], value: i64) -> Option<usize>
    ensures absent { IfNone result (All (λ e. int_eq value e.0 ≡ false) pairs.now) }
    ensures within { IfSome result (λ place. place < length pairs.now) }
    ensures found { IfSome result (HoldsAt (λ e. e.0 ≡ value) pairs.now) }
{
    pairs.iter().position(|pair| value == pair.0)
}

/// The least number of pairs.
pub fn least_number(pairs: &[(i64, u64)]) -> Option<i64>
    ensures none { IsNone result ↔ (pairs.now ≡ []) }
    ensures held { IfSome result (Contains (map (λ e. e.0) pairs.now)) }
    ensures least { IfSome result (λ m. All (λ e. m ≤ℤ e.0) pairs.now) }
{
    pairs.iter().map(|pair| pair.0).min()
}

/// The greatest number of pairs.
pub fn greatest_number(pairs: &[(i64, u64)]) -> Option<i64>
    ensures none { IsNone result ↔ (pairs.now ≡ []) }
    ensures held { IfSome result (Contains (map (λ e. e.0) pairs.now)) }
    ensures greatest { IfSome result (λ m. All (λ e. e.0 ≤ℤ m) pairs.now) }
{
    pairs.iter().map(|pair| pair.0).max()
}
