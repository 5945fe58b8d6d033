//! Numbers that are added up.
ghost use Rattle.std.specs.Prelude.{◌==◌, ℤ, ◌≡◌, ◌<◌, ◌≤◌, ◌+◌, ◌^◌, ◌↔◌, Bool, IsTrue, IsNone, IfOk, IfSome, OnOk, OnErr};
ghost use Rattle.cube_values.specs.Bag.{Bag, AddsBag, AddsOne, held_of, size_of, HasLeast, HasGreatest};
ghost use Rattle.cube_values.specs.Statistics.{AreInOrder, HasDifferent, IsAtPlace, squares_held};

use crate::summary::Summary;
use cube_core::Squares;
use std::alloc::{AllocError, Global};

/// Numbers that are added up: how many there are, the least and the greatest.
pub trait Numbers: Drop {
    /// The multiset of the numbers.
    ghost bag: { Self → Bag };

    /// Whether each of them is kept, so that how many are different and which stands at a place can be told.
    ghost keeps: { Bool };

    /// No number; it takes no memory.
    fn new(alloc: Global) -> Self
        ensures held { (v : ℤ) → held_of (bag result) v ≡ 0 }
        ensures size { size_of (bag result) ≡ 0 };

    /// Adds one `value`. Where memory runs out, the numbers stay as they were.
    fn add(&mut self, value: i64) -> Result<(), AllocError>
        requires { size_of (bag self.old) + 1 < 2 ^ 64 }
        ensures added { OnOk result (AddsOne (bag self.old) (bag self.new) value) }
        ensures err { OnErr result (bag self.new ≡ bag self.old) };

    /// Adds all numbers of another. Where memory runs out, no number is left.
    fn merge(&mut self, more: &Self) -> Result<(), AllocError>
        requires { size_of (bag self.old) + size_of (bag more.now) < 2 ^ 64 }
        ensures merged { OnOk result (AddsBag (bag self.old) (bag self.new) (bag more.now)) }
        ensures err { OnErr result (size_of (bag self.new) ≡ 0) };

    /// Gives back the room that is not needed. It takes no memory.
    fn shrink_to_fit(&mut self)
        ensures { bag self.new ≡ bag self.old };

    /// Brings the numbers in order, where they are many and what is asked of them is then answered sooner. It takes no
    /// memory.
    fn bring_in_order(&mut self)
        ensures { bag self.new ≡ bag self.old };

    /// The least number.
    fn least(&self) -> Option<i64>
        ensures none { IsNone result ↔ (size_of (bag self.now) ≡ 0) }
        ensures least { IfSome result (HasLeast (bag self.now)) };

    /// The greatest number.
    fn greatest(&self) -> Option<i64>
        ensures none { IsNone result ↔ (size_of (bag self.now) ≡ 0) }
        ensures greatest { IfSome result (HasGreatest (bag self.now)) };

    /// How many numbers there are, each counted as often as it was added.
    fn len(&self) -> u64
        ensures { result ≡ size_of (bag self.now) };

    /// Whether there is no number.
    fn is_empty(&self) -> bool
        ensures { result ≡ (size_of (bag self.now) == 0) };

    /// How many different numbers there are, where each is kept. The only error is that memory ran out.
    fn different(&self) -> Result<u64, AllocError>
        ensures { IsTrue keeps → IfOk result (HasDifferent (bag self.now)) };

    /// The numbers in order, each with how often it was added, where each is kept. The only error is that memory ran out.
    fn in_order(&self) -> Result<Vec<(i64, u64)>, AllocError>
        ensures { IsTrue keeps → IfOk result (λ pairs. AreInOrder (bag self.now) pairs.items) };

    /// The number at a place, counted from 1, of the numbers in order, where each is kept. It takes no memory.
    fn at_place(&self, place: u64) -> i64
        requires first { 1 ≤ place }
        requires last { place ≤ size_of (bag self.now) }
        ensures { IsTrue keeps → IsAtPlace (bag self.now) place result };

    /// The sum of the squares of the numbers, where each is kept. It takes no memory.
    fn squares(&self) -> Squares
        ensures { IsTrue keeps → result ≡ squares_held (bag self.now) };
}

impl Numbers for Summary {
    ghost use Rattle.std.specs.Prelude.{false};

    ghost bag = { λ s. s };

    ghost keeps = { false };

    fn new(alloc: Global) -> Summary {
        Summary::new(alloc)
    }

    fn add(&mut self, value: i64) -> Result<(), AllocError> {
        self.add(value)
    }

    fn merge(&mut self, more: &Summary) -> Result<(), AllocError> {
        self.merge(more)
    }

    fn shrink_to_fit(&mut self) {
        self.shrink_to_fit();
    }

    fn bring_in_order(&mut self) {}

    fn least(&self) -> Option<i64> {
        self.least()
    }

    fn greatest(&self) -> Option<i64> {
        self.greatest()
    }

    fn len(&self) -> u64 {
        self.len()
    }

    fn is_empty(&self) -> bool {
        self.is_empty()
    }

    fn different(&self) -> Result<u64, AllocError> {
        Err(AllocError)
    }

    fn in_order(&self) -> Result<Vec<(i64, u64)>, AllocError> {
        Err(AllocError)
    }

    fn at_place(&self, place: u64) -> i64 {
        let _ = place;
        0
    }

    fn squares(&self) -> Squares {
        Squares::none()
    }
}
