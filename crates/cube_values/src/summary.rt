//! A multiset of numbers of which only the size and the ends are kept.
ghost use Rattle.std.specs.Prelude.{◌==◌, ◌∷◌, ◌++◌, [], ℤ, ◌≡◌, ◌<◌, ◌≤◌, ◌+◌, ◌^◌, ◌↔◌, IsNone, IfSome, OnOk, OnErr};
ghost use Rattle.cube_values.specs.Bag.{Bag, AddsBag, AddsOne, held_of, size_of, HasLeast, HasGreatest, HasEnds};

use crate::trace::Trace;
use std::alloc::{AllocError, Global};
use std::marker::Model;

/// How many numbers were added, and the least and the greatest of them. It takes no memory.
///
/// Clauses see the multiset of the numbers, as those of a `Counted` do. None can be taken away.
#[derive(Drop)]
pub struct Summary {
    len: u64,
    least: i64,
    greatest: i64,
    trace: Trace,
}

impl Model for Summary {
    ghost use Rattle.cube_values.specs.Bag.{Bag};
    ghost use Rattle.cube_values.specs.Summary.{IsSummary};

    ghost Value = { Bag };

    ghost view = { λ s. s.trace.bag };

    ghost invariant = { λ s. IsSummary s.trace.bag s.len s.least s.greatest };
}

impl Summary {
    /// A summary of no number; it takes no memory.
    pub fn new(_alloc: Global) -> Summary
        ensures held { (v : ℤ) → held_of result v ≡ 0 }
        ensures size { size_of result ≡ 0 }
    {
        Summary {
            len: 0,
            least: 0,
            greatest: 0,
            trace: Trace::none(),
        }
    }

    // A summary of one number.
    fn of(value: i64) -> Summary
        ensures { result ≡ (value, 1) ∷ [] }
    {
        Summary {
            len: 1,
            least: value,
            greatest: value,
            trace: Trace::one(value),
        }
    }

    /// Adds one `value`. It takes no memory, so it answers no error.
    pub fn add(&mut self, value: i64) -> Result<(), AllocError>
        requires { size_of self.old + 1 < 2 ^ 64 }
        ensures added { OnOk result (AddsOne self.old self.new value) }
        ensures err { OnErr result (self.new ≡ self.old) }
    {
        self.include(&Summary::of(value));
        Ok(())
    }

    /// Adds all numbers of another summary. It takes no memory, so it answers no error.
    pub fn merge(&mut self, more: &Summary) -> Result<(), AllocError>
        requires { size_of self.old + size_of more.now < 2 ^ 64 }
        ensures merged { OnOk result (AddsBag self.old self.new more.now) }
        ensures err { OnErr result (size_of self.new ≡ 0) }
    {
        self.include(more);
        Ok(())
    }

    // Adds all numbers of another summary.
    fn include(&mut self, more: &Summary)
        requires { size_of self.old + size_of more.now < 2 ^ 64 }
        ensures { self.new ≡ self.old ++ more.now }
    {
        let (least, greatest) = ends_of(self, more);
        self.least = least;
        self.greatest = greatest;
        self.len += more.len;
        self.trace = self.trace.and(&more.trace);
    }

    /// Does nothing: there is no room to give back.
    pub fn shrink_to_fit(&mut self)
        ensures { self.new ≡ self.old }
    {}

    /// The least number that was added.
    pub fn least(&self) -> Option<i64>
        ensures none { IsNone result ↔ (size_of self.now ≡ 0) }
        ensures least { IfSome result (HasLeast self.now) }
    {
        if self.len == 0 {
            return None;
        }
        Some(self.least)
    }

    /// The greatest number that was added.
    pub fn greatest(&self) -> Option<i64>
        ensures none { IsNone result ↔ (size_of self.now ≡ 0) }
        ensures greatest { IfSome result (HasGreatest self.now) }
    {
        if self.len == 0 {
            return None;
        }
        Some(self.greatest)
    }

    /// How many numbers were added.
    #[tactic(auto, using(crate::proofs::BagLaws::held_le_size))]
    pub fn len(&self) -> u64
        ensures len { result ≡ size_of self.now }
        ensures held { (v : ℤ) → held_of self.now v ≤ result }
    {
        self.len
    }

    /// Whether no number was added.
    pub fn is_empty(&self) -> bool
        ensures { result ≡ (size_of self.now == 0) }
    {
        self.len == 0
    }
}

// The ends of the numbers of both.
fn ends_of(one: &Summary, other: &Summary) -> (i64, i64)
    ensures { 0 < size_of (one.now ++ other.now) → HasEnds (one.now ++ other.now) result.0 result.1 }
{
    if one.len == 0 {
        return (other.least, other.greatest);
    }
    if other.len == 0 {
        return (one.least, one.greatest);
    }
    (one.least.min(other.least), one.greatest.max(other.greatest))
}
