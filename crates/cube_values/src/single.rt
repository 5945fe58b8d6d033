//! A bag of one number, held any number of times.
ghost use Rattle.std.specs.Prelude.{◌∷◌, ◌≡◌, ◌<◌, ◌+◌, ◌^◌, ◌↔◌, [], IsNone, IfSome, ℤ};
ghost use Rattle.std.specs.Bool.{OnTrue, OnFalse};
ghost use Rattle.cube_values.specs.Bag.{AddsOne, AddsTimes, held_of, size_of, HasLeast, HasGreatest};

use std::marker::Model;

/// One number, held `count` times; no number where that is 0.
#[derive(Drop)]
pub struct Single {
    value: i64,
    count: u64,
}

impl Model for Single {
    ghost use Rattle.std.specs.Prelude.{[], ◌∷◌};
    ghost use Rattle.cube_values.specs.Bag.{Bag};

    ghost Value = { Bag };

    ghost view = { λ s. (s.value, s.count) ∷ [] };
}

impl Single {
    /// No number.
    pub fn none() -> Single
        ensures held { (x : ℤ) → held_of result x ≡ 0 }
        ensures size { size_of result ≡ 0 }
    {
        Single { value: 0, count: 0 }
    }

    /// Adds `value` `times` times where no other number is held; answers whether it did.
    pub fn add(&mut self, value: i64, times: u64) -> bool
        requires { size_of self.old + times < 2 ^ 64 }
        ensures added { OnTrue result (AddsTimes self.old self.new value times) }
        ensures other { OnFalse result (self.new ≡ self.old) }
        ensures some { OnFalse result (0 < size_of self.old) }
    {
        if self.count > 0 && self.value != value {
            return false;
        }
        self.value = value;
        self.count += times;
        true
    }

    /// Takes one `value` away; answers whether there was one.
    pub fn remove(&mut self, value: i64) -> bool
        ensures taken { OnTrue result (AddsOne self.new self.old value) }
        ensures absent { OnFalse result (held_of self.old value ≡ 0) }
        ensures unchanged { OnFalse result (self.new ≡ self.old) }
    {
        if self.count == 0 || self.value != value {
            return false;
        }
        self.count -= 1;
        true
    }

    /// Whether `value` is held.
    pub fn holds(&self, value: i64) -> bool
        ensures held { OnTrue result (0 < held_of self.now value) }
        ensures absent { OnFalse result (held_of self.now value ≡ 0) }
    {
        self.value == value && self.count > 0
    }

    /// The number, where it is held: the least and the greatest.
    pub fn number(&self) -> Option<i64>
        ensures none { IsNone result ↔ (size_of self.now ≡ 0) }
        ensures least { IfSome result (HasLeast self.now) }
        ensures greatest { IfSome result (HasGreatest self.now) }
    {
        if self.count == 0 {
            None
        } else {
            Some(self.value)
        }
    }

    /// The number and how often it is held.
    pub fn pair(&self) -> (i64, u64)
        ensures pair { self.now ≡ result ∷ [] }
        ensures size { size_of self.now ≡ result.1 }
    {
        (self.value, self.count)
    }
}
