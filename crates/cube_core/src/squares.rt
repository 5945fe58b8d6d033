//! Sums of squares.
ghost use Rattle.std.specs.Prelude.{◌≡◌, ◌≤◌, ◌<◌, ◌+◌, ◌^◌, IfSome, MatchOption};

use crate::wide::Wide;
use std::marker::Model;

/// A sum of squares: a natural number below 2^192, which those of 2^64 - 1 numbers of 64 bits can't pass.
#[derive(Clone, Copy, Debug, PartialEq, Eq)]
pub struct Squares {
    high: u64,
    low: u128,
}

impl Model for Squares {
    ghost use Rattle.std.specs.Prelude.{ℕ, ◌+◌, ◌*◌, ◌/◌, ◌%◌, ◌^◌, ◌<◌};

    ghost Value = { ℕ };

    ghost view = { λ s. s.high * 2 ^ 128 + s.low };

    ghost invariant = { λ s. s.low < 2 ^ 128 };

    ghost inverse = { λ n. record { high = n / 2 ^ 128; low = n % 2 ^ 128 } };

    ghost use Rattle.std.proofs.lemmas.Nat.{div-mul-add, mod-mul-add};

    ghost inverse_ok = { λ s h i. record {
      high = div-mul-add s.high (2 ^ 128) s.low h i;
      low = mod-mul-add s.high (2 ^ 128) s.low h i;
    } };
}

impl Squares {
    /// The sum of no square.
    pub fn none() -> Squares
        ensures { result ≡ 0 }
    {
        Squares { high: 0, low: 0 }
    }

    /// The sum that is this number, where it is below 2^192.
    pub fn of(number: Wide) -> Option<Squares>
        ensures value { MatchOption result (2 ^ 192 ≤ number) (λ squares. squares ≡ number) }
        ensures below { IfSome result (λ squares. squares < 2 ^ 192) }
    {
        let (high, low) = number.halves();
        match u64::try_from(high) {
            Ok(high) => Some(Squares { high, low }),
            Err(_) => None,
        }
    }

    /// The number itself.
    pub fn number(self) -> Wide
        ensures value { result ≡ self }
        ensures below { result < 2 ^ 192 }
    {
        Wide::of_halves(u128::from(self.high), self.low)
    }

    /// The sum of two, where it is one.
    pub fn checked_add(self, other: Squares) -> Option<Squares>
        ensures value { MatchOption result (2 ^ 192 ≤ self + other) (λ sum. sum ≡ self + other) }
        ensures below { IfSome result (λ sum. sum < 2 ^ 192) }
    {
        Squares::of(self.number().plus(other.number()))
    }
}
