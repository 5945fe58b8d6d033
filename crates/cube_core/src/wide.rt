//! Natural numbers of 256 bits: for sums of squares, and what a variance is made of.
ghost use Rattle.std.specs.Prelude.{◌≡◌, ◌≤◌, ◌<◌, ◌+◌, ◌-◌, ◌*◌, ◌/◌, ◌%◌, ◌^◌, ◌↔◌, IsTrue, MatchOption, min, unsigned_abs};

use std::marker::Model;

// 2^64, by which a number of 128 bits is cut in two.
const HALF: u128 = 0x1_0000_0000_0000_0000;

/// A natural number below 2^256.
#[derive(Clone, Copy, Debug, PartialEq, Eq)]
pub struct Wide {
    high: u128,
    low: u128,
}

impl Model for Wide {
    ghost use Rattle.std.specs.Prelude.{ℕ, ◌+◌, ◌*◌, ◌/◌, ◌%◌, ◌^◌, ◌<◌};

    ghost Value = { ℕ };

    ghost view = { λ w. w.high * 2 ^ 128 + w.low };

    ghost invariant = { λ w. w.low < 2 ^ 128 };

    ghost inverse = { λ n. record { high = n / 2 ^ 128; low = n % 2 ^ 128 } };

    ghost use Rattle.std.proofs.lemmas.Nat.{div-mul-add, mod-mul-add};

    ghost inverse_ok = { λ w h i. record {
      high = div-mul-add w.high (2 ^ 128) w.low h i;
      low = mod-mul-add w.high (2 ^ 128) w.low h i;
    } };
}

impl Wide {
    /// The number itself.
    pub fn of(number: u128) -> Wide
        ensures { result ≡ number }
    {
        Wide {
            high: 0,
            low: number,
        }
    }

    /// The number whose digits above 2^128 and below it are these.
    pub(crate) fn of_halves(high: u128, low: u128) -> Wide
        ensures { result ≡ high * 2 ^ 128 + low }
    {
        Wide { high, low }
    }

    /// Its digits above 2^128, and below it.
    pub(crate) fn halves(self) -> (u128, u128)
        ensures { result.0 * 2 ^ 128 + result.1 ≡ self }
    {
        (self.high, self.low)
    }

    /// The product of two numbers, which always fits.
    pub fn product(left: u128, right: u128) -> Wide
        ensures { result ≡ left * right }
    {
        let (left_high, left_low) = (left / HALF, left % HALF);
        let (right_high, right_low) = (right / HALF, right % HALF);
        let low = left_low * right_low;
        let (one, other) = (left_high * right_low, left_low * right_high);
        let middle = low / HALF + one % HALF + other % HALF;
        Wide {
            high: left_high * right_high + one / HALF + other / HALF + middle / HALF,
            low: middle % HALF * HALF + low % HALF,
        }
    }

    /// The number, where it is below 2^128.
    pub fn short(self) -> Option<u128>
        ensures { MatchOption result (2 ^ 128 ≤ self) (λ number. number ≡ self) }
    {
        if self.high == 0 { Some(self.low) } else { None }
    }

    /// Whether it is less than the other.
    pub fn is_below(self, other: Wide) -> bool
        ensures { IsTrue result ↔ (self < other) }
    {
        self.high < other.high || self.high == other.high && self.low < other.low
    }

    /// The sum; the greatest number where it doesn't fit.
    pub fn saturating_add(self, other: Wide) -> Wide
        ensures { result ≡ min (2 ^ 256 - 1) (self + other) }
    {
        match self.checked_add(other) {
            Some(sum) => sum,
            None => Wide {
                high: u128::MAX,
                low: u128::MAX,
            },
        }
    }

    /// The sum of two numbers below 2^255.
    pub fn plus(self, other: Wide) -> Wide
        requires left { self < 2 ^ 255 }
        requires right { other < 2 ^ 255 }
        ensures { result ≡ self + other }
    {
        self.saturating_add(other)
    }

    /// The sum, where it fits.
    pub fn checked_add(self, other: Wide) -> Option<Wide>
        ensures { MatchOption result (2 ^ 256 ≤ self + other) (λ sum. sum ≡ self + other) }
    {
        let (carry, low) = carried_sum(self.low, other.low);
        let (over, high) = carried_sum(self.high, other.high);
        if over > 0 {
            return None;
        }
        let high = high.checked_add(carry)?;
        Some(Wide { high, low })
    }

    /// The difference, where the other is no larger.
    pub fn minus(self, other: Wide) -> Wide
        requires { other ≤ self }
        ensures { result ≡ self - other }
    {
        match self.low.checked_sub(other.low) {
            Some(low) => Wide {
                high: self.high - other.high,
                low,
            },
            None => Wide {
                high: self.high - other.high - 1,
                low: self.low + (u128::MAX - other.low) + 1,
            },
        }
    }

    /// The difference; 0 where the other is larger.
    pub fn saturating_sub(self, other: Wide) -> Wide
        ensures { result ≡ self - other }
    {
        if self.is_below(other) {
            return Wide::of(0);
        }
        self.minus(other)
    }

    /// So many times the number, where that fits.
    pub fn times(self, factor: u64) -> Wide
        requires { self * factor < 2 ^ 256 }
        ensures { result ≡ self * factor }
    {
        let factor = u128::from(factor);
        let low = Wide::product(self.low, factor);
        Wide {
            high: self.high * factor + low.high,
            low: low.low,
        }
    }

    /// So many times the number, where that fits.
    pub fn checked_times(self, factor: u128) -> Option<Wide>
        ensures { MatchOption result (2 ^ 256 ≤ self * factor) (λ product. product ≡ self * factor) }
    {
        let low = Wide::product(self.low, factor);
        let upper = Wide::product(self.high, factor).checked_add(Wide::of(low.high))?;
        let high = upper.short()?;
        Some(Wide { high, low: low.low })
    }

    /// The quotient, rounded down, and the rest of a division.
    pub fn divided(self, divisor: u128) -> (Wide, u128)
        requires { 1 ≤ divisor }
        ensures quotient { result.0 ≡ self / divisor }
        ensures rest { result.1 ≡ self % divisor }
    {
        let (low, rest) = divide_on(self.high % divisor, self.low, divisor);
        let high = self.high / divisor;
        (Wide { high, low }, rest)
    }

    /// The quotient of a division, rounded down.
    pub fn quotient(self, divisor: u128) -> Wide
        requires { 1 ≤ divisor }
        ensures { result ≡ self / divisor }
    {
        self.divided(divisor).0
    }

    /// The rest of a division.
    pub fn rest(self, divisor: u128) -> u128
        requires { 1 ≤ divisor }
        ensures { result ≡ self % divisor }
    {
        self.divided(divisor).1
    }
}

/// The square of a number.
pub fn square_of(number: i64) -> u128
    ensures { result ≡ unsigned_abs number * unsigned_abs number }
{
    let size = u128::from(number.unsigned_abs());
    size * size
}

// The sum of two numbers: what is carried past 2^128, and what is left.
fn carried_sum(left: u128, right: u128) -> (u128, u128)
    ensures value { result.0 * 2 ^ 128 + result.1 ≡ left + right }
    ensures carry { result.0 ≤ 1 }
{
    match left.checked_add(right) {
        Some(sum) => (0, sum),
        None => (1, right - (u128::MAX - left) - 1),
    }
}

// Divides on where the digits above left a rest: the lower digit of the quotient, and what is left in the end. Where there
// was no rest it is a division of 128 bits, and else a bit at a time.
fn divide_on(rest: u128, low: u128, divisor: u128) -> (u128, u128)
    requires { rest < divisor }
    ensures value { result.0 * divisor + result.1 ≡ rest * 2 ^ 128 + low }
    ensures below { result.1 < divisor }
{
    if rest == 0 {
        return (low / divisor, low % divisor);
    }
    let (mut quotient, mut left) = (0u128, rest);
    let mut places = 128u32;
    while places > 0 {
        places -= 1;
        let (digit, rest) = divide_bit(left, (low >> places) % 2, divisor);
        quotient = quotient * 2 + digit;
        left = rest;
    }
    (quotient, left)
}

// One step of a division in binary: the digit of the quotient, and what is left.
fn divide_bit(rest: u128, bit: u128, divisor: u128) -> (u128, u128)
    requires below { rest < divisor }
    requires bit { bit ≤ 1 }
    ensures value { result.0 * divisor + result.1 ≡ rest * 2 + bit }
    ensures left { result.1 < divisor }
    ensures digit { result.0 ≤ 1 }
{
    let (more, gap) = (rest + bit, divisor - rest);
    if more >= gap {
        (1, more - gap)
    } else {
        (0, more + rest)
    }
}
