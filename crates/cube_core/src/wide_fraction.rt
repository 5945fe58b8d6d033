//! A fraction of natural numbers in lowest terms.
ghost use Rattle.std.specs.Prelude.{◌≡◌, ◌≤◌, ◌<◌, ◌^◌, true};
ghost use Rattle.std.specs.Int.{IsGcd};
ghost use Rattle.cube_core.specs.Wide.{IsReduced};

use crate::wide::Wide;

/// The fraction of two numbers in lowest terms: its numerator, and its denominator, which is at least 1.
pub fn reduced(numerator: Wide, denominator: u128) -> (Wide, u128)
    requires { 1 ≤ denominator }
    ensures { IsReduced numerator denominator result.0 result.1 }
{
    let divisor = divisor_of(numerator, denominator);
    (numerator.quotient(divisor), denominator / divisor)
}

/// Whether a fraction is in lowest terms, and its denominator at least 1.
pub fn is_reduced(numerator: Wide, denominator: u128) -> bool
    ensures terms { result ≡ true → (0 < denominator) × IsGcd numerator denominator 1 }
    ensures below { numerator < 2 ^ 256 }
{
    denominator != 0 && divisor_of(numerator, denominator) == 1
}

// The greatest common divisor of the two. One rest of 256 bits, then it fits 128.
fn divisor_of(numerator: Wide, denominator: u128) -> u128
    requires { 1 ≤ denominator }
    ensures positive { 1 ≤ result }
    ensures greatest { IsGcd numerator denominator result }
{
    let rest = numerator.rest(denominator);
    greatest_common_divisor(denominator, rest)
}

// Euclid's algorithm.
fn greatest_common_divisor(left: u128, right: u128) -> u128
    ensures { IsGcd left right result }
{
    let mut divisor = left;
    let mut rest = right;
    while rest != 0 {
        (divisor, rest) = (rest, divisor % rest);
    }
    divisor
}
