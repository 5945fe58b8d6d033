//! The mean of a group as a fraction in lowest terms.

ghost use Rattle.std.specs.Prelude.{◌≡◌, ◌≤◌, pos, int_div, unsigned_abs};
ghost use Rattle.std.specs.Int.{IsGcd};
ghost use Rattle.cube_core.specs.Fraction.{IsInLowestTerms};

/// The fraction `sum / count` in lowest terms: its numerator, which has the sign of `sum`, and its
/// denominator, which is at least 1. It is exact at every sum, `i128::MIN` among them.
pub fn reduced(sum: i128, count: u64) -> (i128, u64)
    requires { 1 ≤ count }
    ensures { IsInLowestTerms sum count result.0 result.1 }
{
    let divisor = divisor_of(sum, count);
    (quotient(sum, divisor), count / divisor)
}

// The greatest common divisor of `sum` and `count`. One remainder at 128 bits, then it fits 64.
fn divisor_of(sum: i128, count: u64) -> u64
    requires { 1 ≤ count }
    ensures positive { 1 ≤ result }
    ensures greatest { IsGcd (unsigned_abs sum) count result }
{
    let rest = sum.unsigned_abs() % u128::from(count);
    greatest_common_divisor(count, rest as u64)
}

// Euclid's algorithm.
fn greatest_common_divisor(left: u64, right: u64) -> u64
    ensures { IsGcd left right result }
{
    let mut divisor = left;
    let mut rest = right;
    while rest != 0 {
        (divisor, rest) = (rest, divisor % rest);
    }
    divisor
}

// The quotient, rounded toward zero.
fn quotient(sum: i128, divisor: u64) -> i128
    requires { 1 ≤ divisor }
    ensures { result ≡ int_div sum (pos divisor) }
{
    sum / i128::from(divisor)
}
