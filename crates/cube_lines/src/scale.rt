//! Fractions of units of 10^-k, and those of the value itself.
ghost use Rattle.std.specs.Prelude.{◌≡◌, ◌++◌, ◌∷◌, ◌*◌, ◌/◌, ◌<◌, ◌≤◌, ◌^◌, codes, decimal, int_div, pos, true, IfSome};
ghost use Rattle.std.specs.Fmt.{signed_decimal};
ghost use Rattle.cube_core.specs.Text.{common_with_ten, fraction_text};

use crate::long_scale::common_with_ten;

/// p/q units of 10^-k as a fraction of the value itself, where there are k digits: P/Q with P/Q = p/(q * 10^k), in lowest
/// terms where p/q is.
pub fn scaled(digits: u8, p: i128, q: u64) -> (i128, u128)
    requires { digits ≤ 18 }
    ensures { signed_decimal result.0 ++ codes "/" ++ decimal result.1 ≡ fraction_text digits p q }
{
    let common = short_common_with_ten(digits, p.unsigned_abs());
    (
        quotient(p, common),
        product(q, power_of_ten(digits) / common),
    )
}

/// The fraction of units whose fraction of the value itself is p/q, in lowest terms where p/q is; None where there is none
/// of 128 and 64 bits.
pub fn unscaled(digits: u8, p: i128, q: u128) -> Option<(i128, u64)>
    requires { digits ≤ 18 }
    ensures { IfSome result (λ units.
        signed_decimal p ++ codes "/" ++ decimal q ≡ fraction_text digits units.0 units.1) }
{
    if digits == 0 {
        return Some((p, u64::try_from(q).ok()?));
    }
    let common = short_common_with_ten(digits, q);
    let denominator = u64::try_from(q / u128::from(common)).ok()?;
    let numerator = p.checked_mul(i128::from(power_of_ten(digits) / common))?;
    if is_scaled(digits, numerator, denominator, p, q) {
        return Some((numerator, denominator));
    }
    None
}

// Whether units/parts units of 10^-k are p/q of the value itself.
fn is_scaled(digits: u8, units: i128, parts: u64, p: i128, q: u128) -> bool
    requires { digits ≤ 18 }
    ensures { result ≡ true → signed_decimal p ++ codes "/" ++ decimal q ≡ fraction_text digits units parts }
{
    let (numerator, denominator) = scaled(digits, units, parts);
    numerator == p && denominator == q
}

// The quotient, rounded toward zero.
fn quotient(number: i128, divisor: u64) -> i128
    requires { 1 ≤ divisor }
    ensures { result ≡ int_div number (pos divisor) }
{
    number / i128::from(divisor)
}

fn product(left: u64, right: u64) -> u128
    ensures { result ≡ left * right }
{
    u128::from(left) * u128::from(right)
}

fn power_of_ten(digits: u8) -> u64
    requires { digits ≤ 18 }
    ensures { result ≡ 10 ^ digits }
{
    10u64.pow(u32::from(digits))
}

// The greatest common divisor of 10^k and a number.
fn short_common_with_ten(digits: u8, number: u128) -> u64
    requires { digits ≤ 18 }
    ensures value { result ≡ common_with_ten digits number }
    ensures positive { 1 ≤ result }
{
    common_with_ten(digits, number) as u64
}
