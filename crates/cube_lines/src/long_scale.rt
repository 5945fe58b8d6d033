//! Fractions of units of 10^-k whose numbers are long, and those of the value itself.
ghost use Rattle.std.specs.Prelude.{◌≡◌, ◌++◌, ◌*◌, ◌/◌, ◌%◌, ◌<◌, ◌≤◌, ◌^◌, codes, true, IfSome};
ghost use Rattle.cube_core.specs.Text.{common_power, common_with_ten, long_fraction_text};
ghost use Rattle.cube_core.specs.Wide.{long_decimal};

use cube_core::Wide;

/// p/q units of 10^-k as a fraction of the value itself, where there are k digits: P/Q with P/Q = p/(q * 10^k), in
/// lowest terms where p/q is.
pub fn long_scaled(digits: u8, p: Wide, q: u128) -> (Wide, Wide)
    requires { digits ≤ 36 }
    ensures { long_decimal result.0 ++ codes "/" ++ long_decimal result.1 ≡ long_fraction_text digits p q }
{
    let power = long_power_of_ten(digits);
    let common = common_with_ten(digits, p.rest(power));
    (p.quotient(common), Wide::product(q, power / common))
}

/// The fraction of units whose fraction of the value itself is p/q, in lowest terms where p/q is; None where there is
/// none of 256 and 128 bits.
pub fn long_unscaled(digits: u8, p: Wide, q: Wide) -> Option<(Wide, u128)>
    requires { digits ≤ 36 }
    ensures { IfSome result (λ units.
        long_decimal p ++ codes "/" ++ long_decimal q ≡ long_fraction_text digits units.0 units.1) }
{
    let power = long_power_of_ten(digits);
    let common = common_with_ten(digits, q.rest(power));
    let denominator = q.quotient(common).short()?;
    let numerator = p.checked_times(power / common)?;
    if is_long_scaled(digits, numerator, denominator, p, q) {
        return Some((numerator, denominator));
    }
    None
}

// Whether units/parts units of 10^-k are p/q of the value itself.
fn is_long_scaled(digits: u8, units: Wide, parts: u128, p: Wide, q: Wide) -> bool
    requires { digits ≤ 36 }
    ensures { result ≡ true → long_decimal p ++ codes "/" ++ long_decimal q ≡ long_fraction_text digits units parts }
{
    let (numerator, denominator) = long_scaled(digits, units, parts);
    numerator == p && denominator == q
}

/// A power of ten.
pub fn long_power_of_ten(digits: u8) -> u128
    requires { digits ≤ 36 }
    ensures value { result ≡ 10 ^ digits }
    ensures positive { 1 ≤ result }
{
    10u128.pow(u32::from(digits))
}

/// The greatest common divisor of 10^k and a number.
pub fn common_with_ten(digits: u8, number: u128) -> u128
    requires { digits ≤ 36 }
    ensures value { result ≡ common_with_ten digits number }
    ensures positive { 1 ≤ result }
    ensures bound { result ≤ 10 ^ digits }
{
    common_power(2, digits, number) * common_power(5, digits, number)
}

// The greatest power of a number, up to the k-th, that divides another.
fn common_power(base: u128, digits: u8, number: u128) -> u128
    requires some { 1 ≤ base }
    requires small { base ≤ 5 }
    requires few { digits ≤ 36 }
    ensures value { result ≡ common_power base digits number }
    ensures positive { 1 ≤ result }
    ensures bound { result ≤ base ^ digits }
{
    if digits == 0 || number % base != 0 {
        return 1;
    }
    base * common_power(base, digits - 1, number / base)
}
