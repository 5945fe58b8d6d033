//! A mean as a decimal number.
ghost use Rattle.std.specs.Prelude.{◌<◌};

use std::alloc::AllocError;

/// Puts a mean, printed as a fraction, at the end of the text: as a number with so many digits behind its point, rounded half
/// away from zero; one that isn't a fraction of numbers that fit stays as it is. The only error is that memory ran out.
pub(crate) fn push_mean(text: &mut String, mean: &str, digits: u8) -> Result<(), AllocError> {
    match rounded(mean, digits) {
        Some(number) => push_decimal(text, &number, digits),
        None => text.push_str(mean),
    }
}

/// A number with digits behind its point.
#[derive(Clone, Copy, PartialEq, Eq, Debug)]
struct Decimal {
    is_negative: bool,
    /// What stands before the point.
    whole: u128,
    /// The digits behind the point, as one number.
    part: u128,
    /// 10 to the power of how many digits stand behind the point.
    unit: u128,
}

// A fraction, rounded half away from zero to so many digits behind the point.
fn rounded(fraction: &str, digits: u8) -> Option<Decimal> {
    let (top, bottom) = fraction.split_once('/')?;
    let (is_negative, top) = match top.strip_prefix('-') {
        Some(rest) => (true, rest),
        None => (false, top),
    };
    let (Ok(top), Ok(bottom)) = (top.parse::<u128>(), bottom.parse::<u128>()) else {
        return None;
    };
    if bottom == 0 {
        return None;
    }
    let number = divided(top, bottom, digits)?;
    let is_negative = is_negative && (number.whole != 0 || number.part != 0);
    Some(Decimal {
        is_negative,
        ..number
    })
}

// A quotient, rounded half up to so many digits behind the point; none where a number on the way doesn't fit.
fn divided(top: u128, bottom: u128, digits: u8) -> Option<Decimal>
    requires { 0 < bottom }
{
    let (mut part, mut unit, mut rest) = (0u128, 1u128, top % bottom);
    for _ in 0..digits {
        rest = rest.checked_mul(10)?;
        part = part.checked_mul(10)?.checked_add(rest / bottom)?;
        unit = unit.checked_mul(10)?;
        rest %= bottom;
    }
    let whole = top / bottom;
    if rest < bottom.saturating_sub(rest) {
        return Some(number_of(whole, part, unit));
    }
    raised(whole, part, unit)
}

// A number that isn't negative.
fn number_of(whole: u128, part: u128, unit: u128) -> Decimal {
    Decimal {
        is_negative: false,
        whole,
        part,
        unit,
    }
}

// A number that is one more in its last digit; none where it doesn't fit.
fn raised(whole: u128, part: u128, unit: u128) -> Option<Decimal> {
    let more = part.checked_add(1)?;
    if more == unit {
        return Some(number_of(whole.checked_add(1)?, 0, unit));
    }
    Some(number_of(whole, more, unit))
}

// Puts the text of a number.
fn push_decimal(text: &mut String, number: &Decimal, digits: u8) -> Result<(), AllocError> {
    if number.is_negative {
        text.push('-')?;
    }
    let whole = number.whole;
    write!(text, "{whole}")?;
    text.push('.')?;
    let mut unit = number.unit;
    for _ in 0..digits {
        unit /= 10;
        text.push(digit_at(number.part, unit))?;
    }
    Ok(())
}

// The digit of a number at a power of ten.
fn digit_at(number: u128, power: u128) -> char {
    if power == 0 {
        return '0';
    }
    let digit = number / power % 10;
    (b'0' + digit as u8) as char
}
