//! The text of a number of units, put at the end of a text in memory.
ghost use Rattle.std.specs.Prelude.{◌≡◌, ◌++◌, ◌+◌, ◌-◌, ◌<◌, ◌≤◌, ◌∷◌, [], codes, decimal, length, replicate, OnOk, unsigned_abs};
ghost use Rattle.std.specs.Fmt.{signed_decimal};
ghost use Rattle.cube_core.specs.Text.{fraction_text, padded, pointed, signed_units_text};

use crate::scale::scaled;
use itoa::Buffer;
use std::alloc::{AllocError, Global};

/// Puts the text of so many units of 10^-k at the end of a text, where there are k digits. The only error is that memory
/// ran out, and then a part of it may stand there.
pub fn push_units(
    text: &mut Vec<u8>,
    number: &mut Buffer,
    digits: u8,
    value: i128,
) -> Result<(), AllocError>
    ensures { OnOk result (text.new.items ≡ text.old.items ++ signed_units_text digits value) }
{
    if digits == 0 {
        return push_whole(text, number, value);
    }
    if value < 0 {
        text.push(b'-')?;
    }
    let (digits, size) = (usize::from(digits), value.unsigned_abs());
    match u64::try_from(size) {
        Ok(short) => push_pointed(text, digits, number.format(short).as_bytes()),
        Err(_) => push_pointed(text, digits, number.format(size).as_bytes()),
    }
}

/// Puts the text of p/q units of 10^-k, as a fraction of the value itself, at the end of a text, where there are k digits.
/// The only error is that memory ran out, and then a part of it may stand there.
pub fn push_fraction(
    text: &mut Vec<u8>,
    number: &mut Buffer,
    digits: u8,
    p: i128,
    q: u64,
) -> Result<(), AllocError>
    requires { digits ≤ 18 }
    ensures { OnOk result (text.new.items ≡ text.old.items ++ fraction_text digits p q) }
{
    if digits == 0 {
        return push_ratio(text, number, p, q);
    }
    let (numerator, denominator) = scaled(digits, p, q);
    push_whole(text, number, numerator)?;
    text.push(b'/')?;
    text.extend_from_slice(number.format(denominator).as_bytes())
}

fn push_ratio(text: &mut Vec<u8>, number: &mut Buffer, p: i128, q: u64) -> Result<(), AllocError>
    ensures { OnOk result (text.new.items ≡ text.old.items
        ++ (signed_decimal p ++ codes "/" ++ decimal q)) }
{
    push_whole(text, number, p)?;
    text.push(b'/')?;
    text.extend_from_slice(number.format(q).as_bytes())
}

// Puts a number. Most fit 64 bits, and the text of those takes less time.
fn push_whole(text: &mut Vec<u8>, number: &mut Buffer, value: i128) -> Result<(), AllocError>
    ensures { OnOk result (text.new.items ≡ text.old.items ++ signed_decimal value) }
{
    match i64::try_from(value) {
        Ok(short) => text.extend_from_slice(number.format(short).as_bytes()),
        Err(_) => text.extend_from_slice(number.format(value).as_bytes()),
    }
}

// Puts digits with a point before the last k of them, and with zeros before those where they are no more than k.
fn push_pointed(text: &mut Vec<u8>, digits: usize, number: &[u8]) -> Result<(), AllocError>
    requires { digits ≤ 255 }
    ensures { OnOk result
        (text.new.items ≡ text.old.items ++ pointed digits (padded (digits + 1) number.now)) }
{
    if number.len() > digits {
        let point = number.len() - digits;
        text.extend_from_slice(&number[..point])?;
        text.push(b'.')?;
        return text.extend_from_slice(&number[point..]);
    }
    text.extend_from_slice(b"0.")?;
    push_zeros(text, digits - number.len())?;
    text.extend_from_slice(number)
}

/// Puts so many zeros.
pub(crate) fn push_zeros(text: &mut Vec<u8>, count: usize) -> Result<(), AllocError>
    ensures { OnOk result (text.new.items ≡ text.old.items ++ replicate count 48) }
{
    for _ in 0..count {
        text.push(b'0')?;
    }
    Ok(())
}
