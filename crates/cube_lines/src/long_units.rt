//! The text of a long number of units, put at the end of a text in memory.
ghost use Rattle.std.specs.Prelude.{◌≡◌, ◌++◌, ◌<◌, ◌≤◌, ◌^◌, OnOk};
ghost use Rattle.cube_core.specs.Text.{long_fraction_text, long_units_text};
ghost use Rattle.cube_core.specs.Wide.{last_digits, long_decimal};

use crate::long_scale::{long_power_of_ten, long_scaled};
use crate::units::push_zeros;
use cube_core::{Wide, push_decimal};
use itoa::Buffer;
use std::alloc::AllocError;

/// Puts the text of so many units of 10^-k at the end of a text, where there are k digits. The only error is that
/// memory ran out, and then a part of it may stand there.
pub fn push_long_units(
    text: &mut Vec<u8>,
    number: &mut Buffer,
    digits: u8,
    value: Wide,
) -> Result<(), AllocError>
    requires { digits ≤ 36 }
    ensures { OnOk result (text.new.items ≡ text.old.items ++ long_units_text digits value) }
{
    if digits == 0 {
        return push_long(text, number, value);
    }
    let (front, last) = value.divided(long_power_of_ten(digits));
    push_long(text, number, front)?;
    text.push(b'.')?;
    push_last_digits(text, number, usize::from(digits), last)
}

/// Puts the text of p/q units of 10^-k, as a fraction of the value itself, at the end of a text, where there are k
/// digits. The only error is that memory ran out, and then a part of it may stand there.
pub fn push_long_fraction(
    text: &mut Vec<u8>,
    number: &mut Buffer,
    digits: u8,
    p: Wide,
    q: u128,
) -> Result<(), AllocError>
    requires { digits ≤ 36 }
    ensures { OnOk result (text.new.items ≡ text.old.items ++ long_fraction_text digits p q) }
{
    let (numerator, denominator) = long_scaled(digits, p, q);
    push_long(text, number, numerator)?;
    text.push(b'/')?;
    push_long(text, number, denominator)
}

// Puts a number. Most fit 128 bits, and the text of those takes less time.
fn push_long(text: &mut Vec<u8>, number: &mut Buffer, value: Wide) -> Result<(), AllocError>
    ensures { OnOk result (text.new.items ≡ text.old.items ++ long_decimal value) }
{
    match value.short() {
        Some(short) => text.extend_from_slice(number.format(short).as_bytes()),
        None => push_decimal(text, value),
    }
}

// Puts the last digits of a number that has no others, with zeros before them where it has fewer.
fn push_last_digits(
    text: &mut Vec<u8>,
    number: &mut Buffer,
    count: usize,
    value: u128,
) -> Result<(), AllocError>
    requires some { 1 ≤ count }
    requires fits { value < 10 ^ count }
    ensures { OnOk result (text.new.items ≡ text.old.items ++ last_digits count value) }
{
    let shown = number.format(value).as_bytes();
    push_zeros(text, count - shown.len())?;
    text.extend_from_slice(shown)
}
