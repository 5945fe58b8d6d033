//! The digits of a number of 256 bits, put at the end of a text in memory.
ghost use Rattle.std.specs.Prelude.{◌≡◌, ◌+◌, ◌<◌, ◌++◌, ◌∷◌, [], OnOk};
ghost use Rattle.cube_core.specs.Wide.{last_digits, long_decimal};

use crate::wide::Wide;
use std::alloc::AllocError;

// 10^38, by which a long number is cut.
const CUT: u128 = 100_000_000_000_000_000_000_000_000_000_000_000_000;

/// Puts the digits of a number at the end of a text. The only error is that memory ran out, and then a part of them may
/// stand there.
pub fn push_decimal(text: &mut Vec<u8>, number: Wide) -> Result<(), AllocError>
    ensures { OnOk result (text.new.items ≡ text.old.items ++ long_decimal number) }
{
    match number.short() {
        Some(short) => push_short(text, short),
        None => {
            let (front, last) = number.divided(CUT);
            push_decimal(text, front)?;
            push_places(text, last, 38)
        }
    }
}

fn push_short(text: &mut Vec<u8>, number: u128) -> Result<(), AllocError>
    ensures { OnOk result (text.new.items ≡ text.old.items ++ long_decimal number) }
{
    if number < 10 {
        return push_digit(text, number);
    }
    push_short(text, number / 10)?;
    push_digit(text, number % 10)
}

// Puts the last digits of a number, so many of them.
fn push_places(text: &mut Vec<u8>, number: u128, places: u32) -> Result<(), AllocError>
    ensures { OnOk result (text.new.items ≡ text.old.items ++ last_digits places number) }
{
    if places == 0 {
        return Ok(());
    }
    push_places(text, number / 10, places - 1)?;
    push_digit(text, number % 10)
}

fn push_digit(text: &mut Vec<u8>, digit: u128) -> Result<(), AllocError>
    requires { digit < 10 }
    ensures { OnOk result (text.new.items ≡ text.old.items ++ (48 + digit) ∷ []) }
{
    text.push(b'0' + digit as u8)?;
    Ok(())
}
