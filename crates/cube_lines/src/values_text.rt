//! The text of values and how often each is held, put at the end of a text in memory.
ghost use Rattle.std.specs.Prelude.{◌≡◌, ◌++◌, ℤ, ℕ, codes, OnOk};
ghost use Rattle.std.specs.List.{flat_map};
ghost use Rattle.cube_core.specs.Text.{held_text, values_text};

use crate::units::push_units;
use itoa::Buffer;
use std::alloc::AllocError;

/// Puts values of units of 10^-k, each with how often it is held, at the end of a text, a space between two. The only
/// error is that memory ran out, and then a part of them may stand there.
pub fn push_values(
    text: &mut Vec<u8>,
    number: &mut Buffer,
    digits: u8,
    held: &[(i64, u64)],
) -> Result<(), AllocError>
    ensures { OnOk result (text.new.items ≡ text.old.items ++ values_text digits held.now) }
{
    match held {
        [] => Ok(()),
        [first, others @ ..] => {
            push_held(text, number, digits, first)?;
            push_others(text, number, digits, others)
        }
    }
}

// Puts values that stand behind another one, a space before each.
fn push_others(
    text: &mut Vec<u8>,
    number: &mut Buffer,
    digits: u8,
    others: &[(i64, u64)],
) -> Result<(), AllocError>
    ensures { OnOk result (text.new.items
        ≡ text.old.items ++ flat_map (λ (other : ℤ × ℕ). codes " " ++ held_text digits other) others.now) }
{
    for other in others {
        text.push(b' ')?;
        push_held(text, number, digits, other)?;
    }
    Ok(())
}

// Puts a value and how often it is held.
fn push_held(
    text: &mut Vec<u8>,
    number: &mut Buffer,
    digits: u8,
    held: &(i64, u64),
) -> Result<(), AllocError>
    ensures { OnOk result (text.new.items ≡ text.old.items ++ held_text digits held.now) }
{
    push_units(text, number, digits, i128::from(held.0))?;
    text.push(b'*')?;
    text.extend_from_slice(number.format(held.1).as_bytes())
}
