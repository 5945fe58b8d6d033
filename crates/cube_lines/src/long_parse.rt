//! The long numbers of a printed line, read as it spells them and not otherwise: sums of squares, and variances.
ghost use Rattle.std.specs.Prelude.{◌≡◌, ◌*◌, ◌≤◌, ◌++◌, IfSome};
ghost use Rattle.cube_core.specs.Text.{answer_text, long_units_text};
ghost use Rattle.cube_core.specs.Wide.{long_decimal};
ghost use Rattle.cube_lines.specs.Parts.{part};

use crate::long_scale::{long_power_of_ten, long_unscaled};
use crate::parse::{after, digit_of, number_behind, parse_size};
use cube_core::{Answer, Squares, Wide};

/// The answer to a sum of squares, whose measure has so many digits behind its point, and what follows its field.
pub fn squares_answer(digits: u8, text: &[u8]) -> Option<(Answer, &[u8])>
    requires { digits ≤ 18 }
    ensures { IfSome result (λ read. text.now ≡ part (answer_text digits read.0) ++ read.1.now) }
{
    let Some((number, end)) = parse_long_units(2 * digits, text) else {
        return None;
    };
    let squares = Squares::of(number)?;
    Some((Answer::Squares(squares), after(end, b',')?))
}

/// The same of a variance.
pub fn variance_answer(digits: u8, text: &[u8]) -> Option<(Answer, &[u8])>
    requires { digits ≤ 18 }
    ensures { IfSome result (λ read. text.now ≡ part (answer_text digits read.0) ++ read.1.now) }
{
    let Some((p, slash)) = parse_wide(text) else {
        return None;
    };
    let Some((q, end)) = parse_wide(after(slash, b'/')?) else {
        return None;
    };
    let (p, q) = long_unscaled(2 * digits, p, q)?;
    Some((Answer::Variance { p, q }, after(end, b',')?))
}

// The number of units that a text begins with as it is printed, with so many digits behind a point, and what follows
// it.
fn parse_long_units(digits: u8, text: &[u8]) -> Option<(Wide, &[u8])>
    requires { digits ≤ 36 }
    ensures { IfSome result (λ read. text.now ≡ long_units_text digits read.0 ++ read.1.now) }
{
    if digits == 0 {
        return parse_wide(text);
    }
    let Some((front, point)) = parse_wide(text) else {
        return None;
    };
    let fraction = after(point, b'.')?;
    let count = usize::from(digits);
    let last = number_behind(0, count, fraction)?;
    let number = front
        .checked_times(long_power_of_ten(digits))?
        .checked_add(Wide::of(last))?;
    Some((number, &fraction[count..]))
}

// The digits that a text begins with as a number is printed, and what follows them.
fn parse_wide(text: &[u8]) -> Option<(Wide, &[u8])>
    ensures { IfSome result (λ read. text.now ≡ long_decimal read.0 ++ read.1.now) }
{
    match parse_size(text) {
        Some((size, rest)) => Some((Wide::of(size), rest)),
        None => parse_wider(text),
    }
}

// The same, where the number is none of 128 bits.
fn parse_wider(text: &[u8]) -> Option<(Wide, &[u8])>
    ensures { IfSome result (λ read. text.now ≡ long_decimal read.0 ++ read.1.now) }
{
    let (first, rest) = text.split_first()?;
    match digit_of(*first)? {
        0 => None,
        digit => more_of_wide(Wide::of(u128::from(digit)), rest),
    }
}

// The number that begins with the digits of another one, which isn't 0, and goes on with those of a text.
fn more_of_wide(front: Wide, text: &[u8]) -> Option<(Wide, &[u8])>
    requires { 1 ≤ front }
    ensures { IfSome result (λ read. long_decimal front ++ text.now ≡ long_decimal read.0 ++ read.1.now) }
{
    let mut number = front;
    for place in 0..text.len() {
        let Some(digit) = digit_of(text[place]) else {
            return Some((number, &text[place..]));
        };
        number = number
            .checked_times(10)?
            .checked_add(Wide::of(u128::from(digit)))?;
    }
    None
}
