//! The values of a printed line, with how often each is held, read as it spells them and not otherwise.
ghost use Rattle.std.specs.Prelude.{◌≡◌, ◌++◌, ◌∷◌, [], IfOk, IfSome};
ghost use Rattle.cube_core.specs.Text.{answer_text, held_text, values_text};
ghost use Rattle.cube_lines.specs.Parts.{part};

use crate::parse::{after, parse_count, parse_units};
use cube_core::{Answer, Sequence};
use std::alloc::{AllocError, Global};

/// The answer to values of a measure with so many digits behind its point, and what follows its field; they may stand
/// in any order. The only error is that memory ran out.
pub fn values_answer<'t>(
    alloc: Global,
    digits: u8,
    text: &'t [u8],
) -> Result<Option<(Answer, &'t [u8])>, AllocError>
    ensures { IfOk result (λ found. IfSome found (λ read.
        text.now ≡ part (answer_text digits read.0) ++ read.1.now)) }
{
    let mut held = Vec::new(alloc);
    if let Some(rest) = after(text, b',') {
        return Ok(Some((Answer::Values(Sequence::from_vec(held)), rest)));
    }
    let Some(rest) = parse_values(digits, text, &mut held)? else {
        return Ok(None);
    };
    Ok(Some((Answer::Values(Sequence::from_vec(held)), rest)))
}

// Puts the values that a text begins with, one or more, in place of what the list holds, and gives what follows them
// and a comma.
fn parse_values<'t>(
    digits: u8,
    text: &'t [u8],
    held: &mut Vec<(i64, u64)>,
) -> Result<Option<&'t [u8]>, AllocError>
    ensures { IfOk result (λ found. IfSome found (λ rest.
        text.now ≡ values_text digits held.new.items ++ 44 ∷ rest.now)) }
{
    held.clear();
    let Some((first, mut rest)) = parse_held(digits, text) else {
        return Ok(None);
    };
    held.push(first)?;
    while let Some(next) = after(rest, b' ') {
        let Some((other, behind)) = parse_held(digits, next) else {
            return Ok(None);
        };
        held.push(other)?;
        rest = behind;
    }
    Ok(after(rest, b','))
}

// The value that a text begins with, how often it is held, and what follows.
fn parse_held(digits: u8, text: &[u8]) -> Option<((i64, u64), &[u8])>
    ensures { IfSome result (λ read. text.now ≡ held_text digits read.0 ++ read.1.now) }
{
    let (number, star) = parse_units(digits, text)?;
    let value = i64::try_from(number).ok()?;
    let (count, rest) = parse_count(after(star, b'*')?)?;
    Some(((value, count), rest))
}
