//! Reads the spelling of a percentile (SQL:2003, PERCENTILE_DISC).
ghost use Rattle.std.specs.Prelude.{◌≡◌, ◌≢◌, ◌≤◌, ◌<◌, ◌+◌, ◌*◌, ◌^◌, ℕ, List, [], ◌∷◌, ◌++◌, codes, true, ⊤, find, length, MatchOption};
ghost use Rattle.std.specs.Str.{bytes_eq};
ghost use Rattle.cube_core.specs.Layout.{is_level, last_digit, level_text, spelling_of};
ghost use Rattle.cube_core.specs.SchemaDocument.{percentiles_over};

use super::{argument_of, position_of};
use crate::aggregate::Agg;
use crate::text::Text;

/// The most bytes of a level: a digit, a point and four digits.
const LONGEST_LEVEL: usize = 6;

/// The percentile that a text spells.
pub(super) fn percentile_spelled(measures: &[Text], text: &str) -> Option<Agg>
    ensures { result ≡ find (λ agg. bytes_eq text.now (spelling_of measures.now agg))
        (percentiles_over (length measures.now)) }
{
    let argument = argument_of("percentile_disc(", text)?;
    let (level, name) = argument.split_once(',')?;
    let (units, places) = level_in(level)?;
    let measure = position_of(measures, name)?;
    Some(Agg::PercentileDisc {
        measure,
        units,
        places,
    })
}

/// The level of a percentile that a text is: its units, and how many digits stand behind its point.
fn level_in(text: &str) -> Option<(u16, u8)>
    ensures { MatchOption result ((units places : ℕ) → is_level units places ≡ true → level_text places units ≢ text.now)
        (λ level. (is_level level.0 level.1 ≡ true) × (level_text level.1 level.0 ≡ text.now)) }
{
    if text.len() > LONGEST_LEVEL {
        return None;
    }
    let (units, places) = number_of(text.as_bytes())?;
    if units > 10u32.pow(u32::from(places)) {
        return None;
    }
    Some((units as u16, places))
}

/// The number that a text of at most six bytes writes by a digit, or by a digit, a point and digits: its units, and how many
/// digits stand behind the point.
fn number_of(text: &[u8]) -> Option<(u32, u8)>
    requires { length text.now ≤ 6 }
    ensures number { MatchOption result ((units places : ℕ) → level_text places units ≢ text.now)
        (λ number. level_text number.1 number.0 ≡ text.now) }
    ensures range { MatchOption result ⊤ (λ number. (number.0 < 10 * 10 ^ number.1) × (number.1 ≤ 4)) }
{
    let (last, front) = text.split_last()?;
    let digit = digit_of(*last)?;
    if front.is_empty() {
        return Some((digit, 0));
    }
    if let Some(first) = byte_before_point(front) {
        return Some((10 * digit_of(first)? + digit, 1));
    }
    let (units, places) = number_of(front)?;
    if places == 0 {
        return None;
    }
    Some((10 * units + digit, places + 1))
}

/// The byte that stands before a point, where the text is these two.
fn byte_before_point(text: &[u8]) -> Option<u8>
    ensures { MatchOption result ((byte : ℕ) → byte ∷ 46 ∷ [] ≢ text.now) (λ byte. byte ∷ 46 ∷ [] ≡ text.now) }
{
    match text {
        [byte, b'.'] => Some(*byte),
        _ => None,
    }
}

/// The number that a byte is as a digit.
fn digit_of(byte: u8) -> Option<u32>
    ensures { MatchOption result ((number : ℕ) → last_digit number ≢ byte)
        (λ digit. (digit < 10) × (48 + digit ≡ byte)) }
{
    if !byte.is_ascii_digit() {
        return None;
    }
    Some(u32::from(byte - b'0'))
}
