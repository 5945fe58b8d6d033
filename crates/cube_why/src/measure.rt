//! The fields of measures that are no numbers, and what they may be meant as.
use std::str;

/// What the field of a measure that is no number may be meant as.
#[derive(Clone, Copy, PartialEq, Eq, Debug)]
pub(crate) enum Meant {
    /// A value that isn't there.
    Missing,
    /// A number with a comma before its decimals where the schema has a point, or the other way round.
    OtherPoint,
    /// A number with marks between its thousands.
    Thousands,
    /// A number with a point, where the measure has no decimals, or more decimals than it has.
    Decimals,
    /// A number with a power of ten, as `1e3`.
    Exponent,
    /// A number that is too large or too small.
    Large,
    /// A number with something before or behind it, as a space, a currency or a unit.
    Dressed,
    /// None of these.
    Unknown,
}

/// The words for a value that isn't there, as files have them.
const MISSING: [&[u8]; 8] = [b"", b"NA", b"N/A", b"NaN", b"nan", b"NULL", b"null", b"-"];

/// Whether a field is a number with at most so many digits behind a point, or a whole one, that fits 64 bits in units of the
/// last digit, but that zeros at its end may be more.
pub(crate) fn is_number(field: &[u8], digits: Option<u8>, point: u8) -> bool {
    match digits {
        Some(digits) => {
            let (whole, decimals) = parts_of(field, point);
            has_form(field, digits, point) && fits(whole, decimals, digits)
        }
        None => is_whole(field),
    }
}

// Whether a field is a sign or none, digits, and maybe a point and digits, of which those past so many are zeros.
fn has_form(field: &[u8], digits: u8, point: u8) -> bool {
    let (whole, decimals) = parts_of(field, point);
    are_digits(without_sign(whole)) && are_digits(decimals) && zeros_behind(decimals, digits)
}

// What stands before a point in a field, and what behind it; a zero where there is none.
fn parts_of(field: &[u8], point: u8) -> (&[u8], &[u8]) {
    match place_of(field, point) {
        Some(place) => (
            field.get(..place).unwrap_or(b""),
            field.get(place.saturating_add(1)..).unwrap_or(b""),
        ),
        None => (field, b"0"),
    }
}

fn without_sign(field: &[u8]) -> &[u8] {
    match field {
        [b'+' | b'-', rest @ ..] => rest,
        _ => field,
    }
}

// Whether a field is a sign or none, digits, and in the range of 64 bits.
fn is_whole(field: &[u8]) -> bool {
    whole_of(field).is_some()
}

fn whole_of(field: &[u8]) -> Option<i64> {
    str::from_utf8(field).ok()?.parse::<i64>().ok()
}

// Whether a number fits 64 bits in units of the last of so many digits.
fn fits(whole: &[u8], decimals: &[u8], digits: u8) -> bool {
    let Some(mut units) = whole_of(whole) else {
        return false;
    };
    let is_below = whole.first() == Some(&b'-');
    for place in 0..digits as usize {
        let digit = decimals
            .get(place)
            .map_or(0, |byte| i64::from(*byte))
            .saturating_sub(48)
            .max(0);
        let Some(tens) = units.checked_mul(10) else {
            return false;
        };
        let sum = if is_below {
            tens.checked_sub(digit)
        } else {
            tens.checked_add(digit)
        };
        let Some(sum) = sum else {
            return false;
        };
        units = sum;
    }
    true
}

// Whether bytes are digits, one at least.
fn are_digits(bytes: &[u8]) -> bool {
    !bytes.is_empty() && bytes.iter().all(|byte| byte.is_ascii_digit())
}

// Whether all digits past so many are zeros.
fn zeros_behind(decimals: &[u8], digits: u8) -> bool {
    decimals
        .iter()
        .skip(digits as usize)
        .all(|byte| *byte == b'0')
}

// The first place of a byte.
fn place_of(field: &[u8], wanted: u8) -> Option<usize> {
    field.iter().position(|byte| *byte == wanted)
}

/// How many digits stand behind the point of a field, without zeros at the end, but for the first.
pub(crate) fn digits_behind(field: &[u8], point: u8) -> u64 {
    let (_, decimals) = parts_of(field, point);
    let mut count = 1u64;
    let mut place = 0u64;
    for byte in decimals {
        place = place.saturating_add(1);
        if *byte != b'0' {
            count = place;
        }
    }
    count
}

/// What the field of a measure with so many digits behind a point that is no number may be meant as, where `point` stands before
/// decimals.
pub(crate) fn meant_by(field: &[u8], digits: Option<u8>, point: u8) -> Meant {
    if MISSING.iter().any(|word| *word == field) {
        return Meant::Missing;
    }
    if are_digits(without_sign(field))
        || has_form(field, digits.unwrap_or(0), point) && digits.is_some()
    {
        return Meant::Large;
    }
    if has_form(field, 18, point) {
        return Meant::Decimals;
    }
    if has_thousands(field) {
        return Meant::Thousands;
    }
    if has_form(field, 18, other_point(point)) {
        return Meant::OtherPoint;
    }
    meant_by_parts(field, point)
}

// The same of a field that is no number with any point.
fn meant_by_parts(field: &[u8], point: u8) -> Meant {
    let middle = from_first_digit(field);
    if has_exponent(middle) {
        return Meant::Exponent;
    }
    if has_form(middle, 255, point) || has_form(middle, 255, other_point(point)) {
        return Meant::Dressed;
    }
    Meant::Unknown
}

// What stands from the first digit of a field to its last.
fn from_first_digit(field: &[u8]) -> &[u8] {
    let Some(first) = field.iter().position(|byte| byte.is_ascii_digit()) else {
        return b"";
    };
    let Some(last) = field.iter().rposition(|byte| byte.is_ascii_digit()) else {
        return b"";
    };
    field.get(first..last.saturating_add(1)).unwrap_or(b"")
}

// Whether bytes have an `e` and are else what stands in a number.
fn has_exponent(bytes: &[u8]) -> bool {
    let count = bytes
        .iter()
        .filter(|byte| matches!(**byte, b'e' | b'E'))
        .count();
    count == 1 && bytes.iter().all(|byte| is_of_exponent(*byte))
}

fn is_of_exponent(byte: u8) -> bool {
    byte.is_ascii_digit() || matches!(byte, b'e' | b'E' | b'+' | b'-' | b'.' | b',')
}

// The point that isn't this one.
fn other_point(point: u8) -> u8 {
    if point == b',' { b'.' } else { b',' }
}

// Whether a field is digits with a mark before each last three of them, and maybe another mark and digits behind.
fn has_thousands(field: &[u8]) -> bool {
    let mut run = 0u32;
    let mut marks = 0u32;
    for byte in without_sign(field) {
        if byte.is_ascii_digit() {
            run = run.saturating_add(1);
        } else if is_mark(*byte) && is_run(run, marks) {
            marks = marks.saturating_add(1);
            run = 0;
        } else {
            return false;
        }
    }
    marks > 1 || (marks == 1 && run == 3)
}

// Whether so many digits may stand before a mark, behind so many marks.
fn is_run(run: u32, marks: u32) -> bool {
    run == 3 || (marks == 0 && 0 < run && run < 3)
}

// Whether a byte stands between thousands.
fn is_mark(byte: u8) -> bool {
    matches!(byte, b',' | b'.' | b' ' | b'\'' | b'_')
}
