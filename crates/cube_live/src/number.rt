//! Numbers and sources that fields write.
ghost use Rattle.std.specs.Prelude.{◌≡◌, option_and_then};
ghost use Rattle.cube_core.specs.Items.{number_of};
ghost use Rattle.cube_live.specs.Request.{count_of, digits_of, source_of};

use itoa::Buffer;
use std::str;

/// The whole number that a field writes in digits alone, with no leading zero.
pub fn count_of(field: &[u8]) -> Option<u64>
    ensures { result ≡ count_of field.now }
{
    match str::from_utf8(field) {
        Ok(text) => count_in(text),
        Err(_) => None,
    }
}

// The whole number that a text writes in digits alone, with no leading zero.
fn count_in(text: &str) -> Option<u64>
    ensures { result ≡ option_and_then (digits_of text.now) (number_of text.now) }
{
    match number(text) {
        Some(number) => digits_of(text.as_bytes(), number),
        None => None,
    }
}

// The number that a text spells.
fn number(text: &str) -> Option<i64>
    ensures { result ≡ number_of text.now }
{
    text.parse::<i64>().ok()
}

// The whole number that a number is, where a field is its digits.
fn digits_of(field: &[u8], number: i64) -> Option<u64>
    ensures { result ≡ digits_of field.now number }
{
    let Ok(count) = u64::try_from(number) else {
        return None;
    };
    let mut digits = Buffer::new();
    if field == digits.format(count).as_bytes() {
        Some(count)
    } else {
        None
    }
}

/// The source, 1 to 64, that a field names.
pub fn source_of(field: &[u8]) -> Option<u32>
    ensures { result ≡ source_of field.now }
{
    match count_of(field) {
        Some(number) if 0 < number && number < 65 => Some(number as u32),
        _ => None,
    }
}
