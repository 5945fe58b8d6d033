//! A number with digits behind a point, as the whole number of units that it is.
ghost use Rattle.std.specs.Prelude.{◌≡◌, ◌≤◌, ◌<◌, ◌+◌, ◌==◌, drop, take, length, position, IfOk, IfSome, OnOk};
ghost use Rattle.std.specs.Char.{is_ascii_digit};
ghost use Rattle.std.specs.List.{list_all};
ghost use Rattle.std.specs.Str.{all_ascii_digits};
ghost use Rattle.std.specs.Str.Parse.{without_leading_sign};
ghost use Rattle.cube_core.specs.Plain.{in_units, is_decimal_at, is_fraction, is_whole, moved_from, point_at};

use std::alloc::AllocError;

/// A number as the whole number of units that it is, where a measure may have so many digits behind a point; any other
/// field stays. The number lies in the buffer, and what that holds before doesn't matter. The only error is that memory ran
/// out.
pub(crate) fn in_units<'f>(
    digits: Option<u8>,
    point: u8,
    field: &'f [u8],
    units: &'f mut Vec<u8>,
) -> Result<&'f [u8], AllocError>
    ensures { IfOk result (λ plain. plain.now ≡ in_units digits point field.now) }
{
    let Some(digits) = digits else {
        return Ok(field);
    };
    let place = point_at(point, field);
    if !is_decimal_at(digits, place, field) {
        return Ok(field);
    }
    write_moved(digits, place, field, units)?;
    Ok(units.as_slice())
}

// Where a point stands in a field; behind it all where it has none.
fn point_at(point: u8, field: &[u8]) -> usize
    ensures place { result ≡ point_at point field.now }
    ensures inside { result ≤ length field.now }
{
    match find_point(point, field) {
        Some(place) => place,
        None => field.len(),
    }
}

// The place of a field's first point.
fn find_point(point: u8, field: &[u8]) -> Option<usize>
    ensures place { result ≡ position (λ byte. byte == point) field.now }
    ensures inside { IfSome result (λ place. place < length field.now) }
{
    field.iter().position(|byte| *byte == point)
}

// Whether a field is a number with at most so many digits behind a point at this place.
fn is_decimal_at(digits: u8, place: usize, field: &[u8]) -> bool
    requires { place ≤ length field.now }
    ensures { result ≡ is_decimal_at digits place field.now }
{
    is_whole(&field[..place]) && (place == field.len() || is_fraction(digits, behind(place, field)))
}

// What stands behind a place.
fn behind(place: usize, field: &[u8]) -> &[u8]
    requires { place ≤ length field.now }
    ensures { result.now ≡ drop (place + 1) field.now }
{
    if place == field.len() {
        return &[];
    }
    &field[place + 1..]
}

// Whether a text is a sign or none, and then one digit or more.
fn is_whole(text: &[u8]) -> bool
    ensures { result ≡ is_whole text.now }
{
    let digits = without_sign(text);
    !digits.is_empty() && are_digits(digits)
}

fn without_sign(text: &[u8]) -> &[u8]
    ensures { result.now ≡ without_leading_sign text.now }
{
    match text {
        [b'-', digits @ ..] => digits,
        [b'+', digits @ ..] => digits,
        _ => text,
    }
}

fn are_digits(text: &[u8]) -> bool
    ensures { result ≡ all_ascii_digits text.now }
{
    is_each_digit(text)
}

fn is_each_digit(text: &[u8]) -> bool
    ensures { result ≡ list_all is_ascii_digit text.now }
{
    text.iter().all(|byte| byte.is_ascii_digit())
}

// Whether digits may stand behind a point of which so many count: those after them are zeros.
fn is_fraction(digits: u8, text: &[u8]) -> bool
    ensures { result ≡ is_fraction digits text.now }
{
    !text.is_empty() && are_digits(text) && are_zeros(tail_from(usize::from(digits), text))
}

// What a text has from a place on.
pub(crate) fn tail_from(place: usize, text: &[u8]) -> &[u8]
    ensures { result.now ≡ drop place text.now }
{
    if text.len() <= place {
        return &[];
    }
    &text[place..]
}

fn are_zeros(text: &[u8]) -> bool
    ensures { result ≡ list_all (λ digit. digit == 48) text.now }
{
    text.iter().all(|digit| *digit == b'0')
}

// Puts a field, whose point is at a place, in place of what the buffer holds, with the point moved by so many digits.
fn write_moved(
    digits: u8,
    place: usize,
    field: &[u8],
    units: &mut Vec<u8>,
) -> Result<(), AllocError>
    requires { place ≤ length field.now }
    ensures { OnOk result (units.new.items ≡ moved_from digits place field.now) }
{
    let fraction = behind(place, field);
    let wanted = usize::from(digits);
    units.clear();
    units.extend_from_slice(&field[..place])?;
    units.extend_from_slice(first_of(wanted, fraction))?;
    for done in fraction.len()..wanted {
        let _ = done;
        units.push(b'0')?;
    }
    Ok(())
}

// The first so many bytes of a text, or all of it.
fn first_of(wanted: usize, text: &[u8]) -> &[u8]
    ensures { result.now ≡ take wanted text.now }
{
    if text.len() <= wanted {
        return text;
    }
    &text[..wanted]
}
