//! Numbers as fields spell them: a sign or none, one digit or more, and then nothing, or a point and one digit or more.

/// The most decimals that a measure has.
pub(crate) const MOST_DECIMALS: usize = 18;

/// How a field spells a number.
#[derive(Clone, Copy)]
pub(crate) struct Spelling {
    /// How many digits behind the point there are, up to the last that isn't 0.
    pub(crate) decimals: usize,
    /// Whether there is a point.
    pub(crate) has_point: bool,
    /// Whether a zero stands in front of another digit before the point.
    pub(crate) is_padded: bool,
}

/// How a field spells a number whose point is this byte; None where it spells none.
pub(crate) fn spelling_of(field: &[u8], point: u8) -> Option<Spelling> {
    let digits = without_sign(field);
    let (whole, decimals) = match digits.iter().position(|byte| *byte == point) {
        None => (digits, None),
        Some(place) => {
            let (whole, rest) = digits.split_at(place);
            (whole, rest.split_first())
        }
    };
    let is_padded = whole.len() > 1 && whole.first() == Some(&b'0');
    if !are_digits(whole) {
        return None;
    }
    match decimals {
        None => Some(Spelling {
            decimals: 0,
            has_point: false,
            is_padded,
        }),
        Some((_, behind)) => {
            if !are_digits(behind) {
                return None;
            }
            Some(Spelling {
                decimals: needed(behind),
                has_point: true,
                is_padded,
            })
        }
    }
}

/// The value of a field that spells a number, in units of the last of so many decimals: whether it is below 0, and how far it is
/// from 0. None where it has more decimals, or doesn't fit 64 bits.
pub(crate) fn value_of(field: &[u8], point: u8, decimals: usize) -> Option<(bool, u64)> {
    let mut size = 0u64;
    let mut behind: Option<usize> = None;
    for byte in without_sign(field) {
        if *byte == point {
            behind = Some(0);
            continue;
        }
        if behind == Some(decimals) {
            if *byte != b'0' {
                return None;
            }
            continue;
        }
        size = with_digit(size, *byte)?;
        if let Some(count) = behind {
            behind = Some(count.saturating_add(1));
        }
    }
    let size = scaled(size, decimals.saturating_sub(behind.unwrap_or(0)))?;
    signed(field.first() == Some(&b'-'), size)
}

// A size below 0 or not, where it fits 64 bits with its sign.
fn signed(is_below: bool, size: u64) -> Option<(bool, u64)> {
    let most = if is_below {
        1u64 << 63
    } else {
        (1u64 << 63) - 1
    };
    if size > most {
        return None;
    }
    Some((is_below && size > 0, size))
}

// A size with one more digit behind its others.
fn with_digit(size: u64, digit: u8) -> Option<u64> {
    size.checked_mul(10)?
        .checked_add(u64::from(digit.saturating_sub(b'0')))
}

// A size with so many zeros behind it.
fn scaled(size: u64, zeros: usize) -> Option<u64> {
    let mut scaled = size;
    for _ in 0..zeros {
        scaled = scaled.checked_mul(10)?;
    }
    Some(scaled)
}

// What stands behind a sign, or all.
fn without_sign(field: &[u8]) -> &[u8] {
    match field {
        [b'+' | b'-', rest @ ..] => rest,
        _ => field,
    }
}

fn are_digits(bytes: &[u8]) -> bool {
    !bytes.is_empty() && bytes.iter().all(|byte| byte.is_ascii_digit())
}

// How many digits there are up to the last that isn't 0.
fn needed(digits: &[u8]) -> usize {
    let mut needed = 0;
    for (place, byte) in digits.iter().enumerate() {
        if *byte != b'0' {
            needed = place.saturating_add(1);
        }
    }
    needed
}
