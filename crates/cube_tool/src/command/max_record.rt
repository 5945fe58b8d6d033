//! How many bytes a record of a feed may have.
ghost use Rattle.std.specs.Prelude.{◌≡◌, ◌*◌, IfSome};
ghost use Rattle.cube_core.specs.Layout.{IsRecordBound};
ghost use Rattle.cube_tool.specs.MaxRecord.{before_unit, last_byte, lawful_size, record_bound, size_named, unit_of};

use cube_core::Schema;
use cube_live::count_of;

// The most that a word may name: 2 to the power 40.
const MOST: u64 = 1_099_511_627_776;

// What holds with columns by name, where no word names a number: 2 to the power 20.
const MOST_BY_NAME: u64 = 1_048_576;

/// How many bytes a record may have, as a word names it: digits alone with no leading zero, and then `K`, `M` or `G`, which are
/// 2 to the powers 10, 20 and 30, or nothing; from 1 to 2 to the power 40. None for any other word.
pub fn read_max_record(word: &str) -> Option<u64>
    ensures named { result ≡ size_named word.now }
    ensures lawful { IfSome result IsRecordBound }
{
    size_of(word.as_bytes())
}

/// How many bytes a record of a schema's feeds may have: as many as are named, and where none are 2 to the power 20 with columns
/// by name, and else no bound.
pub fn record_bound(schema: &Schema, named: Option<u64>) -> Option<u64>
    requires { IfSome named IsRecordBound }
    ensures bound { result ≡ record_bound schema.now named }
    ensures lawful { IfSome result IsRecordBound }
{
    match named {
        Some(most) => Some(most),
        None if schema.columns().is_some() => Some(MOST_BY_NAME),
        None => None,
    }
}

// The number of bytes that a word names.
fn size_of(word: &[u8]) -> Option<u64>
    ensures named { result ≡ size_named word.now }
    ensures lawful { IfSome result IsRecordBound }
{
    match count_of(before_unit(word)) {
        Some(count) => lawful_size(count, unit_of(last_byte(word))),
        None => None,
    }
}

// The last byte of a word, 0 where it has none.
fn last_byte(word: &[u8]) -> u8
    ensures { result ≡ last_byte word.now }
{
    match word.last() {
        Some(byte) => *byte,
        None => 0,
    }
}

// How many bytes the unit of a letter has.
fn unit_of(letter: u8) -> u64
    ensures { result ≡ unit_of letter }
{
    match letter {
        b'K' => 1024,
        b'M' => 1_048_576,
        b'G' => 1_073_741_824,
        _ => 1,
    }
}

// What stands before the unit of a word.
fn before_unit(word: &[u8]) -> &[u8]
    ensures { result.now ≡ before_unit word.now }
{
    if unit_of(last_byte(word)) > 1 {
        &word[..word.len().saturating_sub(1)]
    } else {
        word
    }
}

// So many units in bytes, where that is lawful.
fn lawful_size(count: u64, unit: u64) -> Option<u64>
    ensures size { result ≡ lawful_size (count * unit) }
    ensures lawful { IfSome result IsRecordBound }
{
    let bytes = count.checked_mul(unit)?;
    if 1 <= bytes && bytes <= MOST {
        Some(bytes)
    } else {
        None
    }
}
