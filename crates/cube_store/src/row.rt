//! The row of a change, or of a note on a feed: its number, NULL for the column of the INTEGER
//! PRIMARY KEY, a number and bytes.
ghost use Rattle.std.specs.Prelude.{◌≡◌, ◌↔◌, ◌<◌, ◌^◌, ℕ, take, IsTrue, IfSome, OnOk};
ghost use Rattle.std.specs.Option.{IfNone};
ghost use Rattle.sqlite_value.specs.Order.{column, bytes};
ghost use Rattle.sqlite_value.specs.declared.value.Value.TheVariants.{Blob};
ghost use Rattle.sqlite_value.specs.Value.{owned};
ghost use Rattle.cube_store.specs.Rows.{Entry, row_of, IsOfSource, change_row, IsRowOf, entry_of};
ghost use Rattle.cube_store.specs.Reading.{value_count};

use crate::form::{DIGEST_BYTES, RowForm};
use crate::note::FeedNote;
use sqlite_trees::sound::bytes_of;
use sqlite_value::row::Row;
use sqlite_value::value::ValueRef;
use std::alloc::AllocError;

/// Writes the row with this number over `row`.
pub fn fill(row: &mut Row, number: u64, value: u64, content: &[u8]) -> Result<(), AllocError>
    requires number { number < 2 ^ 63 }
    requires value { value < 2 ^ 63 }
    ensures { OnOk result (row.new ≡ row_of number (value, content.now)) }
{
    row.clear();
    row.push(ValueRef::Int(number as i64))?;
    row.push(ValueRef::Null)?;
    row.push(ValueRef::Int(value as i64))?;
    row.push(ValueRef::Blob(content))
}

/// Writes the row of the change with this number over `row`. It ends in this digest where rows have
/// one.
pub fn fill_change(
    row: &mut Row,
    form: RowForm,
    digest: &[u8; DIGEST_BYTES],
    number: u64,
    source: u32,
    content: &[u8],
) -> Result<(), AllocError>
    requires { number < 2 ^ 63 }
    ensures { OnOk result (row.new ≡ change_row form digest.now number (source, content.now)) }
{
    fill(row, number, u64::from(source), content)?;
    match form {
        RowForm::Plain => Ok(()),
        RowForm::Chained => row.push(ValueRef::Blob(digest.as_slice())),
    }
}

/// The number in a row beside its own, if its first four values are this number, NULL, a number and
/// bytes.
fn head_value(row: &Row, number: u64) -> Option<u64>
    requires { number < 2 ^ 63 }
    ensures some { IfSome result
        (λ value. take 4 row.now ≡ row_of number (value, bytes (column row.now 3))) }
    ensures none { IfNone result ((entry : Entry) → take 4 row.now ≡ row_of number entry → ⊥) }
{
    let ValueRef::Int(id) = row.get(0) else {
        return None;
    };
    let ValueRef::Null = row.get(1) else {
        return None;
    };
    let ValueRef::Int(value) = row.get(2) else {
        return None;
    };
    let ValueRef::Blob(_content) = row.get(3) else {
        return None;
    };
    if id != number as i64 || value < 0 {
        return None;
    }
    Some(value as u64)
}

/// The number in a row beside its own, if the row is one with this number, a number and bytes, and
/// nothing else.
fn value_at(row: &Row, number: u64) -> Option<u64>
    requires { number < 2 ^ 63 }
    ensures some { IfSome result
        (λ value. row.now ≡ row_of number (value, bytes (column row.now 3))) }
    ensures none { IfNone result ((entry : Entry) → row.now ≡ row_of number entry → ⊥) }
{
    if row.len() != 4 {
        return None;
    }
    head_value(row, number)
}

/// How many values the row of a change has.
fn value_count(form: RowForm) -> usize
    ensures { result ≡ value_count form }
{
    match form {
        RowForm::Plain => 4,
        RowForm::Chained => 5,
    }
}

/// The source of the change in a row, if it is the row of a change with this number, whatever its
/// digest says.
pub fn source_at(row: &Row, form: RowForm, number: u64) -> Option<u32>
    requires { number < 2 ^ 63 }
    ensures source { IfSome result (λ source. IsOfSource (source, bytes (column row.now 3))) }
    ensures some { IfSome result
        (λ source. IsRowOf form number (source, bytes (column row.now 3)) row.now) }
    ensures none { IfNone result
        ((change : Entry) → IsOfSource change → IsRowOf form number change row.now → ⊥) }
{
    if row.len() != value_count(form) {
        return None;
    }
    let Some(value) = head_value(row, number) else {
        return None;
    };
    if value < 1 || value > 64 {
        return None;
    }
    Some(value as u32)
}

/// Whether the row of a change ends in this digest, where rows have one.
pub fn ends_in(row: &Row, form: RowForm, digest: &[u8; DIGEST_BYTES]) -> bool
    ensures { (number : ℕ) → (change : Entry) → IsRowOf form number change row.now
        → (IsTrue result ↔ (row.now ≡ change_row form digest.now number change)) }
{
    match form {
        RowForm::Plain => true,
        RowForm::Chained => is_blob(row.get(4), digest.as_slice()),
    }
}

/// Whether a value is these bytes.
fn is_blob(value: ValueRef<'_>, bytes: &[u8]) -> bool
    ensures { IsTrue result ↔ (owned value.entry ≡ Blob bytes.now) }
{
    match value {
        ValueRef::Blob(content) => content == bytes,
        _ => false,
    }
}

/// Whether this is the row of the note with this number.
pub fn is_note(row: &Row, number: u64, note: &FeedNote) -> bool
    requires { number < 2 ^ 63 }
    ensures { IsTrue result ↔ (row.now ≡ row_of number (entry_of note.now)) }
{
    match value_at(row, number) {
        Some(length) => { length == note.length && bytes_of(row.get(3)) == note.digest.as_slice() }
        None => false,
    }
}
