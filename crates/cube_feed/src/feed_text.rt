//! The text of a feed: its whole records one after the other, and whether it ends within a quoted field or in a record that
//! is too long.
ghost use Rattle.std.specs.Prelude.{◌≡◌, true, false, IfOk, IfErr, is_some, option_map};
ghost use Rattle.csv.specs.Records.{fields_of};
ghost use Rattle.cube_core.specs.Layout.{IsSchema};
ghost use Rattle.cube_core.specs.Plain.{delimiter_of};
ghost use Rattle.cube_feed.specs.FeedText.{TakesNext, bounds_of, end_mark, end_of, ends_in_excess, is_mark, is_marked, left_by, text_of, with_ahead};
ghost use Rattle.cube_feed.specs.Reading.{Advances, IsReadingFault};

use crate::fault::FeedFault;
use crate::feed_bytes::{Bounds, EXCESS_MARK, FeedBytes};
use crate::field::bytes_at;
use crate::place::Place;
use crate::record_source::RecordSource;
use csv::ByteRecord;
use cube_core::Schema;
use std::alloc::Global;
use std::io::Read;
use std::marker::Model;
use std::mem::swap;

/// What came next of a text.
#[derive(Clone, Copy)]
pub(crate) enum Found {
    /// A whole record.
    Record,
    /// Nothing: the text ended outside quotes, or nobody asks how.
    End,
    /// A record that isn't whole, since the text ended within one of its quoted fields.
    OpenQuote,
    /// A record that isn't whole, since it has more bytes than it may.
    LongRecord,
}

/// The records that are read of a feed, and the one that was read ahead.
#[derive(Drop)]
struct Rows<R: Read> {
    source: RecordSource<FeedBytes<R>>,
    row: ByteRecord,
    // The record behind the one that was taken last, where `is_ahead` says that it was read.
    ahead: ByteRecord,
    is_ahead: bool,
}

/// The text of a feed.
///
/// Where columns are known by name, or records have a bound, a line end and a quote are read behind its bytes. Outside quotes
/// they are one record more, of one empty field; within quotes they are a part of the last one. Where a record has too many
/// bytes, the text ends with a byte that is in no text. The reader of records doesn't tell its state, so each record is read
/// before the one in front of it is handed on.
#[derive(Drop)]
pub(crate) struct FeedText<R: Read> {
    rows: Rows<R>,
    is_marked: bool,
}

impl<R: Read> Model for FeedText<R> {
    ghost use Rattle.std.specs.Prelude.{◌≡◌, false};
    ghost use Rattle.csv.specs.Records.{fields_of};
    ghost use Rattle.cube_feed.specs.FeedText.{TextView, left_by, with_ahead};

    ghost Value = { TextView };

    ghost view = { λ t. record {
      left = left_by t.is_marked (with_ahead t.rows.is_ahead (fields_of t.rows.ahead) t.rows.source);
      fields = fields_of t.rows.row;
    } };

    ghost invariant = { λ t. t.is_marked ≡ false → t.rows.is_ahead ≡ false };
}

// Takes the next record of a text that has no mark behind it.
fn advance_to_end<R: Read>(rows: &mut Rows<R>) -> Result<Found, FeedFault>
    ensures takes { IfOk result (λ found.
        TakesNext (left_by false rows.old.source) found
        (record { left = left_by false rows.new.source; fields = fields_of rows.new.row })) }
    ensures fault { IfErr result IsReadingFault }
    ensures kept { rows.new.is_ahead ≡ rows.old.is_ahead }
{
    if rows.source.advance(&mut rows.row)? {
        Ok(Found::Record)
    } else {
        Ok(Found::End)
    }
}

// Reads the first record ahead, where none was; the answer is whether there is one.
fn read_first<R: Read>(rows: &mut Rows<R>) -> Result<bool, FeedFault>
    ensures takes { IfOk result (λ found.
        Advances (with_ahead rows.old.is_ahead (fields_of rows.old.ahead) rows.old.source) found
        (record { left = rows.new.source; fields = fields_of rows.new.ahead })) }
    ensures fault { IfErr result IsReadingFault }
{
    if rows.is_ahead {
        return Ok(true);
    }
    rows.source.advance(&mut rows.ahead)
}

// Takes the next record of a text that has a mark behind it, once the record behind it was read.
fn advance_to_mark<R: Read>(rows: &mut Rows<R>) -> Result<Found, FeedFault>
    ensures takes { IfOk result (λ found.
        TakesNext (left_by true (with_ahead rows.old.is_ahead (fields_of rows.old.ahead) rows.old.source)) found
        (record {
          left = left_by true (with_ahead rows.new.is_ahead (fields_of rows.new.ahead) rows.new.source);
          fields = fields_of rows.new.row;
        })) }
    ensures fault { IfErr result IsReadingFault }
{
    if !read_first(rows)? {
        return Ok(Found::End);
    }
    swap(&mut rows.row, &mut rows.ahead);
    rows.is_ahead = rows.source.advance(&mut rows.ahead)?;
    if rows.is_ahead {
        return Ok(Found::Record);
    }
    Ok(end_of(&rows.row))
}

// How a text ends whose last record is this one, by its mark.
fn end_of(last: &ByteRecord) -> Found
    ensures { result ≡ end_of (fields_of last.now) }
{
    if is_mark(last) {
        Found::End
    } else if ends_in_excess(last) {
        Found::LongRecord
    } else {
        Found::OpenQuote
    }
}

impl<R: Read> FeedText<R> {
    /// The text that a reader gives of a feed of a schema; takes no memory and reads nothing.
    pub(crate) fn new(alloc: Global, schema: &Schema, reader: R) -> FeedText<R>
        ensures { result.left ≡ option_map (text_of schema.now) (R.remaining reader) }
    {
        let is_by_name = reads_by_name(schema);
        let bytes = FeedBytes::new(reader, bounds_of(schema), end_mark(is_by_name));
        FeedText {
            rows: Rows {
                source: RecordSource::new(alloc, bytes, delimiter(schema)),
                row: ByteRecord::new(alloc),
                ahead: ByteRecord::new(alloc),
                is_ahead: false,
            },
            is_marked: is_marked(schema),
        }
    }

    /// Takes the next whole record, where there is one.
    ///
    /// The error is `Memory` or `Read`, and no record is taken after it.
    pub(crate) fn advance(&mut self) -> Result<Found, FeedFault>
        ensures takes { IfOk result (λ found. TakesNext self.old.left found self.new) }
        ensures fault { IfErr result IsReadingFault }
    {
        if self.is_marked {
            advance_to_mark(&mut self.rows)
        } else {
            advance_to_end(&mut self.rows)
        }
    }

    /// The record that was taken last.
    pub(crate) fn fields(&self) -> &ByteRecord
        ensures { fields_of result.now ≡ self.now.fields }
    {
        &self.rows.row
    }
}

// What is read behind the bytes of a feed whose records have no bound.
fn end_mark(is_by_name: bool) -> &'static [u8]
    ensures { result.now ≡ end_mark is_by_name }
{
    if is_by_name { b"\n\"".as_slice() } else { &[] }
}

// Whether a record is what the mark is read as outside quotes.
fn is_mark(row: &ByteRecord) -> bool
    ensures { result ≡ is_mark (fields_of row.now) }
{
    row.len() == 1 && bytes_at(row, 0).is_empty()
}

// Whether the last field of a record ends with the byte that stands in place of one too many.
fn ends_in_excess(row: &ByteRecord) -> bool
    ensures { result ≡ ends_in_excess (fields_of row.now) }
{
    match bytes_at(row, row.len().saturating_sub(1)).last() {
        Some(byte) => *byte == EXCESS_MARK,
        None => false,
    }
}

// The bounds of a schema's feeds of which nothing was read, where their records have any.
fn bounds_of(schema: &Schema) -> Option<Bounds>
    ensures { result ≡ bounds_of schema.now }
{
    let most = schema.max_record_bytes()?;
    Some(Bounds {
        most,
        delimiter: delimiter(schema),
        is_by_name: reads_by_name(schema),
        place: Place::Start,
        count: 0,
    })
}

// Whether a schema reads the columns of its feeds by their names.
fn reads_by_name(schema: &Schema) -> bool
    ensures value { result ≡ is_some schema.now.columns }
    ensures schema { IsSchema schema.now }
{
    schema.columns().is_some()
}

// Whether a mark is read behind the bytes of a schema's feeds.
fn is_marked(schema: &Schema) -> bool
    ensures { result ≡ is_marked schema.now }
{
    reads_by_name(schema) || schema.max_record_bytes().is_some()
}

// The byte between the fields of a schema's feeds.
fn delimiter(schema: &Schema) -> u8
    ensures { result ≡ delimiter_of schema.now }
{
    match schema.columns() {
        None => b',',
        Some(columns) => columns.delimiter,
    }
}
