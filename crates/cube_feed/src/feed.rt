//! A feed: the items that its bytes say, one after the other.
ghost use Rattle.std.specs.Prelude.{◌≡◌, ◌≤◌, ◌+◌, None, Some, IfOk, IfErr, IfSome, IfNone, option_map};
ghost use Rattle.csv.specs.Records.{fields_of};
ghost use Rattle.cube_core.specs.Items.{change_of};
ghost use Rattle.cube_core.specs.FeedRecords.{feed_of, plain_of};
ghost use Rattle.cube_feed.specs.FeedText.{TakesRecord};
ghost use Rattle.cube_feed.specs.Reading.{IsReadingFault};
ghost use Rattle.cube_feed.specs.Feed.{HasEnded, Gives, IsNumbered, IsTaken, Numbers, TakesHeader, IsFeed, after_header, ended_of, end_answer, number_after, to_come_of, with_fault};

use crate::columns::find_columns;
use crate::fault::FeedFault;
use crate::feed_text::{FeedText, Found};
use crate::plain::{PlainRecord, change_of_row, is_read_at};
use cube_core::{FoundColumns, Item, Schema};
use std::alloc::Global;
use std::io::Read;
use std::marker::Model;

/// How far a feed has come.
#[derive(Clone, Copy)]
enum Stage {
    /// Nothing was read.
    Start,
    /// The header was read.
    Records,
    /// Nothing is to come: the feed ended well, or by a fault.
    Ended(Option<FeedFault>),
}

/// The text of a feed, where its columns stand, and room for the plain record that a record of it stands for.
#[derive(Drop)]
struct Rows<R: Read> {
    text: FeedText<R>,
    columns: FoundColumns,
    plain: PlainRecord,
}

/// A feed: the changes of one source, read from its bytes as they are asked for.
#[derive(Drop)]
pub struct Feed<'s, R: Read> {
    alloc: Global,
    schema: &'s Schema,
    rows: Rows<R>,
    number: u32,
    stage: Stage,
}

impl<'s, R: Read> Model for Feed<'s, R> {
    ghost use Rattle.cube_feed.specs.Feed.{FeedView, IsFeed, ended_of, to_come_of};

    ghost Value = { FeedView };

    ghost view = { λ f. record {
      schema = f.schema.now;
      number = f.number;
      ended = ended_of f.stage;
      to_come = to_come_of f.schema.now f.rows.columns f.number f.stage f.rows.text.left;
    } };

    ghost invariant = { λ f. IsFeed f.schema.now f.number f.stage };
}

// Takes the next record of a text, which has this number; false where there is none.
fn take_record<R: Read>(text: &mut FeedText<R>, number: u32) -> Result<bool, FeedFault>
    ensures { TakesRecord text.old.left number result text.new }
{
    match text.advance()? {
        Found::Record => Ok(true),
        Found::End => Ok(false),
        Found::OpenQuote => Err(FeedFault::OpenQuote { number }),
        Found::LongRecord => Err(FeedFault::LongRecord { number }),
    }
}

// Reads the header, which says where the columns stand; the answer is whether there is any record.
fn take_header<R: Read>(
    alloc: Global,
    schema: &Schema,
    rows: &mut Rows<R>,
) -> Result<bool, FeedFault>
    ensures { TakesHeader schema.now rows.old.text.left result rows.new.columns rows.new.text.left }
{
    if !take_record(&mut rows.text, 0)? {
        return Ok(false);
    }
    match find_columns(alloc, schema, rows.text.fields()) {
        Ok(Some(columns)) => {
            rows.columns = columns;
            Ok(true)
        }
        Ok(None) => Err(FeedFault::Header),
        Err(_) => Err(FeedFault::Memory),
    }
}

// The item of the record that was taken last, which has this number.
fn item_of<R: Read>(
    alloc: Global,
    schema: &Schema,
    rows: &mut Rows<R>,
    number: u32,
) -> Result<Item, FeedFault>
    ensures number { IfOk result (λ item. item.number ≡ number) }
    ensures what { IfOk result (λ item. item.what
        ≡ change_of schema.now (plain_of schema.now rows.old.columns number rows.old.text.fields)) }
    ensures fault { IfErr result IsReadingFault }
    ensures kept { (rows.new.text ≡ rows.old.text) × (rows.new.columns ≡ rows.old.columns) }
{
    let fields = rows.text.fields();
    match change_of_row(
        alloc,
        schema,
        &rows.columns,
        number,
        fields,
        &mut rows.plain,
    ) {
        Ok(what) => Ok(Item { number, what }),
        Err(_) => Err(FeedFault::Memory),
    }
}

// Reads the records after so many, up to the first that is in the schema's shard, and gives its item.
fn take_item<R: Read>(
    alloc: Global,
    schema: &Schema,
    rows: &mut Rows<R>,
    number: u32,
) -> Result<Option<Item>, FeedFault>
    requires { number ≤ schema.now.max_records }
    ensures gives { Gives (after_header schema.now rows.old.columns number rows.old.text.left) result
        (after_header schema.now rows.new.columns (number_after number result) rows.new.text.left) }
    ensures item { IfOk result (λ next. IfSome next (λ item. IsNumbered schema.now number item.number)) }
    ensures taken { IsTaken schema.now result }
{
    for before in number..schema.max_records() {
        if !take_record(&mut rows.text, before + 1)? {
            return Ok(None);
        }
        if is_read_at(schema, &rows.columns, before + 1, rows.text.fields()) {
            return Ok(Some(item_of(alloc, schema, rows, before + 1)?));
        }
    }
    match rows.text.advance()? {
        Found::End => Ok(None),
        Found::Record | Found::OpenQuote | Found::LongRecord => Err(FeedFault::TooMany),
    }
}

// Reads the next item, after the header where that wasn't read.
fn take_next<R: Read>(
    alloc: Global,
    schema: &Schema,
    rows: &mut Rows<R>,
    number: u32,
    stage: Stage,
) -> Result<Option<Item>, FeedFault>
    requires feed { IsFeed schema.now number stage }
    requires open { ended_of stage ≡ None }
    ensures gives { Gives (to_come_of schema.now rows.old.columns number stage rows.old.text.left) result
        (after_header schema.now rows.new.columns (number_after number result) rows.new.text.left) }
    ensures item { IfOk result (λ next. IfSome next (λ item. IsNumbered schema.now number item.number)) }
    ensures taken { IsTaken schema.now result }
{
    if let Stage::Start = stage {
        if !take_header(alloc, schema, rows)? {
            return Ok(None);
        }
    }
    take_item(alloc, schema, rows, number)
}

impl<'s, R: Read> Feed<'s, R> {
    /// A feed of a schema, from what a reader gives; takes no memory and reads nothing.
    ///
    /// What is to come are the items of the reader's bytes and how they end, where the reader tells its bytes.
    pub fn new(alloc: Global, schema: &'s Schema, reader: R) -> Feed<'s, R>
        ensures schema { result.schema ≡ schema.now }
        ensures number { result.number ≡ 0 }
        ensures open { result.ended ≡ None }
        ensures to_come { result.to_come
            ≡ option_map (λ bytes. with_fault (feed_of schema.now bytes)) (R.remaining reader) }
    {
        Feed {
            alloc,
            schema,
            rows: Rows {
                text: FeedText::new(alloc, schema, reader),
                columns: FoundColumns::InOrder,
                plain: PlainRecord::new(alloc),
            },
            number: 0,
            stage: Stage::Start,
        }
    }

    /// The next item, or `None` after the last one of a good feed. Of a shard of the feed only its records are items, each with
    /// its number in the feed; of another shard's record nothing but its id is looked at.
    ///
    /// A change that an item has is one that the schema takes: no caller need ask again.
    ///
    /// A fault is the feed's last word, and so is `None`: each later call answers it again.
    pub fn next(&mut self) -> Result<Option<Item>, FeedFault>
        ensures gives { Gives self.old.to_come result self.new.to_come }
        ensures taken { IsTaken self.old.schema result }
        ensures numbers { Numbers self.old result self.new }
        ensures done { IfOk result (λ next. IfNone next (HasEnded self.new None)) }
        ensures failed { IfErr result (λ fault. HasEnded self.new (Some fault)) }
        ensures lasting { IfSome self.old.ended (λ end. (result ≡ end_answer end) × (self.new ≡ self.old)) }
        ensures schema { self.new.schema ≡ self.old.schema }
    {
        if let Stage::Ended(end) = self.stage {
            return match end {
                None => Ok(None),
                Some(fault) => Err(fault),
            };
        }
        let next = take_next(
            self.alloc,
            self.schema,
            &mut self.rows,
            self.number,
            self.stage,
        );
        match &next {
            Ok(Some(item)) => {
                self.number = item.number;
                self.stage = Stage::Records;
            }
            Ok(None) => self.stage = Stage::Ended(None),
            Err(fault) => self.stage = Stage::Ended(Some(*fault)),
        }
        next
    }
}
