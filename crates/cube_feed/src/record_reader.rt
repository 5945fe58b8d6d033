//! The records of a text, one after the other, in one buffer.
ghost use Rattle.std.specs.Prelude.{◌≡◌, IfOk, IfErr, OnErr, option_map};
ghost use Rattle.csv.specs.Records.{fields_of};
ghost use Rattle.cube_feed.specs.Reading.{Advances, IsReadingFault, records_by, taken_by, uncounted};

use crate::fault::FeedFault;
use crate::record_source::RecordSource;
use csv::ByteRecord;
use std::alloc::Global;
use std::io::Read;
use std::marker::Model;

/// The records of a text in turn, read as those of a feed are; each takes the place of the one before. A text may be one
/// that has no header.
#[derive(Drop)]
pub struct RecordReader<R: Read> {
    source: RecordSource<R>,
    row: ByteRecord,
    taken: u64,
}

impl<R: Read> Model for RecordReader<R> {
    ghost use Rattle.cube_feed.specs.Reading.{ReaderView};
    ghost use Rattle.csv.specs.Records.{fields_of};

    ghost Value = { ReaderView };

    ghost view = { λ r. record { left = r.source; fields = fields_of r.row; taken = r.taken } };
}

impl<R: Read> RecordReader<R> {
    /// The records of what `reader` gives, whose fields stand apart by `delimiter`; takes no memory and reads nothing.
    ///
    /// What is left are the records of the reader's bytes, where it tells them.
    pub fn new(alloc: Global, reader: R, delimiter: u8) -> RecordReader<R>
        ensures left { result.left ≡ option_map (records_by delimiter) (R.remaining reader) }
        ensures none { result.taken ≡ 0 }
    {
        RecordReader {
            source: RecordSource::new(alloc, reader, delimiter),
            row: ByteRecord::new(alloc),
            taken: 0,
        }
    }

    /// Takes the next record; false where there is none. It is taken as soon as its line end was read.
    ///
    /// The error is `Memory` or `Read`; it takes no record, and none is taken after it.
    pub fn advance(&mut self) -> Result<bool, FeedFault>
        ensures takes { IfOk result (λ found. Advances self.old.left found (uncounted self.new)) }
        ensures counts { IfOk result (λ found. self.new.taken ≡ taken_by self.old.taken found) }
        ensures taken { OnErr result (self.new.taken ≡ self.old.taken) }
        ensures fault { IfErr result IsReadingFault }
    {
        let Some(next) = self.taken.checked_add(1) else {
            return Err(FeedFault::Memory);
        };
        let found = self.source.advance(&mut self.row)?;
        if found {
            self.taken = next;
        }
        Ok(found)
    }

    /// The record that was taken last.
    pub fn fields(&self) -> &ByteRecord
        ensures { fields_of result.now ≡ self.now.fields }
    {
        &self.row
    }
}
