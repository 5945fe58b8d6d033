//! The records of a text, one after the other, each into a row that the caller gives.
ghost use Rattle.std.specs.Prelude.{◌≡◌, IfOk, IfErr, option_map};
ghost use Rattle.csv.specs.Records.{fields_of};
ghost use Rattle.cube_feed.specs.Reading.{Advances, IsReadingFault, records_by};

use crate::fault::FeedFault;
use csv::{ByteRecord, ErrorKind, Reader, ReaderBuilder};
use std::alloc::Global;
use std::io::Read;
use std::marker::Model;

/// The records of a text in turn, read as those of a feed are.
#[derive(Drop)]
pub(crate) struct RecordSource<R: Read> {
    reader: Reader<R>,
}

impl<R: Read> Model for RecordSource<R> {
    ghost use Rattle.std.specs.Prelude.{Option, List, ℕ};
    ghost use Rattle.cube_feed.specs.Reading.{ReadsPlainly, left_of};

    ghost Value = { Option (List (List (List ℕ))) };

    ghost view = { λ s. left_of R.remaining s.reader };

    ghost invariant = { λ s. ReadsPlainly s.reader };
}

impl<R: Read> RecordSource<R> {
    /// The records of what `reader` gives, whose fields stand apart by `delimiter`; takes no memory and reads nothing.
    ///
    /// What is left are the records of the reader's bytes, where it tells them.
    pub(crate) fn new(alloc: Global, reader: R, delimiter: u8) -> RecordSource<R>
        ensures { result ≡ option_map (records_by delimiter) (R.remaining reader) }
    {
        let reader = ReaderBuilder::new()
            .has_headers(false)
            .flexible(true)
            .delimiter(delimiter)
            .from_reader(alloc, reader);
        RecordSource { reader }
    }

    /// Takes the next record into a row; false where there is none. It is taken as soon as its line end was read.
    ///
    /// The error is `Memory` or `Read`, and no record is taken after it.
    pub(crate) fn advance(&mut self, row: &mut ByteRecord) -> Result<bool, FeedFault>
        ensures takes { IfOk result (λ found.
            Advances self.old found (record { left = self.new; fields = fields_of row.new })) }
        ensures fault { IfErr result IsReadingFault }
    {
        match self.reader.read_byte_record(row) {
            Ok(found) => Ok(found),
            Err(error) => match error.kind() {
                ErrorKind::OutOfMemory => Err(FeedFault::Memory),
                _ => Err(FeedFault::Read),
            },
        }
    }
}
