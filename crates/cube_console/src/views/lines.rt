//! The lines of JSON that a printed cube makes as its bytes come.
ghost use Rattle.std.specs.Prelude.{◌≡◌, ◌≤◌, ◌++◌, ◌∷◌, [], length, take, IfOk, OnOk};
ghost use Rattle.csv.specs.Records.{fields_of};
ghost use Rattle.cube_console.specs.Records.{cleared};
ghost use Rattle.cube_console.specs.RecordsRead.{IsWhole, reading_of};
ghost use Rattle.cube_console.specs.JsonLines.{columns_after, line_of};
ghost use Rattle.cube_console.specs.JsonLinesMade.{Begins, Makes, columns_in, making_of};

use crate::views::json::{Column, columns_of, push_line};
use crate::views::records::Records;
use std::alloc::{AllocError, Global};

/// The lines of JSON of a printed cube whose bytes come.
#[derive(Drop)]
pub(crate) struct JsonLines {
    alloc: Global,
    dimensions: usize,
    records: Records,
    columns: Option<Vec<Column>>,
    ready: Vec<u8>,
}

impl JsonLines {
    /// The lines of a cube with so many dimensions, of which no byte has come.
    pub(crate) fn new(alloc: Global, dimensions: usize) -> JsonLines
        ensures { Begins dimensions result }
    {
        JsonLines {
            alloc,
            dimensions,
            records: Records::new(alloc),
            columns: None,
            ready: Vec::new(alloc),
        }
    }

    /// The lines that are ready.
    pub(crate) fn ready(&self) -> &[u8]
        ensures { result.now ≡ self.now.ready.items }
    {
        &self.ready
    }

    /// Forgets the lines that are ready: they are written.
    pub(crate) fn forget(&mut self)
        ensures ready { self.new.ready.items ≡ [] }
        ensures whole { IsWhole self.old.records → IsWhole self.new.records }
        ensures making { making_of self.new ≡ making_of self.old }
        ensures dimensions { self.new.dimensions ≡ self.old.dimensions }
    {
        self.ready.clear();
    }

    /// Takes bytes up to the end of a record, or all; and how many. The only error is that memory ran out.
    pub(crate) fn take_record(&mut self, bytes: &[u8]) -> Result<usize, AllocError>
        ensures within { IfOk result (λ count. count ≤ length bytes.now) }
        ensures makes { IsWhole self.old.records →
            IfOk result (λ count. Makes self.old self.new (take count bytes.now)) }
    {
        for (place, byte) in bytes.iter().enumerate() {
            if self.take_byte(*byte)? {
                return Ok(place + 1);
            }
        }
        Ok(bytes.len())
    }

    // Takes a byte, and says whether it ends a record.
    fn take_byte(&mut self, byte: u8) -> Result<bool, AllocError>
        ensures { IsWhole self.old.records → OnOk result (Makes self.old self.new (byte ∷ [])) }
    {
        if !self.records.take(byte)? {
            return Ok(false);
        }
        self.end_record()?;
        Ok(true)
    }

    // Takes the record that is whole: the header, or a row.
    fn end_record(&mut self) -> Result<(), AllocError>
        ensures whole { OnOk result (IsWhole self.new.records) }
        ensures reading { OnOk result
            (reading_of self.new.records ≡ cleared (reading_of self.old.records)) }
        ensures columns { OnOk result (columns_in self.new
            ≡ columns_after self.old.dimensions (columns_in self.old) (fields_of self.old.records.row)) }
        ensures ready { OnOk result (self.new.ready.items ≡ self.old.ready.items
            ++ line_of (columns_in self.old) (fields_of self.old.records.row)) }
        ensures dimensions { self.new.dimensions ≡ self.old.dimensions }
    {
        match &self.columns {
            Some(columns) => push_line(&mut self.ready, columns, self.records.row())?,
            None => {
                let columns = columns_of(self.alloc, self.dimensions, self.records.row())?;
                self.columns = Some(columns);
            }
        }
        self.records.clear();
        Ok(())
    }
}
