//! The records of a text of CSV, as its bytes come.
ghost use Rattle.std.specs.Prelude.{◌≡◌, ◌++◌, ◌∷◌, [], IfOk, OnOk};
ghost use Rattle.csv.specs.Records.{fields_of, partial_of};
ghost use Rattle.cube_console.specs.Records.{beginning, cleared, ends_record, open_step, plain_step, step};
ghost use Rattle.cube_console.specs.RecordsRead.{IsWhole, Reads, reading_of};

use crate::place::{Place, is_line_end};
use csv::ByteRecord;
use std::alloc::{AllocError, Global};

/// What a byte does in a record.
#[derive(Clone, Copy, PartialEq, Eq, Debug)]
pub(crate) enum Effect {
    /// Nothing: it is a quote around a field, or an empty line's end.
    Skip,
    /// It is a byte of the field.
    Copy,
    /// It ends the field.
    EndField,
    /// It ends the field and the record.
    EndRecord,
}

/// The records of a text of CSV whose bytes come.
#[derive(Drop)]
pub(crate) struct Records {
    place: Place,
    field: Vec<u8>,
    row: ByteRecord,
}

impl Records {
    /// The records of a text that begins.
    pub(crate) fn new(alloc: Global) -> Records
        ensures whole { IsWhole result }
        ensures reading { reading_of result ≡ beginning }
    {
        Records {
            place: Place::Record,
            field: Vec::new(alloc),
            row: ByteRecord::new(alloc),
        }
    }

    /// Takes the next byte of the text, and says whether it ends a record, whose fields are then there until they are
    /// cleared. The only error is that memory ran out.
    pub(crate) fn take(&mut self, byte: u8) -> Result<bool, AllocError>
        ensures reads { IsWhole self.old → OnOk result (Reads self.old self.new byte) }
        ensures ends { IfOk result (λ is_end. is_end ≡ ends_record (reading_of self.old) byte) }
    {
        let (place, effect) = step(self.place, byte);
        self.place = place;
        match effect {
            Effect::Skip => Ok(false),
            Effect::Copy => {
                self.field.push(byte)?;
                Ok(false)
            }
            Effect::EndField => {
                self.end_field()?;
                Ok(false)
            }
            Effect::EndRecord => {
                self.end_field()?;
                Ok(true)
            }
        }
    }

    // Puts the field at the end of the record.
    fn end_field(&mut self) -> Result<(), AllocError>
        ensures place { self.new.place ≡ self.old.place }
        ensures field { OnOk result (self.new.field.items ≡ []) }
        ensures row { OnOk result (fields_of self.new.row
            ≡ fields_of self.old.row ++ (partial_of self.old.row ++ self.old.field.items) ∷ []) }
        ensures whole { OnOk result (IsWhole self.new) }
    {
        self.row.push_field(self.field.as_slice())?;
        self.field.clear();
        Ok(())
    }

    /// The fields of the record that have ended.
    pub(crate) fn row(&self) -> &ByteRecord
        ensures { result.now ≡ self.now.row }
    {
        &self.row
    }

    /// Begins the next record.
    pub(crate) fn clear(&mut self)
        ensures whole { IsWhole self.new }
        ensures reading { reading_of self.new ≡ cleared (reading_of self.old) }
    {
        self.row.clear();
    }
}

// Where a text stands behind a byte at a place, and what the byte does.
fn step(place: Place, byte: u8) -> (Place, Effect)
    ensures { result ≡ step place byte }
{
    match place {
        Place::Record => {
            if is_line_end(byte) {
                (Place::Record, Effect::Skip)
            } else {
                open_step(byte)
            }
        }
        Place::Field => open_step(byte),
        Place::Plain => plain_step(byte),
        Place::Quoted => {
            if byte == b'"' {
                (Place::Quote, Effect::Skip)
            } else {
                (Place::Quoted, Effect::Copy)
            }
        }
        Place::Quote => {
            if byte == b'"' {
                (Place::Quoted, Effect::Copy)
            } else {
                plain_step(byte)
            }
        }
    }
}

// The same of a byte that may begin a quoted field.
fn open_step(byte: u8) -> (Place, Effect)
    ensures { result ≡ open_step byte }
{
    if byte == b'"' {
        (Place::Quoted, Effect::Skip)
    } else {
        plain_step(byte)
    }
}

// The same of a byte that is in no quotes and begins none.
fn plain_step(byte: u8) -> (Place, Effect)
    ensures { result ≡ plain_step byte }
{
    if byte == b',' {
        (Place::Field, Effect::EndField)
    } else if is_line_end(byte) {
        (Place::Record, Effect::EndRecord)
    } else {
        (Place::Plain, Effect::Copy)
    }
}
