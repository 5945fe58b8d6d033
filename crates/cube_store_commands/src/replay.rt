//! The changes of a store, taken before a session's first record.
ghost use Rattle.std.specs.Prelude.{◌≡◌, ◌++◌, ◌∷◌, [], ℕ, List, None, IfOk, OnOk};
ghost use Rattle.std.specs.Bool.{OnTrue};
ghost use Rattle.csv.specs.Records.{fields_of};
ghost use Rattle.cube_store_commands.specs.Pieces.{MayBegin};
ghost use Rattle.cube_store_commands.specs.Records.{fields_in};

use crate::plain::{is_plain, read_pieces};
use csv::ByteRecord;
use cube_feed::{RecordReader, change_of_record, is_read, put_rest};
use cube_live::{Live, LiveFault};
use cube_store::ChangeSink;
use std::alloc::{AllocError, Global};
use std::marker::Model;

/// A cube that takes the changes of a store, each as the session took it that stored it, without a journal.
///
/// Where one follows the last record that the schema takes of its source, as after a session of another shard, neither it
/// nor one behind it is taken.
#[derive(Drop)]
pub struct Replay<'s> {
    alloc: Global,
    live: Live<'s>,
    // The fields of the change that is taken, and those behind its source.
    fields: ByteRecord,
    rest: ByteRecord,
    // The source of the first change that followed the last one.
    over: Option<u32>,
}

impl<'s> Model for Replay<'s> {
    ghost use Rattle.cube_store_commands.specs.Replay.{ReplayView};

    ghost Value = { ReplayView };

    ghost view = { λ r. record { live = r.live; over = r.over } };
}

impl<'s> Replay<'s> {
    /// What is to take changes into this cube.
    pub fn new(alloc: Global, live: Live<'s>) -> Replay<'s>
        ensures live { result.live ≡ live.entry }
        ensures over { result.over ≡ None }
    {
        Replay {
            alloc,
            live,
            fields: ByteRecord::new(alloc),
            rest: ByteRecord::new(alloc),
            over: None,
        }
    }

    /// The source of the first change that followed the last record that the schema takes of it, if there was one.
    pub fn over(&self) -> Option<u32>
        ensures { result ≡ self.now.over }
    {
        self.over
    }

    /// The cube.
    pub fn into_live(self) -> Live<'s>
        ensures { result ≡ self.entry.live }
    {
        let Replay { live, .. } = self;
        live
    }
}

// Takes the fields of the record in a stored text: the pieces between its commas where it begins as a change does and calls
// for no quotes, without a reader, which costs much more. The only error is that memory ran out.
fn read_stored(alloc: Global, text: &[u8], fields: &mut ByteRecord) -> Result<(), AllocError>
    ensures { OnOk result (fields_of fields.new ≡ fields_in text.now) }
{
    if may_begin(text) && is_plain(text) {
        return read_pieces(text, fields);
    }
    read_quoted(alloc, text, fields)
}

// Whether a text begins with what is no comma, and no byte order mark.
fn may_begin(text: &[u8]) -> bool
    ensures { OnTrue result ((b : ℕ) × (more : List ℕ) × (text.now ≡ b ∷ more) × MayBegin b) }
{
    match text.first() {
        Some(first) => *first != b',' && *first != 0xEF,
        None => false,
    }
}

// Takes the fields of the record in a stored text as a reader reads them. The only error is that memory ran out.
fn read_quoted(alloc: Global, text: &[u8], fields: &mut ByteRecord) -> Result<(), AllocError>
    ensures { OnOk result (fields_of fields.new ≡ fields_in text.now) }
{
    let mut line = Vec::with_capacity(alloc, 1)?;
    line.extend_from_slice(text)?;
    line.push(b'\n')?;
    let mut records = RecordReader::new(alloc, line.as_slice(), b',');
    fields.clear();
    match records.advance() {
        Ok(true) => put_rest(records.fields(), 0, fields),
        Ok(false) => Ok(()),
        Err(_) => Err(AllocError),
    }
}

impl<'s> ChangeSink for Replay<'s> {
    ghost use Rattle.cube_store_commands.specs.Replay.{TakesWithin};

    ghost takes = { TakesWithin };

    fn take(&mut self, source: u32, content: &[u8]) -> Result<(), AllocError> {
        if self.over.is_some() {
            return Ok(());
        }
        if source < 1 || source > 64 {
            return Err(AllocError);
        }
        read_stored(self.alloc, content, &mut self.fields)?;
        put_rest(&self.fields, 1, &mut self.rest)?;
        if !is_read(self.live.schema(), &self.rest) {
            return Ok(());
        }
        let what = change_of_record(self.alloc, self.live.schema(), &self.rest)?;
        match self.live.apply(source, what) {
            Ok(()) => Ok(()),
            Err(LiveFault::TooMany) => {
                self.over = Some(source);
                Ok(())
            }
            Err(LiveFault::Memory) => Err(AllocError),
        }
    }
}
