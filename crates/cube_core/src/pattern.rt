//! Patterns of keys, and the words that spell them.
ghost use Rattle.std.specs.Prelude.{◌≡◌, IfOk, option_map};
ghost use Rattle.std.specs.Option.{ok_or};
ghost use Rattle.csv.specs.Records.{fields_of};
ghost use Rattle.cube_core.specs.Records.{records_of};
ghost use Rattle.cube_core.specs.Query.{Says, wanted_by, spelled_by, named_by, only_one, pattern_of, cell_of, is_wanted, all_wanted, matches};
ghost use Rattle.cube_core.specs.declared.query.QueryFault.TheVariants as fault;

mod fields;

use crate::key::{Coord, Key, copy_coord};
use crate::query::QueryFault;
use crate::schema::Schema;
use crate::sequence::Sequence;
use crate::text::Text;
use csv::{ByteRecord, ReaderBuilder};
use std::alloc::{AllocError, Global};
use std::marker::Model;
use std::str;

/// What a query asks of keys: for each dimension a coordinate, or any.
#[derive(Debug, Drop)]
pub struct Pattern {
    wanted: Vec<Option<Coord>>,
}

impl Model for Pattern {
    ghost use Rattle.cube_core.specs.Query.{Wanted};

    ghost Value = { Wanted };

    ghost view = { λ p. p.wanted.items };
}

impl Pattern {
    /// The pattern that a word spells: one CSV record (RFC 4180), with one field for each dimension, which is `?`
    /// for any coordinate, `\A` for ALL, `\N` for null, or `=` followed by a text, perhaps empty (this project's
    /// choice). Blank lines and a line end round the record change nothing.
    ///
    /// The error is `Fields` where the word isn't such a record, `Field` where it is and one of its fields has none
    /// of the four forms, or `Memory`, which says nothing of the word.
    pub fn parse(alloc: Global, schema: &Schema, word: &str) -> Result<Pattern, QueryFault>
        ensures { Says (pattern_of schema.now word.now) result }
    {
        let Some(record) = only_record(alloc, word.as_bytes())? else {
            return Err(QueryFault::Fields);
        };
        if record.len() != schema.number_of_dimensions() {
            return Err(QueryFault::Fields);
        }
        spelled_by(alloc, &record)
    }

    /// What is wanted in each dimension: a coordinate, or any where there is none.
    pub fn wanted(&self) -> &[Option<Coord>]
        ensures { result.now ≡ self.now }
    {
        self.wanted.as_slice()
    }

    /// The key that the pattern is, where it leaves no dimension open.
    ///
    /// The error is `NotCell`, where a field is `?`, or `Memory`, which says nothing of the pattern.
    pub fn cell(&self, alloc: Global) -> Result<Key, QueryFault>
        ensures { Says (cell_of self.now) result }
    {
        let mut coords = Vec::with_capacity(alloc, self.wanted.len())?;
        for wanted in &self.wanted {
            let Some(coord) = wanted else {
                return Err(QueryFault::NotCell);
            };
            coords.push(copy_coord(alloc, coord)?)?;
        }
        Ok(Key {
            coords: Sequence::from_vec(coords),
        })
    }

    /// Whether a key has as many coordinates as the pattern has fields, and each is the one that its field wants;
    /// `?` takes ALL and null too. Takes no memory.
    pub fn matches(&self, key: &Key) -> bool
        ensures { result ≡ matches self.now key.now }
    {
        all_wanted(&self.wanted, key.coords.as_slice())
    }
}

/// The record of a text that has exactly one; the only error is that memory ran out.
pub fn only_record(alloc: Global, text: &[u8]) -> Result<Option<ByteRecord>, AllocError>
    ensures { IfOk result (λ found. option_map fields_of found ≡ only_one (records_of text.now)) }
{
    let mut reader = ReaderBuilder::new()
        .has_headers(false)
        .flexible(true)
        .from_reader(alloc, text);
    let mut record = ByteRecord::new(alloc);
    // A reader of bytes in memory fails because memory ran out alone.
    let Ok(found) = reader.read_byte_record(&mut record) else {
        return Err(AllocError);
    };
    let mut next = ByteRecord::new(alloc);
    let Ok(more) = reader.read_byte_record(&mut next) else {
        return Err(AllocError);
    };
    Ok((found & !more).then_some(record))
}

/// What the fields of a record want; the error is `Field` where one has none of the four forms, or `Memory`.
fn spelled_by(alloc: Global, fields: &ByteRecord) -> Result<Pattern, QueryFault>
    ensures { Says (spelled_by (fields_of fields.now)) result }
{
    let mut wanted = Vec::with_capacity(alloc, fields.len())?;
    for field in fields {
        wanted.push(wanted_by(alloc, field)?)?;
    }
    Ok(Pattern { wanted })
}

/// What a field wants; the error is `Field` where it has none of the four forms, or `Memory`.
fn wanted_by(alloc: Global, field: &[u8]) -> Result<Option<Coord>, QueryFault>
    ensures { Says (ok_or (wanted_by field.now) fault.Field) result }
{
    if field == b"?".as_slice() {
        return Ok(None);
    }
    if field == b"\\A".as_slice() {
        return Ok(Some(Coord::All));
    }
    if field == b"\\N".as_slice() {
        return Ok(Some(Coord::Null));
    }
    let Some(text) = named_by(field) else {
        return Err(QueryFault::Field);
    };
    let text = Text::from_str(alloc, text)?;
    Ok(Some(Coord::Text(text)))
}

/// The text that follows `=` in a field.
fn named_by(field: &[u8]) -> Option<&str>
    ensures { option_map (λ text. text.now) result ≡ named_by field.now }
{
    let (first, text) = field.split_first()?;
    if *first != b'=' {
        return None;
    }
    match str::from_utf8(text) {
        Ok(text) => Some(text),
        Err(_) => None,
    }
}

fn all_wanted(pattern: &[Option<Coord>], coords: &[Coord]) -> bool
    ensures { result ≡ all_wanted pattern.now coords.now }
{
    let Some((wanted, other_wanted)) = pattern.split_first() else {
        return coords.is_empty();
    };
    let Some((coord, other_coords)) = coords.split_first() else {
        return false;
    };
    is_wanted(wanted, coord) && all_wanted(other_wanted, other_coords)
}

fn is_wanted(wanted: &Option<Coord>, coord: &Coord) -> bool
    ensures { result ≡ is_wanted wanted.now coord.now }
{
    match wanted {
        None => true,
        Some(wanted) => wanted == coord,
    }
}
