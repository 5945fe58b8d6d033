//! The bytes of a feed, none of whose records goes on for longer than it may, and a mark behind them that tells how they end.
ghost use Rattle.std.specs.Prelude.{◌≡◌, ◌<◌, ◌≤◌, ◌+◌, ◌-◌, true, [], count_by, get_or, length, nat_eq, option_map};
ghost use Rattle.cube_feed.specs.FeedBytes.{IsSkipped, Passes, begun_at, bounded_by, bytes_left, mark_at, read_on};

use crate::place::Place;
use std::io::{Read, Result};

/// What is read in place of a byte that is too many in its record.
pub(crate) const EXCESS_MARK: u8 = 255;

/// How many bytes a record may have before its line end, and how far its reading has come.
#[derive(Clone, Copy)]
pub(crate) struct Bounds {
    pub(crate) most: u64,
    pub(crate) delimiter: u8,
    pub(crate) is_by_name: bool,
    pub(crate) place: Place,
    // How many bytes of the record were read.
    pub(crate) count: u64,
}

/// The bytes of a feed and the mark behind them.
///
/// With bounds the place of each byte is known, and the first that is too many in its record is the last that is read: a mark
/// of its own stands in its place. So no more of a record is ever held than it may have.
#[derive(Drop)]
pub(crate) struct FeedBytes<R: Read> {
    reader: R,
    bounds: Option<Bounds>,
    // What is left of the mark, once the bytes have ended; before, the mark where there are no bounds.
    mark: &'static [u8],
    has_ended: bool,
}

impl<R: Read> FeedBytes<R> {
    /// The bytes that a reader gives, and behind them this mark, or within bounds the one that goes with their end.
    pub(crate) fn new(reader: R, bounds: Option<Bounds>, mark: &'static [u8]) -> FeedBytes<R>
        ensures { bytes_left result.has_ended result.bounds result.mark.now (R.remaining result.reader)
            ≡ option_map (read_on bounds mark.now) (R.remaining reader) }
    {
        FeedBytes {
            reader,
            bounds,
            mark,
            has_ended: false,
        }
    }

    // Nothing but the mark is left.
    fn end(&mut self)
        ensures ended { self.new.has_ended ≡ true }
        ensures mark { self.new.mark.now ≡ read_on self.old.bounds self.old.mark.now [] }
    {
        self.has_ended = true;
        if let Some(bounds) = self.bounds {
            self.mark = mark_at(bounds.is_by_name, bounds.place);
        }
    }
}

impl<R: Read> Read for FeedBytes<R> {
    ghost remaining = { λ b. bytes_left b.has_ended b.bounds b.mark.now (R.Read.remaining b.reader) };

    fn read(&mut self, buf: &mut [u8]) -> Result<usize> {
        if !self.has_ended {
            let count = self.reader.read(buf)?;
            if count > 0 || buf.is_empty() {
                let Some(bounds) = self.bounds else {
                    return Ok(count);
                };
                let (bounds, excess) = passed(bounds, &buf[..count]);
                let Some(at) = excess else {
                    self.bounds = Some(bounds);
                    return Ok(count);
                };
                buf[at] = EXCESS_MARK;
                self.has_ended = true;
                self.mark = &[];
                return Ok(at + 1);
            }
            self.end();
        }
        self.mark.read(buf)
    }
}

// The bounds behind bytes, and which of these is the first that is too many in its record, if one is.
fn passed(bounds: Bounds, bytes: &[u8]) -> (Bounds, Option<usize>)
    ensures { Passes bounds bytes.now result.0 result.1 }
{
    let start = skipped(&bounds, bytes);
    let begun = begun_at(&bounds, start);
    let mut place = begun.place;
    let mut count = begun.count;
    for at in start..bytes.len() {
        place = place.after(bounds.delimiter, bytes[at]);
        if place.is_before_record() {
            count = 0;
        } else if count < bounds.most {
            count += 1;
        } else {
            return (bounds, Some(at));
        }
    }
    let next = Bounds {
        place,
        count,
        ..bounds
    };
    (next, None)
}

// The bounds at a place up to which bytes were skipped: before a record, unless none were.
fn begun_at(bounds: &Bounds, start: usize) -> Bounds
    ensures { result ≡ begun_at bounds.now start }
{
    if start == 0 {
        return *bounds;
    }
    Bounds {
        place: Place::Record,
        count: 0,
        ..*bounds
    }
}

// How many bytes needn't be looked at one by one: those up to the last line end, where there is no quote, and too few of them
// for any record to have too many.
fn skipped(bounds: &Bounds, bytes: &[u8]) -> usize
    ensures { IsSkipped bounds.now bytes.now result }
{
    if bounds.delimiter == b'\n' || bounds.place.is_quoted() || !has_room(bounds, bytes) {
        return 0;
    }
    if quotes(bytes) > 0 {
        return 0;
    }
    behind_line_end(bytes)
}

// Whether a record may have so many bytes more.
fn has_room(bounds: &Bounds, bytes: &[u8]) -> bool
    ensures { result ≡ true → bounds.now.count + length bytes.now ≤ bounds.now.most }
{
    bounds.count <= bounds.most && bytes.len() as u64 <= bounds.most - bounds.count
}

// How many quotes there are among bytes.
fn quotes(bytes: &[u8]) -> usize
    ensures { result ≡ count_by (nat_eq 34) bytes.now }
{
    bytes.iter().filter(|byte| **byte == b'"').count()
}

// The place behind the last line feed among bytes; 0 where there is none.
fn behind_line_end(bytes: &[u8]) -> usize
    ensures at_most { result ≤ length bytes.now }
    ensures behind { 0 < result → get_or bytes.now (result - 1) 0 ≡ 10 }
{
    for count in 0..bytes.len() {
        let at = bytes.len() - 1 - count;
        if bytes[at] == b'\n' {
            return at + 1;
        }
    }
    0
}

// The mark behind bounded bytes that end at a place.
fn mark_at(is_by_name: bool, place: Place) -> &'static [u8]
    ensures { result.now ≡ mark_at is_by_name place }
{
    if place.is_quoted() && !is_by_name {
        b"\"\n\"".as_slice()
    } else {
        b"\n\"".as_slice()
    }
}
