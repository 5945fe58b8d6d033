//! Fields of a record whose bytes lie one after another, which is known where no field up to the last of them is empty.
ghost use Rattle.std.specs.Prelude.{◌≡◌, ◌≤◌, ◌+◌, [], IfSome, length, drop, get_or, sum_by, slice_range};
ghost use Rattle.csv.specs.Records.{fields_of, text_of};
ghost use Rattle.cube_core.specs.Values.{parts_of};
ghost use Rattle.cube_feed.specs.Contiguous.{BeginsAt};

use arrayvec::ArrayVec;
use csv::ByteRecord;
use cube_core::VALUES_IN_PLACE;

fn len_of(row: &ByteRecord, place: usize) -> usize
    ensures { result ≡ length (get_or (fields_of row.now) place []) }
{
    match row.get(place) {
        Some(field) => field.len(),
        None => 0,
    }
}

/// Where the bytes of the field at a place begin; None where a field before it is empty.
pub(crate) fn begin_of(row: &ByteRecord, place: usize) -> Option<usize>
    requires { place ≤ length (fields_of row.now) }
    ensures { IfSome result (λ begin. BeginsAt row.now place begin) }
{
    // No sum of lengths passes the length of these.
    let text = row.as_slice();
    let mut begin = 0usize;
    for before in 0..place {
        let len = len_of(row, before);
        if len == 0 {
            return None;
        }
        begin += len;
    }
    Some(begin)
}

/// Puts the lengths of the fields from a place to another into a list. The answer is where their bytes end that begin at
/// `begin`; None where one of them is empty, or where they are more than the list takes.
pub(crate) fn end_of(
    row: &ByteRecord,
    begin: usize,
    start: usize,
    end: usize,
    lens: &mut ArrayVec<usize, VALUES_IN_PLACE>,
) -> Option<usize>
    requires order { (start ≤ end) × (end ≤ length (fields_of row.now)) }
    requires begins { BeginsAt row.now start begin }
    requires empty { lens.old.items ≡ [] }
    ensures whole { IfSome result (λ stop. (stop ≤ length (text_of row.now)) × (begin + sum_by (λ len. len) lens.new.items ≡ stop)) }
    ensures parts { IfSome result (λ stop.
        parts_of lens.new.items (slice_range (text_of row.now) begin stop) ≡ slice_range (fields_of row.now) start end) }
{
    // No sum of lengths passes the length of these.
    let text = row.as_slice();
    let mut stop = begin;
    for place in start..end {
        let len = len_of(row, place);
        if len == 0 || lens.is_full() {
            return None;
        }
        lens.push(len);
        stop += len;
    }
    Some(stop)
}
