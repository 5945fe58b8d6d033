//! The first records of a file, from which a schema is guessed.
use csv::{ByteRecord, Reader, ReaderBuilder};
use std::alloc::{AllocError, Global};
use std::io::Read;

/// How many data records are looked at.
const MOST_RECORDS: usize = 10_000;

/// The header of a file, and its first data records that have as many fields.
#[derive(Drop)]
pub(crate) struct Sample {
    pub(crate) header: ByteRecord,
    pub(crate) records: Vec<ByteRecord>,
}

/// The header and the first data records of a file that begins with these bytes, 10,000 at most; where more bytes follow them,
/// only the records that end in them. None where there is no header. The only error is that memory ran out.
pub(crate) fn read_sample(
    alloc: Global,
    bytes: &[u8],
    is_whole: bool,
    delimiter: u8,
) -> Result<Option<Sample>, AllocError> {
    // Behind bytes that were cut one more stands, so that the record that it falls into is the one that hasn't ended.
    let more: &[u8] = if is_whole { b"" } else { b"x" };
    let mut reader = ReaderBuilder::new()
        .has_headers(false)
        .flexible(true)
        .delimiter(delimiter)
        .from_reader(alloc, bytes.chain(more));
    let mut header = ByteRecord::new(alloc);
    if !advance(&mut reader, &mut header)? {
        return Ok(None);
    }
    let mut records = read_records(alloc, &mut reader)?;
    if !is_whole || records.len() > MOST_RECORDS {
        if records.pop().is_none() {
            return Ok(None);
        }
    }
    let width = header.len();
    records.retain(|record| record.len() == width);
    Ok(Some(Sample { header, records }))
}

// The next records, and one more than are looked at.
fn read_records<R: Read + Drop>(
    alloc: Global,
    reader: &mut Reader<R>,
) -> Result<Vec<ByteRecord>, AllocError> {
    let mut records = Vec::new(alloc);
    for _ in 0..=MOST_RECORDS {
        let mut record = ByteRecord::new(alloc);
        if !advance(reader, &mut record)? {
            break;
        }
        records.push(record)?;
    }
    Ok(records)
}

/// Reads the next record of bytes in memory, if there is one; these can't be at fault, so that only memory can be short.
pub(crate) fn advance<R: Read>(
    reader: &mut Reader<R>,
    record: &mut ByteRecord,
) -> Result<bool, AllocError> {
    match reader.read_byte_record(record) {
        Ok(found) => Ok(found),
        Err(_) => Err(AllocError),
    }
}
