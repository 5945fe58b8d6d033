//! The value of a measure that is no number, in words.
use crate::line::{FoundLine, all_of, owned, place_in};
use crate::measure::{Meant, digits_behind, is_number, meant_by};
use crate::report::{decimal, quoted};
use crate::wanted::{Role, Used, field_at, point_of};
use cube_core::Schema;
use std::alloc::{AllocError, Global};

/// What is wrong with the first measure of a line that is neither null nor a number. The only error is that memory ran out.
pub(crate) fn measure_words(
    alloc: Global,
    schema: &Schema,
    line: &FoundLine,
    used: &[Used],
) -> Result<Vec<u8>, AllocError> {
    for (order, column) in used.iter().enumerate() {
        let field = field_at(&line.record, place_in(schema, line, column, order));
        if column.role == Role::Measure && is_wrong(schema, column.place, field) {
            return value_words(alloc, schema, column, field);
        }
    }
    owned(alloc, b"a measure isn't a number that fits")
}

// Whether a field is neither null nor a number of a measure.
fn is_wrong(schema: &Schema, measure: usize, field: &[u8]) -> bool {
    let is_kept = schema.version() == 2 && field == b"\\=".as_slice();
    !is_kept
        && !is_null(schema, field)
        && !is_number(field, schema.decimals_of(measure), point_of(schema))
}

// Whether a field is null.
fn is_null(schema: &Schema, field: &[u8]) -> bool {
    match schema.columns() {
        Some(columns) => {
            columns
                .nulls
                .as_slice()
                .iter()
                .any(|null| null.as_str().as_bytes() == field)
        }
        None => field == b"\\N".as_slice(),
    }
}

// What is wrong with the value of a measure.
fn value_words(
    alloc: Global,
    schema: &Schema,
    column: &Used,
    field: &[u8],
) -> Result<Vec<u8>, AllocError> {
    let value = quoted(alloc, field)?;
    let wanted = wanted_words(alloc, schema.decimals_of(column.place))?;
    let hint = hint_words(alloc, schema, column, field)?;
    let name = owned(alloc, column.name.as_bytes())?;
    all_of(
        alloc,
        &[
            b"the measure ",
            &name,
            b" is ",
            &value,
            b", which isn't ",
            &wanted,
            &hint,
        ],
    )
}

// What was wanted of a measure.
fn wanted_words(alloc: Global, digits: Option<u8>) -> Result<Vec<u8>, AllocError> {
    match digits {
        None | Some(0) => owned(alloc, b"a whole number"),
        Some(1) => owned(alloc, b"a number with at most 1 decimal"),
        Some(digits) => {
            let number = decimal(alloc, u64::from(digits))?;
            all_of(alloc, &[b"a number with at most ", &number, b" decimals"])
        }
    }
}

// What a value may be meant as, and how to mend it.
fn hint_words(
    alloc: Global,
    schema: &Schema,
    column: &Used,
    field: &[u8],
) -> Result<Vec<u8>, AllocError> {
    let point = point_of(schema);
    match meant_by(field, schema.decimals_of(column.place), point) {
        Meant::Decimals => decimals_words(alloc, schema, column, digits_behind(field, point)),
        Meant::Missing if schema.columns().is_some() => owned(
            alloc,
            b", and not null either: null under [feed] may have it",
        ),
        Meant::Missing => owned(alloc, b", and not null either, which is \\N"),
        Meant::OtherPoint if point == b',' => owned(
            alloc,
            b": it may have a decimal point, as point = \".\" under [feed] says",
        ),
        Meant::OtherPoint => owned(
            alloc,
            b": it may have a decimal comma, as point = \",\" under [feed] says",
        ),
        Meant::Thousands => owned(
            alloc,
            b": it may have marks between its thousands: write it without them",
        ),
        Meant::Exponent => owned(alloc, b": write it out, without an exponent"),
        Meant::Large => owned(alloc, b": it doesn't fit 64 bits"),
        Meant::Dressed => owned(alloc, b": write the number alone"),
        Meant::Unknown => Ok(Vec::new(alloc)),
    }
}

// How many decimals would take a value.
fn decimals_words(
    alloc: Global,
    schema: &Schema,
    column: &Used,
    digits: u64,
) -> Result<Vec<u8>, AllocError> {
    let name = match schema.measures().get(column.place) {
        Some(name) => name.as_str(),
        None => column.name,
    };
    let key = if is_bare(name) {
        owned(alloc, name.as_bytes())?
    } else {
        quoted(alloc, name.as_bytes())?
    };
    let number = decimal(alloc, digits)?;
    all_of(
        alloc,
        &[b": ", &key, b" = ", &number, b" under [decimals] takes it"],
    )
}

// Whether a name may be a key of TOML without quotes.
fn is_bare(name: &str) -> bool {
    !name.is_empty()
        && name.as_bytes().iter().all(|byte| byte.is_ascii_alphanumeric()
            || *byte == b'-'
            || *byte == b'_')
}
