//! A printed cube as aligned columns.
use crate::views::mean::push_mean;
use csv::ByteRecord;
use std::alloc::{AllocError, Global};
use std::str;
use unicode_width::{UnicodeWidthChar, UnicodeWidthStr};

/// How a printed cube writes null, and ALL in a dimension.
const NULL: &[u8] = b"\\N";

/// What the last line says of the means.
const ROUNDED: &str =
    "Means are rounded half away from zero, to two digits more than their measure has.";

/// What is known of a printed cube's columns before its records.
#[derive(Drop)]
pub(crate) struct Layout {
    dimensions: usize,
    decimals: Vec<u8>,
    most: Option<usize>,
}

/// A printed cube's columns: which are means, and how wide each is.
#[derive(Drop)]
pub(crate) struct Columns {
    means: Vec<bool>,
    widths: Vec<usize>,
}

impl Layout {
    /// A cube with so many dimensions, whose aggregates have measures with so many digits behind the point each; its lines
    /// take at most so many columns, where that is said.
    pub(crate) fn new(dimensions: usize, decimals: Vec<u8>, most: Option<usize>) -> Layout {
        Layout {
            dimensions,
            decimals,
            most,
        }
    }

    /// The columns of a cube with this header, as wide as their names. The only error is that memory ran out.
    pub(crate) fn columns(
        &self,
        alloc: Global,
        header: &ByteRecord,
    ) -> Result<Columns, AllocError> {
        let (mut means, mut widths) = (Vec::new(alloc), Vec::new(alloc));
        for place in 0..header.len() {
            let is_mean = place >= self.dimensions.saturating_mul(2)
                && field_at(header, place).starts_with(b"avg(");
            means.push(is_mean)?;
            widths.push(0)?;
        }
        let mut columns = Columns { means, widths };
        self.widen(alloc, &mut columns, header, true)?;
        Ok(columns)
    }

    /// Makes the columns as wide as a record wants them, a header or a row.
    pub(crate) fn widen(
        &self,
        alloc: Global,
        columns: &mut Columns,
        record: &ByteRecord,
        is_header: bool,
    ) -> Result<(), AllocError> {
        let mut cell = String::new(alloc);
        for place in 0..columns.widths.len() {
            cell.clear();
            self.push_cell(&mut cell, columns, record, place, is_header)?;
            let width = cell.as_str().width();
            columns.widths[place] = columns.widths[place].max(width);
        }
        Ok(())
    }

    /// Puts the line of a record, a header or a row, at the end of the text.
    pub(crate) fn push_line(
        &self,
        alloc: Global,
        text: &mut Vec<u8>,
        columns: &Columns,
        record: &ByteRecord,
        is_header: bool,
    ) -> Result<(), AllocError> {
        let mut line = String::new(alloc);
        let mut cell = String::new(alloc);
        for (place, width) in columns.widths.iter().enumerate() {
            if self.is_grouping(place) {
                continue;
            }
            cell.clear();
            self.push_cell(&mut cell, columns, record, place, is_header)?;
            if place > 0 {
                line.push_str("  ")?;
            }
            push_aligned(&mut line, cell.as_str(), *width, place < self.dimensions)?;
        }
        push_cut(alloc, text, line.as_str(), self.most)
    }

    /// Puts the last line, where there is a mean.
    pub(crate) fn push_end(
        &self,
        alloc: Global,
        text: &mut Vec<u8>,
        columns: &Columns,
    ) -> Result<(), AllocError> {
        if columns.means.iter().any(|is_mean| *is_mean) {
            push_cut(alloc, text, ROUNDED, self.most)?;
        }
        Ok(())
    }

    // Whether the column at a place is a GROUPING column.
    fn is_grouping(&self, place: usize) -> bool {
        self.dimensions <= place && place < self.dimensions.saturating_mul(2)
    }

    // Puts what is shown of the field at a place.
    fn push_cell(
        &self,
        cell: &mut String,
        columns: &Columns,
        record: &ByteRecord,
        place: usize,
        is_header: bool,
    ) -> Result<(), AllocError> {
        let field = field_at(record, place);
        if is_header {
            return push_shown(cell, field);
        }
        if field == NULL {
            let is_all = place < self.dimensions
                && field_at(record, place.saturating_add(self.dimensions)) == b"1".as_slice();
            return cell.push_str(if is_all { "(all)" } else { "(null)" });
        }
        if columns.means.get(place).copied().unwrap_or(false) {
            return push_mean(cell, text_of(field), self.digits(place));
        }
        push_shown(cell, field)
    }

    // How many digits behind the point the mean at a place is shown with: two more than its measure has.
    fn digits(&self, place: usize) -> u8 {
        let answer = place.saturating_sub(self.dimensions.saturating_mul(2));
        self.decimals
            .get(answer)
            .copied()
            .unwrap_or(0)
            .saturating_add(2)
    }
}

// The field at a place; empty where there is none.
fn field_at(record: &ByteRecord, place: usize) -> &[u8] {
    record.get(place).unwrap_or(b"")
}

// The text of a field: a printed cube is UTF-8.
fn text_of(field: &[u8]) -> &str {
    str::from_utf8(field).unwrap_or("\u{FFFD}")
}

// Puts a text with `�` in place of each control character, which would move the columns of a terminal.
fn push_shown(cell: &mut String, field: &[u8]) -> Result<(), AllocError> {
    for character in text_of(field).chars() {
        let shown = if character.width().is_none() {
            '\u{FFFD}'
        } else {
            character
        };
        cell.push(shown)?;
    }
    Ok(())
}

// Puts a text and the spaces that fill its column: behind it, where it stands to the left, and else before it.
fn push_aligned(
    line: &mut String,
    cell: &str,
    width: usize,
    is_left: bool,
) -> Result<(), AllocError> {
    let spaces = width.saturating_sub(cell.width());
    if is_left {
        line.push_str(cell)?;
    }
    for _ in 0..spaces {
        line.push(' ')?;
    }
    if !is_left {
        line.push_str(cell)?;
    }
    Ok(())
}

// Puts a line and its end; of one that takes more columns than it may, its beginning and `…`.
fn push_cut(
    alloc: Global,
    text: &mut Vec<u8>,
    line: &str,
    most: Option<usize>,
) -> Result<(), AllocError> {
    match most {
        Some(most) if line.width() > most => {
            let kept = beginning(alloc, line, most.saturating_sub(1))?;
            text.extend_from_slice(kept.as_str().as_bytes())?;
            text.extend_from_slice("…".as_bytes())?;
        }
        _ => text.extend_from_slice(line.as_bytes())?,
    }
    text.push(b'\n')?;
    Ok(())
}

// The beginning of a line that takes at most so many columns.
fn beginning(alloc: Global, line: &str, most: usize) -> Result<String, AllocError> {
    let mut kept = String::new(alloc);
    let mut taken: usize = 0;
    for character in line.chars() {
        taken = taken.saturating_add(character.width().unwrap_or(0));
        if taken > most {
            break;
        }
        kept.push(character)?;
    }
    shorten(&mut kept, most);
    Ok(kept)
}

// Takes characters off the end of a text until it takes at most so many columns, which is less than its characters take
// one by one only where some of them stand together.
fn shorten(text: &mut String, most: usize) {
    for _ in 0..text.len() {
        if text.as_str().width() <= most {
            return;
        }
        text.pop();
    }
}
