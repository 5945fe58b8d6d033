//! The forms of a printed cube: as it is printed, a line of JSON a row, and aligned columns.

mod aligned;
mod json;
mod json_writer;
mod lines;
mod mean;
mod outlet;
mod records;

use crate::views::aligned::{Columns, Layout};
use crate::views::json_writer::JsonWriter;
use crate::views::outlet::Outlet;
use crate::views::records::Records;
use std::alloc::{AllocError, Global};
use std::io::{Result, Write};

/// How many bytes of lines are kept before they are written.
const PART: usize = 65_536;

/// A writer of a printed cube, which hands it on in one of its forms.
#[derive(Drop)]
pub enum View<O: Write + Drop> {
    /// The cube as it is printed.
    Printed(O),
    /// A line of JSON a row, each once its record is whole.
    Json(JsonWriter<O>),
    /// Aligned columns, once the cube is whole and the writer is flushed.
    Aligned(AlignedWriter<O>),
}

impl<O: Write + Drop> View<O> {
    /// A writer of lines of JSON, of a cube with so many dimensions.
    pub fn json(alloc: Global, inner: O, dimensions: usize) -> View<O> {
        View::Json(JsonWriter::new(alloc, inner, dimensions))
    }

    /// A writer of aligned columns, of a cube with so many dimensions, whose aggregates are of measures with so many digits
    /// behind the point each. Lines that take more than `most` columns end in `…` there, if that is said.
    pub fn aligned(
        alloc: Global,
        inner: O,
        dimensions: usize,
        decimals: Vec<u8>,
        most: Option<usize>,
    ) -> View<O> {
        View::Aligned(AlignedWriter {
            alloc,
            layout: Layout::new(dimensions, decimals, most),
            text: Vec::new(alloc),
            outlet: Outlet::new(inner),
        })
    }

    /// How many bytes went out, where the form isn't the printed one.
    pub fn sent(&self) -> Option<usize> {
        match self {
            View::Printed(_) => None,
            View::Json(writer) => Some(writer.sent()),
            View::Aligned(writer) => Some(writer.outlet.sent()),
        }
    }
}

impl<O: Write + Drop> Write for View<O> {
    fn write(&mut self, buf: &[u8]) -> Result<usize> {
        match self {
            View::Printed(writer) => writer.write(buf),
            View::Json(writer) => writer.write(buf),
            View::Aligned(writer) => writer.write(buf),
        }
    }

    fn flush(&mut self) -> Result<()> {
        match self {
            View::Printed(writer) => writer.flush(),
            View::Json(writer) => writer.flush(),
            View::Aligned(writer) => writer.flush(),
        }
    }
}

/// A writer of a printed cube, which keeps it, and hands on its aligned columns when it is flushed.
#[derive(Drop)]
pub struct AlignedWriter<O: Write + Drop> {
    alloc: Global,
    layout: Layout,
    text: Vec<u8>,
    outlet: Outlet<O>,
}

impl<O: Write + Drop> Write for AlignedWriter<O> {
    fn write(&mut self, buf: &[u8]) -> Result<usize> {
        self.text.extend_from_slice(buf)?;
        Ok(buf.len())
    }

    fn flush(&mut self) -> Result<()> {
        if let Some(columns) = self.columns()? {
            self.send_lines(&columns)?;
        }
        self.text.clear();
        self.outlet.flush()
    }
}

impl<O: Write + Drop> AlignedWriter<O> {
    // The columns that the records want, if there is a header.
    fn columns(&self) -> std::result::Result<Option<Columns>, AllocError> {
        let mut records = Records::new(self.alloc);
        let mut columns: Option<Columns> = None;
        for byte in &self.text {
            if records.take(*byte)? {
                match &mut columns {
                    Some(columns) => self
                        .layout
                        .widen(self.alloc, columns, records.row(), false)?,
                    None => columns = Some(self.layout.columns(self.alloc, records.row())?),
                }
                records.clear();
            }
        }
        Ok(columns)
    }

    // Writes the lines of the records, and the last line.
    fn send_lines(&mut self, columns: &Columns) -> Result<()> {
        let mut lines = Vec::new(self.alloc);
        let mut records = Records::new(self.alloc);
        let mut is_header = true;
        for byte in &self.text {
            if records.take(*byte)? {
                let record = records.row();
                self.layout
                    .push_line(self.alloc, &mut lines, columns, record, is_header)?;
                is_header = false;
                records.clear();
                if lines.len() >= PART {
                    self.outlet.send(&lines)?;
                    lines.clear();
                }
            }
        }
        self.layout.push_end(self.alloc, &mut lines, columns)?;
        self.outlet.send(&lines)
    }
}
