//! The writer that turns a printed cube into lines of JSON.
ghost use Rattle.std.specs.Prelude.{◌≡◌, ◌≤◌, ◌++◌, ℕ, List, Some, [], length, take, IfOk, OnOk};
ghost use Rattle.csv.specs.Reading.{default_config, records};
ghost use Rattle.cube_console.specs.Json.{json_text};
ghost use Rattle.cube_console.specs.JsonLines.{EndsWithRecord};
ghost use Rattle.cube_console.specs.JsonWritten.{Wrote};

use crate::views::lines::JsonLines;
use crate::views::outlet::Outlet;
use std::alloc::Global;
use std::io::{Result, Write};

/// How many bytes of lines are kept before they are written.
const PART: usize = 65_536;

/// A writer of a printed cube, which hands on a line of JSON a row.
#[derive(Drop)]
pub struct JsonWriter<O: Write + Drop> {
    lines: JsonLines,
    outlet: Outlet<O>,
}

impl<O: Write + Drop> JsonWriter<O> {
    /// A writer of a cube with so many dimensions, to another.
    pub fn new(alloc: Global, inner: O, dimensions: usize) -> JsonWriter<O>
        ensures { (start : List ℕ) → O.Write.contents inner ≡ Some start →
            Wrote O.Write.contents dimensions start [] result }
    {
        JsonWriter {
            lines: JsonLines::new(alloc, dimensions),
            outlet: Outlet::new(inner),
        }
    }

    /// Takes bytes of the cube, up to the end of a record at most; and how many. The lines that are ready are written
    /// where they are many. It fails where memory runs out or the writing does, and then the writer isn't to be used again.
    pub fn take_bytes(&mut self, bytes: &[u8]) -> Result<usize>
        ensures within { IfOk result (λ count. count ≤ length bytes.now) }
        ensures wrote { (d : ℕ) (start text : List ℕ) → Wrote O.Write.contents d start text self.old →
            IfOk result (λ count. Wrote O.Write.contents d start (text ++ take count bytes.now) self.new) }
    {
        let count = self.lines.take_record(bytes)?;
        if self.lines.ready().len() >= PART {
            self.send()?;
        }
        Ok(count)
    }

    /// Writes the lines that are ready, and flushes the writer below. It fails where the writing does, and then the writer
    /// isn't to be used again.
    pub fn finish(&mut self) -> Result<()>
        ensures { (d : ℕ) (start text : List ℕ) → Wrote O.Write.contents d start text self.old → EndsWithRecord d text →
            OnOk result (O.Write.contents self.new.outlet.inner
            ≡ Some (start ++ json_text d (records default_config text))) }
    {
        self.send()?;
        self.outlet.flush()
    }

    /// How many bytes went out.
    pub fn sent(&self) -> usize {
        self.outlet.sent()
    }

    // Writes the lines that are ready.
    fn send(&mut self) -> Result<()>
        ensures wrote { (d : ℕ) (start text : List ℕ) → Wrote O.Write.contents d start text self.old →
            OnOk result (Wrote O.Write.contents d start text self.new) }
        ensures ready { OnOk result (self.new.lines.ready.items ≡ []) }
    {
        self.outlet.send(self.lines.ready())?;
        self.lines.forget();
        Ok(())
    }
}

impl<O: Write + Drop> Write for JsonWriter<O> {
    fn write(&mut self, buf: &[u8]) -> Result<usize> {
        self.take_bytes(buf)
    }

    fn flush(&mut self) -> Result<()> {
        self.finish()
    }
}
