//! The text of the progress line.
use crate::pace::rate;
use crate::phase::Phase;
use std::alloc::{AllocError, Global};
use std::fmt;

/// What the progress line says.
#[derive(Clone, Copy)]
pub(crate) struct Figures {
    pub phase: Phase,
    /// How many lines were taken.
    pub lines: u64,
    /// How many inputs were read to their ends.
    pub ended: u64,
    /// How many bytes were written.
    pub bytes: u64,
    /// How many milliseconds the phase has lasted.
    pub millis: u128,
}

impl fmt::Display for Figures {
    fn fmt<W: fmt::Write>(&self, f: &mut fmt::Formatter<W>) -> fmt::Result {
        let (lines, bytes) = (self.lines, self.bytes);
        match self.phase {
            Phase::Reading { feeds } if self.ended >= feeds as u64 => {
                write!(f, "filling the cube: {lines} lines were read")
            }
            Phase::Reading { feeds } => self.taking(f, "reading", feeds, "feed"),
            Phase::Sorting { facts } => write!(f, "sorting the cells of {facts} facts"),
            Phase::Writing { lines: Some(lines) } => {
                write!(f, "writing {lines} lines: {bytes} bytes")
            }
            Phase::Writing { lines: None } => write!(f, "writing: {bytes} bytes"),
            Phase::Checking { cubes } => self.taking(f, "checking", cubes, "cube"),
            Phase::Merging { cubes } => self.taking(f, "merging", cubes, "cube"),
        }
    }
}

impl Figures {
    // How many lines were taken of so many inputs, and how many a second.
    fn taking<W: fmt::Write>(
        &self,
        f: &mut fmt::Formatter<W>,
        what: &str,
        inputs: usize,
        input: &str,
    ) -> fmt::Result {
        let lines = self.lines;
        let ending = if inputs == 1 { "" } else { "s" };
        write!(f, "{what} {inputs} {input}{ending}: {lines} lines")?;
        match rate(lines, self.millis) {
            Some(rate) => write!(f, ", {rate} a second"),
            None => Ok(()),
        }
    }
}

/// The bytes that write the line over what stands there: the cursor goes to the first column, the line isn't wrapped
/// where the terminal is narrow, and what stood behind its end is erased. The only error is that memory ran out.
pub(crate) fn line_of(alloc: Global, figures: &Figures) -> Result<String, AllocError> {
    format!(in alloc; "\r\x1b[?7ldatacube: {figures}\x1b[K\x1b[?7h")
}

/// The bytes that erase the line.
pub(crate) const ERASED: &str = "\r\x1b[K";
