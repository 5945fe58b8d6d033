//! Who is told at what a command is.
use cube_build::OpenGate;

/// Who is told what a command over feeds begins, once the feeds have ended (this project's choice). Until then the run's
/// gate tells how far it is.
pub trait Reporter {
    /// The cells of a cube over so many facts are put in order, or those that are asked for.
    fn begins_sorting(&self, facts: u64);

    /// The text of the answer is made and written: so many lines, where that is known.
    fn begins_writing(&self, lines: Option<usize>);

    /// A session begins, which writes replies.
    fn begins_serving(&self);
}

impl Reporter for OpenGate {
    fn begins_sorting(&self, _facts: u64) {}

    fn begins_writing(&self, _lines: Option<usize>) {}

    fn begins_serving(&self) {}
}
