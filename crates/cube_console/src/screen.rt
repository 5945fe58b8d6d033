//! The line on the terminal.
use crate::counts::Counts;
use crate::figures::{ERASED, Figures, line_of};
use crate::pace::is_due;
use crate::phase::Phase;
use std::alloc::Global;
use std::io::Write;
use std::time::Instant;

/// The line on a terminal, and since when it says what.
#[derive(Drop)]
pub(crate) struct Screen<W: Write + Drop> {
    to: W,
    phase: Phase,
    is_up: bool,
    is_over: bool,
    // When the phase began; none where the clock couldn't be read.
    began: Option<Instant>,
    // Since when the line may be shown, half a second later.
    since: Option<Instant>,
    written: Option<Instant>,
}

impl<W: Write + Drop> Screen<W> {
    /// No line stands on the terminal.
    pub fn new(to: W, phase: Phase, now: Option<Instant>) -> Screen<W> {
        Screen {
            to,
            phase,
            is_up: false,
            is_over: false,
            began: now,
            since: now,
            written: None,
        }
    }

    /// Whether the line is never shown again.
    pub fn is_over(&self) -> bool {
        self.is_over
    }

    /// The command begins with a phase.
    pub fn begin(&mut self, phase: Phase, now: Option<Instant>) {
        self.phase = phase;
        self.began = now;
    }

    /// The first byte is about to be written: the line is gone, and is shown again after half a second. Cubes are merged
    /// while they are read; else this is the phase of writing, if it hasn't begun.
    pub fn begin_output(&mut self, now: Option<Instant>) {
        if let Phase::Reading { .. } | Phase::Sorting { .. } = self.phase {
            self.begin(Phase::Writing { lines: None }, now);
        }
        self.erase();
        self.since = now;
    }

    /// The line is gone for good.
    pub fn end(&mut self) {
        self.erase();
        self.is_over = true;
    }

    /// Writes the line, if it is due.
    pub fn show(&mut self, alloc: Global, counts: &Counts, now: Instant) {
        let (Some(began), Some(since)) = (self.began, self.since) else {
            return;
        };
        let waited = now.duration_since(since).as_millis();
        let stood = self
            .written
            .map(|written| now.duration_since(written).as_millis());
        if self.is_over || !is_due(waited, stood) {
            return;
        }
        let figures = Figures {
            phase: self.phase,
            lines: counts.lines(),
            ended: counts.ended(),
            bytes: counts.bytes(),
            millis: now.duration_since(began).as_millis(),
        };
        if let Ok(line) = line_of(alloc, &figures) {
            let _ = self.to.write_all(line.as_str().as_bytes());
            self.is_up = true;
            self.written = Some(now);
        }
    }

    // Erases the line, if it stands on the terminal.
    fn erase(&mut self) {
        if self.is_up {
            let _ = self.to.write_all(ERASED.as_bytes());
            self.is_up = false;
        }
    }
}
