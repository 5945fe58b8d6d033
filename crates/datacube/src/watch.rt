//! The progress of a command as the watcher of its run.
use cube_console::{Phase, Progress};
use cube_tool::{Gate, Reporter};
use std::io::Stderr;
use std::sync::Wait;
use std::time::Clock;

/// The progress of a command, which its run is told to.
#[derive(Drop)]
pub(crate) struct Watch<'p, T: Wait + Clock> {
    pub progress: &'p Progress<'p, T, Stderr>,
}

impl<T: Wait + Clock> Gate for Watch<'_, T> {
    // Each line is sent to each builder, so those to one are counted, as they are read.
    fn before_offer(&self, _source: u32, builder: u32, _k: u64) {
        if builder == 0 {
            self.progress.take_line();
        }
    }

    fn after_take(&self, _source: u32, _builder: u32, _k: u64) {}
}

impl<T: Wait + Clock> Reporter for Watch<'_, T> {
    fn begins_sorting(&self, facts: u64) {
        self.progress.begin(Phase::Sorting { facts });
    }

    fn begins_writing(&self, lines: Option<usize>) {
        self.progress.begin(Phase::Writing { lines });
    }

    fn begins_serving(&self) {
        self.progress.end();
    }
}
