//! The progress of a command.
use crate::counts::Counts;
use crate::phase::Phase;
use crate::screen::Screen;
use std::alloc::Global;
use std::io::Write;
use std::sync::{Mutex, Wait};
use std::thread::Parker;
use std::time::{Clock, Duration, Instant};

/// How many milliseconds the thread that shows the line sleeps in between.
const ROUND: u64 = 250;

/// How far a command is. The threads of the command count and say what they are at, and one more thread shows it.
#[derive(Drop)]
pub struct Progress<'p, T: Wait + Clock, W: Write + Drop> {
    rt: &'p T,
    alloc: Global,
    is_shown: bool,
    // Whether what the command writes goes to a terminal too.
    is_shared: bool,
    counts: Counts,
    parker: Parker,
    screen: Mutex<Screen<W>>,
}

impl<'p, T: Wait + Clock, W: Write + Drop> Progress<'p, T, W> {
    /// The progress of a command that begins, which is shown on a terminal if that is wanted. Where what the command
    /// writes goes to a terminal too, nothing is shown from its first byte on.
    pub fn new(
        rt: &'p T,
        alloc: Global,
        terminal: W,
        is_shown: bool,
        is_shared: bool,
    ) -> Progress<'p, T, W> {
        let now = Instant::now(rt).ok();
        Progress {
            rt,
            alloc,
            is_shown,
            is_shared,
            counts: Counts::new(),
            parker: Parker::new(),
            screen: Mutex::new(Screen::new(terminal, Phase::Reading { feeds: 1 }, now)),
        }
    }

    /// What is counted, where the line is shown at all.
    pub fn counts(&self) -> Option<&Counts> {
        if self.is_shown {
            Some(&self.counts)
        } else {
            None
        }
    }

    /// One more line was taken.
    pub fn take_line(&self) {
        if self.is_shown {
            self.counts.add_lines(1);
        }
    }

    /// A phase begins.
    pub fn begin(&self, phase: Phase) {
        if self.is_shown {
            let now = Instant::now(self.rt).ok();
            self.counts.forget_lines();
            self.screen.lock(self.rt).begin(phase, now);
        }
    }

    /// The first byte is about to be written.
    pub(crate) fn begin_output(&self) {
        if self.is_shared {
            self.end();
            return;
        }
        let now = Instant::now(self.rt).ok();
        self.screen.lock(self.rt).begin_output(now);
    }

    /// The line is gone for good, and the thread that shows it ends.
    pub fn end(&self) {
        if self.is_shown {
            self.screen.lock(self.rt).end();
            self.parker.unpark();
        }
    }

    /// Shows the line until the end, for one thread.
    pub fn show_until_over(&self) {
        let round = Duration::from_millis(ROUND);
        for _ in self.rt.forever() {
            self.parker.park_timeout(self.rt, round);
            if !self.show() {
                return;
            }
        }
    }

    // Shows the line, if it is due; false where it is never shown again.
    fn show(&self) -> bool {
        let Ok(now) = Instant::now(self.rt) else {
            return false;
        };
        let mut screen = self.screen.lock(self.rt);
        screen.show(self.alloc, &self.counts, now);
        !screen.is_over()
    }
}
