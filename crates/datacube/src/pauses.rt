//! The pauses of standard input, as what a session asks whether its input rests.
use cube_console::Pauses;
use cube_live::Rests;
use std::sync::Wait;
use std::time::Clock;

/// The pauses of an input that a thread reads ahead.
#[derive(Drop)]
pub(crate) struct SessionPauses<T: Wait + Clock + Copy> {
    pub pauses: Pauses<T>,
}

impl<T: Wait + Clock + Copy> Rests for SessionPauses<T> {
    fn rests(&mut self) -> bool {
        self.pauses.rests()
    }
}
