//! Whether the input of a session rests.

/// What tells whether the input of a session rests, so that its changes are made certain though nothing asks for it.
pub trait Rests {
    /// Whether the input rests: no record came for a while. It is asked once before each record, and may wait that long.
    ///
    /// No clause speaks of the answer, since any serves: what is made certain before an answer asks for it stays so.
    fn rests(&mut self) -> bool;
}

/// Says of no input that it rests, and waits for none.
#[derive(Clone, Copy, Debug)]
pub struct NeverRests;

impl Rests for NeverRests {
    fn rests(&mut self) -> bool {
        false
    }
}
