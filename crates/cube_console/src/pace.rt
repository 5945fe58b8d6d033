//! When the line is written, and how fast lines are taken.
ghost use Rattle.std.specs.Prelude.{◌≡◌, ◌*◌, ◌/◌, ◌↔◌, None, Some, IsTrue};
ghost use Rattle.cube_console.specs.Pace.{IsDue, rate_of};

/// How many milliseconds nothing is shown at first.
const PATIENCE: u128 = 500;

/// How many milliseconds the line stands before it is written again, so that this is at most five times a second.
const PAUSE: u128 = 200;

/// Whether the line is to be written, so many milliseconds after it might have been shown at once, and so many after it
/// was written last, if it was.
pub(crate) fn is_due(waited: u128, stood: Option<u128>) -> bool
    ensures { IsTrue result ↔ IsDue waited stood }
{
    match stood {
        Some(stood) => PATIENCE <= waited && PAUSE <= stood,
        None => PATIENCE <= waited,
    }
}

/// How many lines a second were taken in so many milliseconds, rounded down; none in no time.
pub(crate) fn rate(lines: u64, millis: u128) -> Option<u128>
    ensures { result ≡ rate_of lines millis }
{
    let lines = u128::from(lines);
    (lines * 1000).checked_div(millis)
}
