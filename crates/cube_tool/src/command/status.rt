//! The statuses that the program ends with.
ghost use Rattle.std.specs.Prelude.{◌≡◌, map};
ghost use Rattle.cube_tool.specs.Answering.{first_refusal, refusals_of_run};
ghost use Rattle.cube_tool.specs.Command.{status_after, status_code};

use crate::answers::refused_of;
use cube_build::Built;
use cube_core::Refusal;
use cube_ledger::Ledger;

/// What the program ends with.
#[derive(Clone, Copy, Debug, PartialEq, Eq)]
pub enum Status {
    /// All was done.
    Done,
    /// A feed, a run or the writing failed.
    Failed,
    /// The command line was refused.
    WrongWords,
    /// The schema couldn't be read, or was refused.
    WrongSchema,
    /// All was done and written, and at least one line of a feed was refused.
    LinesRefused,
}

impl Status {
    /// The number that the process ends with: 0 to 4, in the order above.
    pub fn code(self) -> u8
        ensures { result ≡ status_code self }
    {
        match self {
            Status::Done => 0,
            Status::Failed => 1,
            Status::WrongWords => 2,
            Status::WrongSchema => 3,
            Status::LinesRefused => 4,
        }
    }
}

/// The status of an answer that was written whole, by the refusals of what was built.
pub(crate) fn status_of_run(built: &Built) -> Status
    ensures { result ≡ status_after (refusals_of_run built.now) }
{
    status_after(refused_of(built))
}

/// The first refusal of a ledger, with its source, counted from 1: of the lowest source that has one.
pub(crate) fn first_refusal(ledger: &Ledger) -> Option<(u32, Refusal)>
    ensures { result ≡ first_refusal 1 (map (λ account. account.refusals) ledger.now.accounts) }
{
    for place in 0..ledger.sources() {
        if let Some(refusal) = ledger.refusals(place + 1).first() {
            return Some((place + 1, *refusal));
        }
    }
    None
}

/// The status of a session that was served to its end, by the refusals of its ledger.
pub fn status_after(ledger: &Ledger) -> Status
    ensures { result ≡ status_after (map (λ account. account.refusals) ledger.now.accounts) }
{
    for place in 0..ledger.sources() {
        if !ledger.refusals(place + 1).is_empty() {
            return Status::LinesRefused;
        }
    }
    Status::Done
}
