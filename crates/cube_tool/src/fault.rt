//! Why a run wrote no text, or not all of it.
ghost use Rattle.std.specs.Prelude.{◌≡◌};
ghost use Rattle.cube_tool.specs.Faults.{fault_of_build, fault_of_feeding, fault_of_text};

use cube_build::FeedingFault;
use cube_feed::FeedFault;
use cube_ledger::BuildFault;
use cube_lines::WriteFault;
use std::alloc::AllocError;
use thiserror::Error;

/// Why a run wrote no text, or not all of it. The text of each is its code.
#[derive(Clone, Copy, Debug, PartialEq, Eq, Error)]
pub enum RunFault {
    /// A growth was refused before a record was read.
    #[error("G1")]
    Memory,
    /// A thread couldn't be started.
    #[error("G2")]
    NoThread,
    /// The feed of a source, counted from 1, answered a fault.
    #[error("G3")]
    Feed { source: u32, fault: FeedFault },
    /// A growth was refused in building, sorting or printing.
    #[error("G4")]
    Full,
    /// A link of a source, counted from 1, gave no receipt.
    #[error("G5")]
    Unsealed { source: u32 },
    /// The writer failed after the first `sent` bytes of the text had gone out.
    #[error("G6")]
    Write { sent: usize },
}

impl From<FeedingFault> for RunFault {
    ghost use Rattle.std.specs.Prelude.{◌≡◌};
    ghost use Rattle.cube_tool.specs.Faults.{fault_of_feeding};

    ghost from_gives = { λ why fault. fault ≡ fault_of_feeding why };

    fn from(fault: FeedingFault) -> RunFault {
        match fault {
            FeedingFault::Memory => RunFault::Memory,
            FeedingFault::NoThread => RunFault::NoThread,
            FeedingFault::Feed { source, fault } => RunFault::Feed { source, fault },
            FeedingFault::Full => RunFault::Full,
            FeedingFault::Unsealed { source } => RunFault::Unsealed { source },
        }
    }
}

impl From<BuildFault> for RunFault {
    ghost use Rattle.std.specs.Prelude.{◌≡◌};
    ghost use Rattle.cube_tool.specs.Faults.{fault_of_build};

    ghost from_gives = { λ why fault. fault ≡ fault_of_build why };

    fn from(fault: BuildFault) -> RunFault {
        match fault {
            BuildFault::Memory => RunFault::Memory,
            BuildFault::Feed { source, fault } => RunFault::Feed { source, fault },
            BuildFault::Full => RunFault::Full,
        }
    }
}

/// Why the text of an answer wasn't written whole.
#[derive(Clone, Copy, Debug, PartialEq, Eq)]
pub enum TextFault {
    /// A growth was refused in sorting or printing, and nothing was written.
    Full,
    /// The writer failed after the first `sent` bytes of the text had gone out.
    Write { sent: usize },
}

impl From<AllocError> for TextFault {
    ghost use Rattle.std.specs.Prelude.{◌≡◌};
    ghost use Rattle.cube_tool.specs.declared.fault.TextFault.TheVariants.{Full};

    ghost from_gives = { λ _ fault. fault ≡ Full };

    fn from(_: AllocError) -> TextFault {
        TextFault::Full
    }
}

impl From<WriteFault> for TextFault {
    ghost use Rattle.std.specs.Prelude.{◌≡◌};
    ghost use Rattle.cube_tool.specs.declared.fault.TextFault.TheVariants.{Write};

    ghost from_gives = { λ why fault. fault ≡ Write why.sent };

    fn from(fault: WriteFault) -> TextFault {
        TextFault::Write { sent: fault.sent }
    }
}

impl From<TextFault> for RunFault {
    ghost use Rattle.std.specs.Prelude.{◌≡◌};
    ghost use Rattle.cube_tool.specs.Faults.{fault_of_text};

    ghost from_gives = { λ why fault. fault ≡ fault_of_text why };

    fn from(fault: TextFault) -> RunFault {
        match fault {
            TextFault::Full => RunFault::Full,
            TextFault::Write { sent } => RunFault::Write { sent },
        }
    }
}
