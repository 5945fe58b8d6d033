//! Why a command failed.
ghost use Rattle.std.specs.Prelude.{◌≡◌};
ghost use Rattle.cube_tool.specs.Command.{status_of};

use crate::command::status::Status;
use crate::fault::{RunFault, TextFault};
use cube_build::FeedingFault;
use cube_core::{QueryFault, SchemaFault};
use cube_lines::WriteFault;
use cube_live::{JournalFault, SessionFault};
use cube_merge::MergeFault;
use std::fmt;

/// Why a command failed. Its text is the line for standard error, without the line end.
#[derive(Clone, Copy, Debug, PartialEq, Eq)]
pub enum Failure {
    /// The schema file couldn't be read, or is longer than its limit.
    Unreadable,
    /// The schema is refused, or there was no memory for it.
    Schema(SchemaFault),
    /// There are more than 64 feeds.
    TooManyFeeds,
    /// Standard input, `-`, was asked for more often than it can be read.
    InputTaken,
    /// The system had no random bytes to draw a key by, under which ids and texts are hashed.
    NoRandomKey,
    /// The file of a feed couldn't be opened; its source is counted from 1.
    FeedUnreadable { source: u32 },
    /// The cell, the pattern or the dimension that was asked for is refused.
    Query(QueryFault),
    /// There is no such code to explain.
    UnknownCode,
    /// The run failed, or its text couldn't be written.
    Run(RunFault),
    /// A line of a feed was refused, where none may be: the lowest source, counted from 1, of which one is, the number of
    /// its first such record, and the code of the refusal.
    LineRefused { source: u32, number: u32, code: u8 },
    /// The whole cube has more cells than it may have.
    TooManyCells,
    /// The session ended before its input did.
    Session(SessionFault),
    /// There are more than 64 cubes to merge.
    TooManyCubes,
    /// The path of a cube to merge, counted from 1, stands at an earlier place too, or its regular file does.
    SamePath { input: usize },
    /// Cubes couldn't be merged. A cube that couldn't be opened is at fault at record 0.
    Merge(MergeFault),
}

impl Failure {
    /// The status that the program ends with.
    pub fn status(self) -> Status
        ensures { result ≡ status_of self }
    {
        match self {
            Failure::Unreadable | Failure::Schema(_) => Status::WrongSchema,
            Failure::TooManyFeeds
            | Failure::InputTaken
            | Failure::Query(_)
            | Failure::UnknownCode
            | Failure::TooManyCubes
            | Failure::SamePath { input: _ } => Status::WrongWords,
            Failure::NoRandomKey
            | Failure::FeedUnreadable { source: _ }
            | Failure::Run(_)
            | Failure::LineRefused { .. }
            | Failure::TooManyCells
            | Failure::Session(_)
            | Failure::Merge(_) => Status::Failed,
        }
    }
}

impl From<SchemaFault> for Failure {
    ghost use Rattle.std.specs.Prelude.{◌≡◌};
    ghost use Rattle.cube_tool.specs.declared.command.failure.Failure.TheVariants.{Schema};

    ghost from_gives = { λ fault failure. failure ≡ Schema fault };

    fn from(fault: SchemaFault) -> Failure {
        Failure::Schema(fault)
    }
}

impl From<QueryFault> for Failure {
    ghost use Rattle.std.specs.Prelude.{◌≡◌};
    ghost use Rattle.cube_tool.specs.declared.command.failure.Failure.TheVariants.{Query};

    ghost from_gives = { λ fault failure. failure ≡ Query fault };

    fn from(fault: QueryFault) -> Failure {
        Failure::Query(fault)
    }
}

impl From<RunFault> for Failure {
    ghost use Rattle.std.specs.Prelude.{◌≡◌};
    ghost use Rattle.cube_tool.specs.declared.command.failure.Failure.TheVariants.{Run};

    ghost from_gives = { λ fault failure. failure ≡ Run fault };

    fn from(fault: RunFault) -> Failure {
        Failure::Run(fault)
    }
}

impl From<SessionFault> for Failure {
    ghost use Rattle.std.specs.Prelude.{◌≡◌};
    ghost use Rattle.cube_tool.specs.declared.command.failure.Failure.TheVariants.{Session};

    ghost from_gives = { λ fault failure. failure ≡ Session fault };

    fn from(fault: SessionFault) -> Failure {
        Failure::Session(fault)
    }
}

impl From<FeedingFault> for Failure {
    ghost use Rattle.std.specs.Prelude.{◌≡◌};
    ghost use Rattle.cube_tool.specs.Faults.{fault_of_feeding};
    ghost use Rattle.cube_tool.specs.declared.command.failure.Failure.TheVariants.{Run};

    ghost from_gives = { λ fault failure. failure ≡ Run (fault_of_feeding fault) };

    fn from(fault: FeedingFault) -> Failure {
        Failure::Run(RunFault::from(fault))
    }
}

impl From<TextFault> for Failure {
    ghost use Rattle.std.specs.Prelude.{◌≡◌};
    ghost use Rattle.cube_tool.specs.Faults.{fault_of_text};
    ghost use Rattle.cube_tool.specs.declared.command.failure.Failure.TheVariants.{Run};

    ghost from_gives = { λ fault failure. failure ≡ Run (fault_of_text fault) };

    fn from(fault: TextFault) -> Failure {
        Failure::Run(RunFault::from(fault))
    }
}

impl From<WriteFault> for Failure {
    ghost use Rattle.std.specs.Prelude.{◌≡◌};
    ghost use Rattle.cube_tool.specs.declared.fault.RunFault.TheVariants.{Write};
    ghost use Rattle.cube_tool.specs.declared.command.failure.Failure.TheVariants.{Run};

    ghost from_gives = { λ fault failure. failure ≡ Run (Write fault.sent) };

    fn from(fault: WriteFault) -> Failure {
        Failure::Run(RunFault::Write { sent: fault.sent })
    }
}

impl fmt::Display for Failure {
    fn fmt<W: fmt::Write>(&self, f: &mut fmt::Formatter<W>) -> fmt::Result {
        f.write_str("datacube: ")?;
        match self {
            Failure::Unreadable => f.write_str("schema unreadable"),
            Failure::Schema(fault) => write!(f, "{fault}"),
            Failure::TooManyFeeds => f.write_str("too many feeds"),
            Failure::InputTaken => f.write_str("standard input is taken"),
            Failure::NoRandomKey => f.write_str("no random key"),
            Failure::FeedUnreadable { source } => write!(f, "feed {source} unreadable"),
            Failure::Query(fault) => write!(f, "{fault}"),
            Failure::UnknownCode => f.write_str("unknown code"),
            Failure::Run(fault) => write_run_fault(*fault, f),
            Failure::LineRefused {
                source,
                number,
                code,
            } => write!(f, "G7 {source} {number} {code}"),
            Failure::TooManyCells => f.write_str("G8"),
            Failure::Session(fault) => write_session_fault(*fault, f),
            Failure::TooManyCubes => f.write_str("too many cubes"),
            Failure::SamePath { input } => write!(f, "M2 {input}"),
            Failure::Merge(fault) => write_merge_fault(*fault, f),
        }
    }
}

/// Writes a fault's code, and behind it what tells where: a source with its feed's code, or a number of bytes.
fn write_run_fault<W: fmt::Write>(fault: RunFault, f: &mut fmt::Formatter<W>) -> fmt::Result {
    match fault {
        RunFault::Feed { source, fault: why } => write!(f, "{fault} {source} {why}"),
        RunFault::Unsealed { source } => write!(f, "{fault} {source}"),
        RunFault::Write { sent } => write!(f, "{fault} {sent}"),
        RunFault::Memory | RunFault::NoThread | RunFault::Full => write!(f, "{fault}"),
    }
}

/// Writes what ended a session: a code, and behind it what tells where, as of a run's faults.
fn write_session_fault<W: fmt::Write>(
    fault: SessionFault,
    f: &mut fmt::Formatter<W>,
) -> fmt::Result {
    match fault {
        SessionFault::Read => f.write_str("Q3"),
        SessionFault::TooMany(source) => write!(f, "G3 {source} F4"),
        SessionFault::Full => f.write_str("G4"),
        SessionFault::Write(sent) => write!(f, "G6 {sent}"),
        SessionFault::Journal(fault) => f.write_str(journal_code(fault)),
    }
}

/// The code of why a journal doesn't keep a change.
fn journal_code(fault: JournalFault) -> &'static str {
    match fault {
        JournalFault::Failed => "D6",
        JournalFault::NoRoom => "D7",
        JournalFault::Memory => "D8",
    }
}

/// Writes a fault's code, and behind it what tells where: an input with its record, which 0 isn't, or a number of bytes.
fn write_merge_fault<W: fmt::Write>(fault: MergeFault, f: &mut fmt::Formatter<W>) -> fmt::Result {
    match fault {
        MergeFault::Memory => f.write_str("M1"),
        MergeFault::Aggregates => f.write_str("M4"),
        MergeFault::Input {
            fault: why,
            input,
            record: 0,
        } => write!(f, "{why} {input}"),
        MergeFault::Input {
            fault: why,
            input,
            record: number,
        } => write!(f, "{why} {input} {number}"),
        MergeFault::Write { sent } => write!(f, "G6 {sent}"),
    }
}
