//! Where a session's changes are kept, should it be ended by what isn't foreseen.
ghost use Rattle.std.specs.Prelude.{OnOk, OnErr};
ghost use Rattle.csv.specs.Records.{fields_of};
ghost use Rattle.cube_live.specs.Keeping.{Keeping, KeepsOn, made_sure, with_change};

use csv::ByteRecord;

/// Why a journal doesn't keep a change.
#[derive(Clone, Copy, Debug, PartialEq, Eq)]
pub enum JournalFault {
    /// It couldn't be read or written.
    Failed,
    /// There was no room for it.
    NoRoom,
    /// A growth was refused.
    Memory,
}

/// What keeps the changes of a session: it is told of each before the change is applied, and makes sure of all that it was
/// told of before an answer is written and at the end.
pub trait Journal {
    // From the first value on to the second it was told of these changes, and has made sure of so many of them.
    ghost keeps: { Self → Self → Keeping → Type 0 };

    // The same, but that a call on it failed, by which it may not have been told of the last of them.
    ghost breaks: { Self → Self → Keeping → Type 0 };

    /// Takes the change of a source, 1 to 64: the fields of its record, of which the first names the source.
    fn note(&mut self, source: u32, fields: &ByteRecord) -> Result<(), JournalFault>
        ensures ok { OnOk result (KeepsOn keeps keeps self.old (λ k. with_change k source (fields_of fields.now)) self.new) }
        ensures err { OnErr result (KeepsOn keeps breaks self.old (λ k. with_change k source (fields_of fields.now)) self.new) };

    /// Makes sure of all changes that it took. What it was sure of before it stays sure of.
    fn settle(&mut self) -> Result<(), JournalFault>
        ensures ok { OnOk result (KeepsOn keeps keeps self.old made_sure self.new) }
        ensures still { OnOk result (KeepsOn keeps keeps self.old (λ k. k) self.new) }
        ensures err { OnErr result (KeepsOn keeps breaks self.old (λ k. k) self.new) };
}

/// Keeps nothing.
#[derive(Clone, Copy, Debug)]
pub struct NoJournal;

impl Journal for NoJournal {
    ghost keeps = { λ _ _ _. Unit {0} };

    ghost breaks = { λ _ _ _. Unit {0} };

    fn note(&mut self, source: u32, fields: &ByteRecord) -> Result<(), JournalFault> {
        let _ = source;
        let _ = fields;
        Ok(())
    }

    fn settle(&mut self) -> Result<(), JournalFault> {
        Ok(())
    }
}
