//! What a feed says: changes of facts, and the faults of its lines.
ghost use Rattle.std.specs.Prelude.{◌≡◌, IfOk};

use crate::fact::Fact;
use crate::partial::Partial;
use crate::text::Text;
use std::alloc::{AllocError, Global};
use thiserror::Error;

/// A change of the facts of one source, each known by an id of the source's own.
#[derive(Debug, Drop)]
pub enum Change {
    /// Puts a fact under an id that is absent.
    Insert { id: Text, fact: Fact },
    /// Puts a fact in place of the one under an id that is present.
    Update { id: Text, fact: Fact },
    /// Puts some values in place of those of the fact under an id that is present; feeds of version 2 alone.
    Amend { id: Text, part: Partial },
    /// Puts a fact under an id, whether or not one is there; feeds whose columns are known by name alone.
    Upsert { id: Text, fact: Fact },
    /// Takes the fact of an id that is present away.
    Delete { id: Text },
    /// Takes the fact of an id away, if one is there; feeds whose columns are known by name alone.
    Remove { id: Text },
}

/// Why a record of a feed spells no change. The text of each is its code.
#[derive(Clone, Copy, Debug, PartialEq, Eq, Error)]
pub enum LineFault {
    /// The first field is none of the operations.
    #[error("L1")]
    Op,
    /// The number of fields is wrong.
    #[error("L2")]
    Fields,
    /// A field that is used isn't UTF-8.
    #[error("L3")]
    Text,
    /// The id is empty.
    #[error("L4")]
    Id,
    /// A measure is neither null nor a number.
    #[error("L5")]
    Measure,
    /// A field of an insert or of an upsert keeps a value, and there is none to keep.
    #[error("L6")]
    Keep,
}

/// An item of a feed: the number of its record, from 1, and the change that the record spells.
#[derive(Debug, Drop)]
pub struct Item {
    pub number: u32,
    pub what: Result<Change, LineFault>,
}

/// A refused item: the number of its record and the code of the refusal.
#[derive(Clone, Copy, Debug, PartialEq, Eq)]
pub struct Refusal {
    pub number: u32,
    pub code: u8,
}

impl Change {
    /// A copy; the only error is that memory ran out.
    pub(crate) fn copy(&self, alloc: Global) -> Result<Change, AllocError>
        ensures { IfOk result (λ copy. copy ≡ self.now) }
    {
        match self {
            Change::Insert { id, fact } => {
                let (id, fact) = copy_under(alloc, id, fact)?;
                Ok(Change::Insert { id, fact })
            }
            Change::Update { id, fact } => {
                let (id, fact) = copy_under(alloc, id, fact)?;
                Ok(Change::Update { id, fact })
            }
            Change::Amend { id, part } => Ok(Change::Amend {
                id: id.copy(alloc)?,
                part: part.copy(alloc)?,
            }),
            Change::Upsert { id, fact } => {
                let (id, fact) = copy_under(alloc, id, fact)?;
                Ok(Change::Upsert { id, fact })
            }
            Change::Delete { id } => Ok(Change::Delete {
                id: id.copy(alloc)?,
            }),
            Change::Remove { id } => Ok(Change::Remove {
                id: id.copy(alloc)?,
            }),
        }
    }
}

// A copy of an id and of the fact under it.
fn copy_under(alloc: Global, id: &Text, fact: &Fact) -> Result<(Text, Fact), AllocError>
    ensures { IfOk result (λ copies. (copies.0 ≡ id.now) × (copies.1 ≡ fact.now)) }
{
    let id = id.copy(alloc)?;
    let fact = fact.copy(alloc)?;
    Ok((id, fact))
}

impl Item {
    /// A copy; the only error is that memory ran out.
    pub fn copy(&self, alloc: Global) -> Result<Item, AllocError>
        ensures { IfOk result (λ copy. copy ≡ self.now) }
    {
        let what = match &self.what {
            Ok(change) => Ok(change.copy(alloc)?),
            Err(fault) => Err(*fault),
        };
        Ok(Item {
            number: self.number,
            what,
        })
    }
}
