//! What an item comes to.
use cube_core::{Fact, Text};

/// What an item comes to in the account of its source: it is refused with a code, a fact is put under an id, or the
/// fact under an id is taken out.
#[derive(Debug, Drop)]
pub enum Ruling {
    Refuse { code: u8 },
    Put { id: Text, fact: Fact },
    Take { id: Text },
}
