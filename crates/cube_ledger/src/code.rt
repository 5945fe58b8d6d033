//! The codes of refusals.
ghost use Rattle.std.specs.Prelude.{◌≡◌, ◌==◌, ◌&&◌, true, length};
ghost use Rattle.cube_core.specs.Layout.{Layout};
ghost use Rattle.cube_core.specs.Takes.{may_amend, takes};
ghost use Rattle.cube_core.specs.Life.{id_of};
ghost use Rattle.cube_core.specs.Refusals.{present_code, absent_code, shape_code, code_of_fault, code_by_presence};
ghost use Rattle.cube_feed.specs.FeedItems.{SomeSchemaTakes};
ghost use Rattle.cube_ledger.specs.Ledger.{says_taken};

use cube_core::{Change, LineFault, Schema, Text};

/// The code of a change that the schema doesn't take.
pub fn shape_code(schema: &Schema) -> u8
    ensures { result ≡ shape_code schema.now }
{
    if may_amend(schema) { 9 } else { 8 }
}

/// Whether the schema takes the change that an item says; a line fault says none.
pub fn says_taken(schema: &Schema, what: &Result<Change, LineFault>) -> bool
    ensures { result ≡ says_taken schema.now what.now }
{
    match what {
        Ok(change) => schema.takes(change),
        Err(_) => true,
    }
}

/// The same of an item whose texts are lawful, since some schema takes its change: only its numbers of fields are looked
/// at, and whether it amends, upserts or removes.
pub fn has_shape(schema: &Schema, what: &Result<Change, LineFault>) -> bool
    requires { SomeSchemaTakes what.now }
    ensures { result ≡ says_taken schema.now what.now }
{
    match what {
        Ok(change) => is_of_shape(schema, change),
        Err(_) => true,
    }
}

// Whether the schema takes a change that some schema takes.
fn is_of_shape(schema: &Schema, change: &Change) -> bool
    requires { (other : Layout) × (takes other change.now ≡ true) }
    ensures { result ≡ takes schema.now change.now }
{
    match change {
        Change::Insert { id: _, fact } => has_fields(schema, fact.dims.len(), fact.measures.len()),
        Change::Update { id: _, fact } => has_fields(schema, fact.dims.len(), fact.measures.len()),
        Change::Amend { id: _, part } => {
            may_amend(schema) && has_fields(schema, part.dims.len(), part.measures.len())
        }
        Change::Upsert { id: _, fact } => {
            schema.may_upsert() && has_fields(schema, fact.dims.len(), fact.measures.len())
        }
        Change::Delete { id: _ } => true,
        Change::Remove { id: _ } => schema.may_upsert(),
    }
}

// Whether a schema has so many dimensions, and so many measures.
fn has_fields(schema: &Schema, dimensions: usize, measures: usize) -> bool
    ensures { result ≡ (dimensions == length schema.now.dimensions) && (measures == length schema.now.measures) }
{
    dimensions == schema.dimensions().len() && measures == schema.measures().len()
}

/// The code of a line fault.
pub fn code_of_fault(schema: &Schema, fault: LineFault) -> u8
    ensures { result ≡ code_of_fault schema.now fault }
{
    match fault {
        LineFault::Op => 1,
        LineFault::Fields => 2,
        LineFault::Text => 3,
        LineFault::Id => 4,
        LineFault::Measure => 5,
        LineFault::Keep => keep_code(schema),
    }
}

/// The code of a change of an id that is present or absent, `None` where it is taken.
pub fn code_by_presence(schema: &Schema, change: &Change, present: bool) -> Option<u8>
    ensures { result ≡ code_by_presence schema.now change.now present }
{
    match (change, present) {
        (Change::Insert { .. }, false) => None,
        (Change::Insert { .. }, true) => Some(present_code(schema)),
        (Change::Upsert { .. }, _) => None,
        (Change::Remove { .. }, _) => None,
        (_, true) => None,
        (_, false) => Some(absent_code(schema)),
    }
}

/// The id that a change names.
pub fn id_of(change: &Change) -> &Text
    ensures { result.now ≡ id_of change.now }
{
    match change {
        Change::Insert { id, .. } => id,
        Change::Update { id, .. } => id,
        Change::Amend { id, .. } => id,
        Change::Upsert { id, .. } => id,
        Change::Delete { id } => id,
        Change::Remove { id } => id,
    }
}

fn may_amend(schema: &Schema) -> bool
    ensures { result ≡ may_amend schema.now }
{
    schema.version() == 2
}

/// The code of an insert of an id that is present.
pub fn present_code(schema: &Schema) -> u8
    ensures { result ≡ present_code schema.now }
{
    if may_amend(schema) { 7 } else { 6 }
}

/// The code of an update, an amendment or a delete of an id that is absent.
pub fn absent_code(schema: &Schema) -> u8
    ensures { result ≡ absent_code schema.now }
{
    if may_amend(schema) { 8 } else { 7 }
}

fn keep_code(schema: &Schema) -> u8
    ensures { result ≡ code_of_fault schema.now LineFault.Keep }
{
    if may_amend(schema) { 6 } else { 8 }
}
