//! On what terms a command asks its question, as its words say it.
use cube_core::{QueryFault, Schema};
use cube_tool::command::{Failure, Terms, read_condition};

/// The terms that words set under a schema: the conditions that they spell, whether a refused line is a failure, and how many
/// cells the cube may have.
pub(crate) fn terms_of(
    rt: &HostRuntime,
    schema: &Schema,
    words: &[&str],
    is_strict: bool,
    max_cells: Option<u64>,
) -> Result<Terms, Failure> {
    let alloc = rt.alloc();
    let mut conditions = Vec::new(alloc);
    for word in words {
        let condition = read_condition(alloc, schema, word)?;
        if conditions.push(condition).is_err() {
            return Err(Failure::Query(QueryFault::Memory));
        }
    }
    Ok(Terms {
        conditions,
        is_strict,
        max_cells,
    })
}
