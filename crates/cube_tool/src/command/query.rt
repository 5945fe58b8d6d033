//! The words of a query: a pattern, a cell, and the name of a dimension.
ghost use Rattle.std.specs.Prelude.{◌≡◌, ◌<◌, length, IfOk};
ghost use Rattle.cube_core.specs.Layout.{number_of_dimensions};
ghost use Rattle.cube_core.specs.Query.{pattern_of, place_of};
ghost use Rattle.cube_tool.specs.Command.{AnswersQuery, answer_of, key_of_word};

use crate::command::failure::Failure;
use cube_core::{Key, Pattern, Schema};
use std::alloc::Global;

/// The pattern that a word spells; the failure is its fault, or out of memory.
pub fn read_pattern(alloc: Global, schema: &Schema, word: &str) -> Result<Pattern, Failure>
    ensures { AnswersQuery (pattern_of schema.now word.now) result }
{
    match Pattern::parse(alloc, schema, word) {
        Ok(pattern) => Ok(pattern),
        Err(fault) => Err(Failure::Query(fault)),
    }
}

/// The cell that a word spells, a coordinate for each dimension of the cube; the failure is its fault, or out of memory.
pub fn read_cell(alloc: Global, schema: &Schema, word: &str) -> Result<Key, Failure>
    ensures cell { AnswersQuery (key_of_word schema.now word.now) result }
    ensures width { IfOk result
        (λ key. length key.coords ≡ number_of_dimensions schema.now) }
{
    let pattern = read_pattern(alloc, schema, word)?;
    match pattern.cell(alloc) {
        Ok(key) => Ok(key),
        Err(fault) => Err(Failure::Query(fault)),
    }
}

/// The place of the dimension of the cube with this name, counted from 0; the failure is that there is none.
pub fn read_dimension(schema: &Schema, name: &str) -> Result<usize, Failure>
    ensures place { result ≡ answer_of (place_of schema.now name.now) }
    ensures within { IfOk result (λ place. place < number_of_dimensions schema.now) }
{
    match schema.dimension_of(name) {
        Ok(place) => Ok(place),
        Err(fault) => Err(Failure::Query(fault)),
    }
}
