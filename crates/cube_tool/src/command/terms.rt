//! On what terms a question is asked of feeds.
ghost use Rattle.std.specs.Prelude.{◌≡◌};
ghost use Rattle.std.specs.Option.{ok_or};
ghost use Rattle.cube_core.specs.Conditions.{condition_of};
ghost use Rattle.cube_core.specs.declared.query.QueryFault.TheVariants as fault;
ghost use Rattle.cube_tool.specs.Command.{AnswersQuery};

use crate::command::failure::Failure;
use cube_core::{Condition, Schema};
use std::alloc::Global;

/// On what terms a question is asked of feeds.
#[derive(Drop)]
pub struct Terms {
    /// What holds of the facts that count; where there is none, all facts do.
    pub conditions: Vec<Condition>,
    /// Whether a refused line is a failure.
    pub is_strict: bool,
    /// How many cells the cube of the facts that count may have over all grouping sets; where it is none, any number.
    pub max_cells: Option<u64>,
}

/// The condition that a word spells under a schema; the failure is `P8` where it spells none, or out of memory.
pub fn read_condition(alloc: Global, schema: &Schema, word: &str) -> Result<Condition, Failure>
    ensures { AnswersQuery (ok_or (condition_of schema.now word.now) fault.Condition) result }
{
    match cube_feed::read_condition(alloc, schema, word) {
        Ok(condition) => Ok(condition),
        Err(fault) => Err(Failure::Query(fault)),
    }
}
