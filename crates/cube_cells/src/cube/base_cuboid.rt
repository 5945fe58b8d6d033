//! The base cuboid of some facts, with as much of their values as the aggregates of its schema need.
ghost use Rattle.std.specs.Prelude.{◌≡◌, ◌<◌, List, IfOk, length};
ghost use Rattle.cube_core.specs.Query.{AreRowsWhere, drill_fault, drills_down, matches, rolled_up};
ghost use Rattle.cube_core.specs.declared.fact.Fact.{Fact};
ghost use Rattle.cube_cells.specs.BaseCuboid.{cells_of_cuboid};
ghost use Rattle.cube_cells.specs.Count.{HasCells};
ghost use Rattle.cube_cells.specs.Fill.{IsCubeOfAll};
ghost use Rattle.cube_cells.specs.Rows.{GivesUnless, IsRowOver};

use super::finest_cells::FinestCells;
use cube_core::{Key, Pattern, QueryFault, Row, Schema};
use cube_values::{Counted, Summary};
use std::alloc::AllocError;

/// The finest cells of some facts: the base cuboid of their cube (Gray et al. 1997). Where an aggregate of the schema is
/// holistic they keep each number, and else a summary.
#[derive(Drop)]
pub enum BaseCuboid {
    /// With a summary of the values of each measure.
    Summaries(FinestCells<Summary>),
    /// With each value of each measure.
    Numbers(FinestCells<Counted>),
}

impl BaseCuboid {
    /// The schema of the facts.
    pub fn schema(&self) -> &Schema
        ensures { result.now ≡ (cells_of_cuboid self.now).schema }
    {
        match self {
            BaseCuboid::Summaries(cells) => cells.schema(),
            BaseCuboid::Numbers(cells) => cells.schema(),
        }
    }

    /// How many cells the cube of the facts has over all grouping sets of the schema; none of them is kept. The only error is
    /// that memory ran out, or numbers to count the facts or the cells with.
    pub fn count_cells(&self) -> Result<u64, AllocError>
        ensures { IfOk result (λ number. (facts : List Fact) → IsCubeOfAll facts (cells_of_cuboid self.now) →
            HasCells (cells_of_cuboid self.now).schema facts number) }
    {
        match self {
            BaseCuboid::Summaries(cells) => cells.count_cells(),
            BaseCuboid::Numbers(cells) => cells.count_cells(),
        }
    }

    /// The rows of the cube of the facts, over all grouping sets of the schema, whose keys a pattern matches, in key order.
    /// The only error is that memory ran out, or numbers to count the facts with.
    pub fn slice(&self, pattern: &Pattern) -> Result<Vec<Row>, AllocError>
        ensures { IfOk result (λ rows. (facts : List Fact) → IsCubeOfAll facts (cells_of_cuboid self.now) →
            AreRowsWhere (matches pattern.now) (cells_of_cuboid self.now).schema.grouping_sets
            (length (cells_of_cuboid self.now).schema.dimensions)
            (cells_of_cuboid self.now).schema.aggregates facts rows.items) }
    {
        match self {
            BaseCuboid::Summaries(cells) => cells.slice(pattern),
            BaseCuboid::Numbers(cells) => cells.slice(pattern),
        }
    }

    /// The row of a key with ALL in a dimension, counted from 0; `None` exactly where that is no cell of the cube of the
    /// facts, as where its grouping set isn't one of the schema's. The only error is that memory ran out, or numbers to
    /// count the facts with.
    pub fn roll_up(&self, key: &Key, dim: usize) -> Result<Option<Row>, AllocError>
        requires dim { dim < length (cells_of_cuboid self.now).schema.dimensions }
        requires width { length key.now.coords ≡ length (cells_of_cuboid self.now).schema.dimensions }
        ensures { IfOk result (λ row. (facts : List Fact) → IsCubeOfAll facts (cells_of_cuboid self.now) →
            IsRowOver (cells_of_cuboid self.now).schema.grouping_sets
            (length (cells_of_cuboid self.now).schema.dimensions)
            (cells_of_cuboid self.now).schema.aggregates facts (rolled_up dim key.now) row) }
    {
        match self {
            BaseCuboid::Summaries(cells) => cells.roll_up(key, dim),
            BaseCuboid::Numbers(cells) => cells.roll_up(key, dim),
        }
    }

    /// The rows of the cube of the facts whose keys drill down from a key along a dimension, counted from 0: ALL there is
    /// replaced by a value or null. They come in key order.
    ///
    /// The error is `NotRolled` exactly where the key isn't ALL in the dimension, else `NotGrouped` where the key's
    /// grouping set with the dimension isn't one of the schema's, else `Memory`, also where numbers to count the facts with
    /// run out.
    pub fn drill_down(&self, key: &Key, dim: usize) -> Result<Vec<Row>, QueryFault>
        requires dim { dim < length (cells_of_cuboid self.now).schema.dimensions }
        requires width { length key.now.coords ≡ length (cells_of_cuboid self.now).schema.dimensions }
        ensures { GivesUnless (drill_fault (cells_of_cuboid self.now).schema.grouping_sets dim key.now)
            (λ rows. (facts : List Fact) → IsCubeOfAll facts (cells_of_cuboid self.now) →
            AreRowsWhere (drills_down dim key.now) (cells_of_cuboid self.now).schema.grouping_sets
            (length (cells_of_cuboid self.now).schema.dimensions)
            (cells_of_cuboid self.now).schema.aggregates facts rows.items) result }
    {
        match self {
            BaseCuboid::Summaries(cells) => cells.drill_down(key, dim),
            BaseCuboid::Numbers(cells) => cells.drill_down(key, dim),
        }
    }
}
