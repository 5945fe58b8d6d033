//! The builders of a run, with the links by which the feeds came, and queries of all their cubes.
ghost use Rattle.std.specs.Prelude.{◌≡◌, ◌<◌, [], List, length, map, slice_index_or, IfOk};
ghost use Rattle.cube_core.specs.Cube.{AreRows};
ghost use Rattle.cube_core.specs.Layout.{cube_schema, number_of_dimensions};
ghost use Rattle.cube_core.specs.Query.{matches, drills_down, drill_fault, rolled_up};
ghost use Rattle.cube_core.specs.declared.key.Row.{Row};
ghost use Rattle.cube_cells.specs.Count.{HasCells};
ghost use Rattle.cube_cells.specs.Rows.{AreRowsInOrder, GivesUnless};
ghost use Rattle.cube_build.specs.Parts.{AreParts, AreRowsOfRun, IsRowOfRun, counted_of_run, schema_of_run, facts_of_run};

use crate::counts::Counts;
use crate::joined::{DrillDown, Slice, count_parts, ordered_parts, row_above, rows_of_parts};
use crate::making::{Links, Making};
use cube_cells::OrderedCells;
use cube_core::{Key, Pattern, QueryFault, Row, Schema};
use cube_rings::LotInlet;
use std::alloc::AllocError;
use std::marker::Model;

/// What the builders of a run counted, each over the grouping sets of its part, with their inlets, from which all was taken.
///
/// There is at least one, and their cubes are the parts of one cube: that of the facts in the books of builder 0, over
/// all grouping sets of their schema. The queries answer as that cube would. Where the feeds need no book, contracts alone
/// see the books.
#[derive(Drop)]
pub struct Built {
    builders: Vec<Counts>,
    links: Vec<Links>,
}

impl Model for Built {
    ghost use Rattle.std.specs.Prelude.{map};
    ghost use Rattle.cube_build.specs.Parts.{BuiltView, AreParts};

    ghost Value = { BuiltView };

    ghost view = { λ b. record {
      builders = b.builders.items;
      inlets = map (λ links. links.inlets.items) b.links.items;
    } };

    ghost invariant = { λ b. AreParts b.builders.items };
}

impl Built {
    /// The builders that were made.
    pub(crate) fn of(making: Making) -> Built
        requires { AreParts making.builders.items }
        ensures builders { result.builders ≡ making.builders.items }
        ensures inlets { result.inlets ≡ map (λ links. links.inlets.items) making.links.items }
    {
        Built {
            builders: making.builders,
            links: making.links,
        }
    }

    /// What was counted of part 0.
    pub fn builder(&self) -> &Counts
        ensures { result.now ≡ slice_index_or self.now.builders 0 result.now }
    {
        &self.builders[0]
    }

    /// What was counted of the parts, in their order.
    pub fn builders(&self) -> &[Counts]
        ensures builders { result.now ≡ self.now.builders }
        ensures parts { AreParts result.now }
    {
        self.builders.as_slice()
    }

    // The schema of the run.
    fn schema(&self) -> &Schema
        ensures { result.now ≡ schema_of_run self.now }
    {
        self.builders()[0].refused().schema()
    }

    /// The inlets of a builder, counted from 0; inlet s - 1 is source s.
    pub fn inlets(&self, builder: usize) -> &[LotInlet]
        requires { builder < length self.now.inlets }
        ensures { result.now ≡ slice_index_or self.now.inlets builder [] }
    {
        self.links[builder].inlets.as_slice()
    }

    /// How many cells the cube has. The only error is that numbers to count them with ran out.
    pub fn count_cells(&self) -> Result<u64, AllocError>
        ensures { IfOk result
            (HasCells (cube_schema (schema_of_run self.now)) (counted_of_run self.now)) }
    {
        count_parts(self.builders())
    }

    /// The cells of all parts in key order, for rows that are made one at a time. The only error is that memory ran out.
    pub fn ordered(&self) -> Result<OrderedCells<'_>, AllocError>
        ensures { IfOk result (λ ordered. (rows : List Row) → AreRowsInOrder ordered rows →
            AreRows (schema_of_run self.now) (facts_of_run self.now) rows) }
    {
        ordered_parts(self.builders())
    }

    /// The rows of all parts whose keys a pattern matches, in key order. The only error is that memory ran out.
    pub fn slice(&self, pattern: &Pattern) -> Result<Vec<Row>, AllocError>
        ensures { IfOk result (λ rows.
            AreRowsOfRun (matches pattern.now) self.now rows.items) }
    {
        rows_of_parts(self.builders(), &Slice { pattern })
    }

    /// The row of a key with ALL in a dimension, counted from 0, by a look-up in each part; `None` exactly where that is
    /// no cell, as where its grouping set isn't one of the schema's. The only error is that memory ran out.
    pub fn roll_up(&self, key: &Key, dim: usize) -> Result<Option<Row>, AllocError>
        requires dim { dim < number_of_dimensions (schema_of_run self.now) }
        requires width { length key.now.coords ≡ number_of_dimensions (schema_of_run self.now) }
        ensures { IfOk result (IsRowOfRun (rolled_up dim key.now) self.now) }
    {
        row_above(self.builders(), key, dim)
    }

    /// The rows of all parts whose keys drill down from a key along a dimension, counted from 0, in key order.
    ///
    /// The error is `NotRolled` exactly where the key isn't ALL in the dimension, else `NotGrouped` where the key's
    /// grouping set with the dimension isn't one of the schema's, both before any growth, else `Memory`.
    pub fn drill_down(&self, key: &Key, dim: usize) -> Result<Vec<Row>, QueryFault>
        requires dim { dim < number_of_dimensions (schema_of_run self.now) }
        requires width { length key.now.coords ≡ number_of_dimensions (schema_of_run self.now) }
        ensures { GivesUnless (drill_fault (schema_of_run self.now).grouping_sets dim key.now)
            (λ rows. AreRowsOfRun (drills_down dim key.now) self.now rows.items) result }
    {
        if let Some(fault) = self.schema().drill_fault(key, dim) {
            return Err(fault);
        }
        let rows = rows_of_parts(self.builders(), &DrillDown { key, dim })?;
        Ok(rows)
    }
}
