//! A cell with its key, read where they lie.
ghost use Rattle.std.specs.Prelude.{◌≡◌, ◌<◌, ◌≤◌, [], List, length, get_or, IsTrue, IfOk};
ghost use Rattle.cube_core.specs.Answer.{IsAnswer};
ghost use Rattle.cube_core.specs.Layout.{is_aggregate_of};
ghost use Rattle.cube_core.specs.Referred.{referred_coord};
ghost use Rattle.cube_core.specs.declared.fact.Fact.{Fact};
ghost use Rattle.cube_core.specs.declared.key.Coord.TheVariants as coord;
ghost use Rattle.cube_cells.specs.Codes.{coord_at};
ghost use Rattle.cube_cells.specs.Tally.{IsTallyOf};

use super::codes::Codes;
use super::dictionary::Dictionary;
use crate::cell::Cell;
use cube_core::{Agg, Answer, CoordRef};
use std::alloc::AllocError;
use std::marker::Model;

/// A cell and its key. No text is copied, and no answer is kept.
#[derive(Drop)]
pub struct KeyedCell<'c> {
    pub(super) dictionaries: &'c [Dictionary],
    pub(super) codes: &'c Codes,
    pub(super) cell: &'c Cell,
}

impl<'c> Model for KeyedCell<'c> {
    ghost use Rattle.std.specs.Prelude.{◌≤◌, length};
    ghost use Rattle.cube_core.specs.declared.key.Key.{Key};
    ghost use Rattle.cube_cells.specs.Codes.{key_at};
    ghost use Rattle.cube_cells.specs.Tally.{Tally};

    ghost Value = { Key × Tally };

    ghost view = { λ k. (key_at k.dictionaries.now k.codes.now.codes, k.cell.now) };

    ghost invariant = { λ k. length k.dictionaries.now ≤ 8 };
}

impl<'c> KeyedCell<'c> {
    /// How many coordinates the key has.
    pub fn dimensions(&self) -> usize
        ensures { result ≡ length self.now.0.coords }
    {
        self.dictionaries.len()
    }

    /// The coordinate of the key in a dimension, counted from 0.
    pub fn coord(&self, dimension: usize) -> CoordRef<'c>
        requires { dimension < length self.now.0.coords }
        ensures { referred_coord result ≡ get_or self.now.0.coords dimension coord.All }
    {
        coord_in(self.dictionaries, self.codes, dimension)
    }

    /// The answer of an aggregate over any facts that the cell is the tally of. The only error is that memory ran out.
    pub fn answer(&self, aggregate: &Agg) -> Result<Answer, AllocError>
        requires { IsTrue (is_aggregate_of (length self.now.1.bags) aggregate.now) }
        ensures { IfOk result (λ answer. (facts : List Fact) → IsTallyOf facts self.now.1 →
            IsAnswer facts aggregate.now answer) }
    {
        self.cell.try_answer(aggregate)
    }
}

// The coordinate of codes in a dimension.
fn coord_in<'d>(dictionaries: &'d [Dictionary], codes: &Codes, dimension: usize) -> CoordRef<'d>
    requires few { length dictionaries.now ≤ 8 }
    requires within { dimension < length dictionaries.now }
    ensures coord { referred_coord result ≡
        coord_at (get_or dictionaries.now dimension []) (get_or codes.now.codes dimension 0) }
    ensures eight { length codes.now.codes ≡ 8 }
{
    dictionaries[dimension].coord_ref_at(codes.codes[dimension])
}
