//! The finest cells of some facts in key order: all that a walk over their whole cube wants.
ghost use Rattle.std.specs.Prelude.{◌≡◌, ◌<◌, ◌≤◌, ◌^◌, ◌∷◌, [], true, All, List, get_or, length, IfOk, OnOk};
ghost use Rattle.std.specs.Cmp.Lexicographic.{slice_cmp};
ghost use Rattle.std.specs.List.Sorted.{IsPermutation, IsSortedBy};
ghost use Rattle.std.specs.Ordering.{is_lt, nat_cmp};
ghost use Rattle.cube_core.specs.Layout.{all_suffice};
ghost use Rattle.cube_core.specs.Referred.{referred_coord};
ghost use Rattle.cube_core.specs.declared.fact.Fact.{Fact};
ghost use Rattle.cube_core.specs.declared.key.Coord.TheVariants as coord;
ghost use Rattle.cube_cells.specs.BottomUp.{TakesCube, TakesSets, cells_of_items};
ghost use Rattle.cube_cells.specs.Codes.{coord_at, key_at};
ghost use Rattle.cube_cells.specs.Count.{HasCells};
ghost use Rattle.cube_cells.specs.Fill.{IsCubeOfAll, finest_set};
ghost use Rattle.cube_cells.specs.Ranking.{ranked_cells, ranked_dictionaries};

use super::Cube;
use super::bottom_up::{Item, TakesCells, kept_masks, take_if_kept, walk};
use super::cell_count::CellCount;
use super::codes::Codes;
use super::levels::Cells;
use super::ranks::{RankedTexts, all_ranked, ranked_codes};
use super::sorted_texts::SortedTexts;
use super::sorting::put_in_order;
use super::walk_parts::RaisedCells;
use crate::cell::Cell;
use cube_core::{CoordRef, Schema};
use cube_values::Numbers;
use std::alloc::{AllocError, Global};
use std::marker::Model;
use std::thread::Threads;

/// The cells of some facts over the finest grouping set, in key order. A walk over them hands over the cells of all grouping
/// sets of their schema, and no other cell is kept. Where an aggregate of the schema is holistic, each number is kept.
#[derive(Drop)]
pub struct FinestCells<N: Numbers> {
    pub(super) alloc: Global,
    pub(super) schema: Schema,
    facts: u64,
    pub(super) texts: Vec<SortedTexts>,
    items: Vec<Item<N>>,
}

impl<N: Numbers> Model for FinestCells<N> {
    ghost use Rattle.std.specs.Prelude.{◌≡◌, ◌∷◌, [], true, length};
    ghost use Rattle.cube_core.specs.Layout.{all_suffice};
    ghost use Rattle.cube_cells.specs.BottomUp.{AreToWalk, cells_of_items};
    ghost use Rattle.cube_cells.specs.Coded.{lattice_of};
    ghost use Rattle.cube_cells.specs.Cube.{Lattice};
    ghost use Rattle.cube_cells.specs.Fill.{finest_set};

    ghost Value = { Lattice };

    ghost view = { λ c. lattice_of c.schema (finest_set (length c.schema.dimensions) ∷ []) c.facts c.texts.items
        (cells_of_items c.items.items) };

    ghost invariant = { λ c. AreToWalk c.schema c.facts c.texts.items (cells_of_items c.items.items)
        × (all_suffice N.keeps c.schema ≡ true) };
}

impl<N: Numbers> FinestCells<N> {
    /// The cells of a cube over the finest grouping set alone, with the texts of each dimension put in their order, by as many
    /// threads as this says. With one thread, or none, no thread is started. The only error is that memory ran out.
    pub fn of<T: Threads + Sync>(
        rt: &T,
        threads: usize,
        finest: Cube<N>,
    ) -> Result<FinestCells<N>, AllocError>
    where
        N: Send + Sync,
        requires sets { finest.sets ≡ finest_set (length finest.schema.dimensions) ∷ [] }
        requires facts { (facts : List Fact) × IsCubeOfAll facts finest }
        requires numbers { all_suffice N.keeps finest.schema ≡ true }
        ensures schema { IfOk result (λ cells. cells.schema ≡ finest.schema) }
        ensures facts { IfOk result (λ cells.
            (facts : List Fact) → IsCubeOfAll facts finest → IsCubeOfAll facts cells) }
    {
        let Cube {
            schema,
            facts,
            dictionaries,
            mut levels,
            alloc,
            ..
        } = finest;
        let level = levels.remove(0);
        let ranked = all_ranked(alloc, dictionaries)?;
        let items = items_in_order(rt, threads, alloc, &ranked, level.cells)?;
        let texts = sorted_texts(alloc, ranked)?;
        Ok(FinestCells {
            alloc,
            schema,
            facts,
            texts,
            items,
        })
    }

    /// The schema of the facts, of which each aggregate can be answered by what the cells keep. No text of it is
    /// counted: the facts have a number for each.
    pub fn schema(&self) -> &Schema
        ensures schema { result.now ≡ self.now.schema }
        ensures numbers { all_suffice N.keeps result.now ≡ true }
        ensures no_texts { result.now.text_places ≡ [] }
    {
        &self.schema
    }

    /// How many dimensions there are, each with its texts.
    pub fn dimensions(&self) -> usize
        ensures { result ≡ length self.now.dictionaries }
    {
        self.texts.len()
    }

    /// The texts of a dimension, counted from 0, in their order: the place of each is its code.
    pub fn texts(&self, dimension: usize) -> &SortedTexts
        requires { dimension < length self.now.dictionaries }
        ensures { result.now ≡ get_or self.now.dictionaries dimension [] }
    {
        &self.texts[dimension]
    }

    /// The coordinate of codes in a dimension, counted from 0.
    pub fn coord(&self, codes: &Codes, dimension: usize) -> CoordRef<'_>
        requires { dimension < length self.now.dictionaries }
        ensures { referred_coord result ≡
            get_or (key_at self.now.dictionaries codes.now.codes).coords dimension coord.All }
    {
        coord_of(&self.texts, codes, dimension)
    }

    /// How many facts these are the cells of.
    pub fn facts(&self) -> u64
        ensures { result ≡ self.now.facts }
    {
        self.facts
    }

    /// These cells, with what the parts of a walk over their cube go over, made by as many threads as this says. With one
    /// thread, or none, no thread is started. The only error is that memory ran out.
    pub fn raised<T: Threads + Sync>(
        &self,
        rt: &T,
        threads: usize,
    ) -> Result<RaisedCells<'_, N>, AllocError>
    where
        N: Send + Sync,
        requires some { 0 < self.now.facts }
        ensures { IfOk result (λ raised. raised ≡ self.now) }
    {
        let dimensions = self.schema.dimensions().len();
        let kept = kept_masks(self.alloc, dimensions, self.schema.grouping_sets())?;
        RaisedCells::of(rt, threads, self.alloc, self, &self.items, kept)
    }

    /// Hands the cells of the cube of the facts over all grouping sets of the schema over, in key order. The only error is
    /// that memory ran out, or numbers to count the facts with.
    pub fn walk<S: TakesCells<N>>(&self, sink: &mut S) -> Result<(), AllocError>
        ensures { OnOk result (TakesCube S.takes self.now sink.old sink.new) }
    {
        self.walk_sets(self.schema.grouping_sets(), sink)
    }

    /// The same over some grouping sets of so many dimensions; what none of them needs is neither looked at nor made.
    pub fn walk_sets<S: TakesCells<N>>(&self, sets: &[u8], sink: &mut S) -> Result<(), AllocError>
        requires { All (λ set. set < 2 ^ length self.now.schema.dimensions) sets.now }
        ensures { OnOk result (TakesSets S.takes self.now sets.now sink.old sink.new) }
    {
        let dimensions = self.schema.dimensions().len();
        let kept = kept_masks(self.alloc, dimensions, sets)?;
        if self.facts == 0 {
            let cell = Cell::empty(self.alloc, self.schema.measures().len())?;
            return take_if_kept(&kept, &Codes::total(), &cell, sink);
        }
        walk(self.alloc, &kept, dimensions, 0, &self.items, sink)
    }

    /// How many cells the cube of the facts has over all grouping sets of the schema; none of them is kept. The only error is
    /// that memory ran out, or numbers to count the facts or the cells with.
    pub fn count_cells(&self) -> Result<u64, AllocError>
        ensures { IfOk result (λ number.
            (facts : List Fact) → IsCubeOfAll facts self.now → HasCells self.now.schema facts number) }
    {
        let mut count = CellCount { cells: 0 };
        self.walk(&mut count)?;
        Ok(count.cells)
    }
}

// The coordinate of codes in a dimension with these texts.
fn coord_of<'d>(texts: &'d [SortedTexts], codes: &Codes, dimension: usize) -> CoordRef<'d>
    requires few { length texts.now ≤ 8 }
    requires within { dimension < length texts.now }
    ensures coord { referred_coord result ≡
        coord_at (get_or texts.now dimension []) (get_or codes.now.codes dimension 0) }
    ensures eight { length codes.now.codes ≡ 8 }
{
    texts[dimension].coord_ref_at(codes.codes[dimension])
}

// The texts of each dimension in their order.
fn sorted_texts(alloc: Global, ranked: Vec<RankedTexts>) -> Result<Vec<SortedTexts>, AllocError>
    ensures { IfOk result (λ texts. texts.items ≡ ranked_dictionaries ranked.items) }
{
    let mut texts = Vec::with_capacity(alloc, ranked.len())?;
    for one in ranked {
        texts.push(one.texts)?;
    }
    Ok(texts)
}

// The cells of a table by the ranks of their codes, in the order of these, into which as many threads as this says put them.
fn items_in_order<T: Threads + Sync, N: Numbers + Send + Sync>(
    rt: &T,
    threads: usize,
    alloc: Global,
    ranked: &[RankedTexts],
    cells: Cells<N>,
) -> Result<Vec<Item<N>>, AllocError>
    requires few { length ranked.now ≤ 8 }
    ensures same { IfOk result (λ items.
        IsPermutation (ranked_cells ranked.now cells.entries) (cells_of_items items.items)) }
    ensures order { IfOk result (λ items.
        IsSortedBy (λ a b. is_lt (slice_cmp nat_cmp a.codes.codes b.codes.codes)) items.items) }
{
    let mut items = items_of(alloc, ranked, cells)?;
    put_in_order(rt, threads, &mut items)?;
    Ok(items)
}

// The cells of a table by the ranks of their codes.
fn items_of<N: Numbers>(
    alloc: Global,
    ranked: &[RankedTexts],
    cells: Cells<N>,
) -> Result<Vec<Item<N>>, AllocError>
    requires { length ranked.now ≤ 8 }
    ensures { IfOk result (λ items. cells_of_items items.items ≡ ranked_cells ranked.now cells.entries) }
{
    let mut items = Vec::with_capacity(alloc, cells.len())?;
    for (codes, cell) in cells {
        let codes = ranked_codes(ranked, &codes);
        items.push(Item { codes, cell })?;
    }
    Ok(items)
}
