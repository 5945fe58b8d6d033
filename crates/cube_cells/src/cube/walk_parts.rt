//! A walk over the whole cube of some facts in parts, each of which may be taken alone.
ghost use Rattle.std.specs.Prelude.{◌≡◌, ◌+◌, ◌<◌, ◌≤◌, ◌∷◌, [], ℕ, Bool, false, true, get_or, length, IfOk, OnOk};
ghost use Rattle.cube_cells.specs.BottomUp.{CanWalk, IsNoneKept, IsRun, all_at, cells_of_items, column_of, is_kept_by};
ghost use Rattle.cube_cells.specs.Tally.{Tally};
ghost use Rattle.cube_cells.specs.WalkParts.{AreRaisedOver, ArePartsOf, ArePartsOfCube, CanWalkPart, PutsRuns, PutsLast, TakesPart, WalkGivesCube, cells_of_lists, part_of};
ghost use Rattle.cube_cells.specs.declared.cube.codes.Codes.{Codes};

use super::bottom_up::{Item, TakesCells, end_of_run, is_any_kept, walk, walk_runs};
use super::finest_cells::FinestCells;
use super::ranges::raised_by;
use cube_values::Numbers;
use std::alloc::{AllocError, Global};
use std::marker::Model;
use std::thread::Threads;

// How many items are too few to be cut.
const FEW: usize = 1_000;

/// The finest cells of some facts, and lists of those with ALL in the first dimension, in the first two, and so on: what the
/// parts of a walk go over.
#[derive(Drop)]
pub struct RaisedCells<'c, N: Numbers> {
    alloc: Global,
    finest: &'c FinestCells<N>,
    items: &'c [Item<N>],
    kept: Vec<bool>,
    raised: Vec<Vec<Item<N>>>,
}

impl<'c, N: Numbers> Model for RaisedCells<'c, N> {
    ghost use Rattle.cube_cells.specs.BottomUp.{cells_of_items};
    ghost use Rattle.cube_cells.specs.Cube.{Lattice};
    ghost use Rattle.cube_cells.specs.WalkParts.{AreRaisedCells, cells_of_lists};

    ghost Value = { Lattice };

    ghost view = { λ r. r.finest.now };

    ghost invariant = { λ r. AreRaisedCells r.finest.now r.kept.items (cells_of_items r.items.now)
        (cells_of_lists r.raised.items) };
}

/// A part of a walk: the cells of the next part follow its cells in key order.
#[derive(Drop)]
pub struct WalkPart<'c, N: Numbers> {
    alloc: Global,
    kept: &'c [bool],
    dimensions: usize,
    from: usize,
    is_whole: bool,
    items: &'c [Item<N>],
}

impl<'c, N: Numbers> Model for WalkPart<'c, N> {
    ghost use Rattle.cube_cells.specs.BottomUp.{cells_of_items};
    ghost use Rattle.cube_cells.specs.WalkParts.{CanWalkPart, PartOfWalk, part_of};

    ghost Value = { PartOfWalk };

    ghost view = { λ p. part_of p.kept.now p.dimensions p.from p.is_whole (cells_of_items p.items.now) };

    ghost invariant = { λ p. CanWalkPart
        (part_of p.kept.now p.dimensions p.from p.is_whole (cells_of_items p.items.now)) };
}

// Items, and lists of those with ALL in the first dimensions, where they lie.
#[derive(Drop)]
struct Lists<'c, N: Numbers> {
    alloc: Global,
    kept: &'c [bool],
    dimensions: usize,
    items: &'c [Item<N>],
    raised: &'c [Vec<Item<N>>],
}

impl<'c, N: Numbers> RaisedCells<'c, N> {
    /// Finest cells with their items, where a walk over these gives the cube, raised by as many threads as this says. The
    /// only error is that memory ran out.
    pub(super) fn of<T: Threads + Sync>(
        rt: &T,
        threads: usize,
        alloc: Global,
        finest: &'c FinestCells<N>,
        items: &'c [Item<N>],
        kept: Vec<bool>,
    ) -> Result<RaisedCells<'c, N>, AllocError>
    where
        N: Send + Sync,
        requires walk { WalkGivesCube finest.now kept.items (cells_of_items items.now) }
        ensures { IfOk result (λ raised. raised ≡ finest.now) }
    {
        let dimensions = finest.schema().dimensions().len();
        let raised = raised_lists(rt, threads, alloc, &kept, dimensions, items)?;
        Ok(RaisedCells {
            alloc,
            finest,
            items,
            kept,
            raised,
        })
    }

    /// The parts of the walk over the whole cube, in key order. The finest cells are cut into so many parts, or about as many,
    /// where they aren't few, and those with ALL in some dimensions into parts of about the same size. The only error is that
    /// memory ran out.
    pub fn parts(&self, number: usize) -> Result<Vec<WalkPart<'_, N>>, AllocError>
        ensures { IfOk result (λ parts. ArePartsOfCube self.now parts.items) }
    {
        let size = self.items.len().div_ceil(number.max(1)).max(FEW);
        let lists = Lists {
            alloc: self.alloc,
            kept: &self.kept,
            dimensions: self.finest.schema().dimensions().len(),
            items: self.items,
            raised: &self.raised,
        };
        lists.parts(size)
    }
}

impl<'c, N: Numbers> WalkPart<'c, N> {
    /// Hands the cells of the part over, in key order. The only error is that memory ran out, or numbers to count the facts
    /// with.
    pub fn walk<S: TakesCells<N>>(&self, sink: &mut S) -> Result<(), AllocError>
        ensures { OnOk result (TakesPart S.takes self.now sink.old sink.new) }
    {
        if self.is_whole {
            return walk(
                self.alloc,
                self.kept,
                self.dimensions,
                self.from,
                self.items,
                sink,
            );
        }
        walk_runs(
            self.alloc,
            self.kept,
            self.dimensions,
            self.from,
            self.items,
            sink,
        )
    }
}

impl<'c, N: Numbers> Lists<'c, N> {
    // The parts of the walk over the items.
    fn parts(&self, size: usize) -> Result<Vec<WalkPart<'c, N>>, AllocError>
        requires { AreRaisedOver self.now.dimensions
            (cells_of_items self.now.items.now) (cells_of_lists self.now.raised.now) }
        ensures { IfOk result (λ parts. ArePartsOf self.now.kept.now self.now.dimensions
            (cells_of_items self.now.items.now) parts.items) }
    {
        let mut parts = Vec::new(self.alloc);
        for from in 0..self.raised.len() {
            self.put_runs(&mut parts, from, size)?;
        }
        self.put_last(&mut parts, size)?;
        Ok(parts)
    }

    // Puts parts of the runs of a list behind others: each has about so many items, and ends where a run does.
    fn put_runs(
        &self,
        parts: &mut Vec<WalkPart<'c, N>>,
        from: usize,
        size: usize,
    ) -> Result<(), AllocError>
        requires below { from < self.now.dimensions }
        requires within { from ≤ length self.now.raised.now }
        requires raised { AreRaisedOver self.now.dimensions
            (cells_of_items self.now.items.now) (cells_of_lists self.now.raised.now) }
        ensures { OnOk result (PutsRuns self.now.kept.now self.now.dimensions from
            (get_or (cells_of_items self.now.items.now ∷ cells_of_lists self.now.raised.now) from [])
            parts.old.items parts.new.items) }
    {
        let items = items_at(self.items, self.raised, from);
        let mut start = 0;
        while start < items.len() {
            let end = end_of_range(items, from, start, size);
            parts.push(self.part(from, false, &items[start..end]))?;
            start = end;
        }
        Ok(())
    }

    // Puts the rest of the walk behind other parts: the last list whole, or its runs where no set is kept that is ALL in their
    // dimension.
    fn put_last(&self, parts: &mut Vec<WalkPart<'c, N>>, size: usize) -> Result<(), AllocError>
        requires { AreRaisedOver self.now.dimensions
            (cells_of_items self.now.items.now) (cells_of_lists self.now.raised.now) }
        ensures { OnOk result (PutsLast self.now.kept.now self.now.dimensions (length self.now.raised.now)
            (get_or (cells_of_items self.now.items.now ∷ cells_of_lists self.now.raised.now)
            (length self.now.raised.now) [])
            parts.old.items parts.new.items) }
    {
        let from = self.raised.len();
        let items = items_at(self.items, self.raised, from);
        if from < self.dimensions && is_none_above(self.kept, from, items) {
            return self.put_runs(parts, from, size);
        }
        parts.push(self.part(from, true, items))?;
        Ok(())
    }

    // The part of the walk over items from a dimension on.
    fn part(&self, from: usize, is_whole: bool, items: &'c [Item<N>]) -> WalkPart<'c, N>
        requires { CanWalkPart
            (part_of self.now.kept.now self.now.dimensions from is_whole (cells_of_items items.now)) }
        ensures { result ≡ part_of self.now.kept.now self.now.dimensions from is_whole (cells_of_items items.now) }
    {
        WalkPart {
            alloc: self.alloc,
            kept: self.kept,
            dimensions: self.dimensions,
            from,
            is_whole,
            items,
        }
    }
}

// Lists of items with ALL in the first dimension, in the first two, and so on, up to one that is short or above which no set
// is kept, made by as many threads as this says.
fn raised_lists<T: Threads + Sync, N: Numbers + Send + Sync>(
    rt: &T,
    threads: usize,
    alloc: Global,
    kept: &[bool],
    dimensions: usize,
    items: &[Item<N>],
) -> Result<Vec<Vec<Item<N>>>, AllocError>
    requires { CanWalk dimensions 0 (cells_of_items items.now) }
    ensures { IfOk result (λ lists.
        AreRaisedOver dimensions (cells_of_items items.now) (cells_of_lists lists.items)) }
{
    let mut lists = Vec::new(alloc);
    let mut from = 0;
    while from < dimensions && is_to_raise(kept, from, items_at(items, &lists, from)) {
        let next = raised_by(rt, threads, alloc, from, items_at(items, &lists, from))?;
        lists.push(next)?;
        from += 1;
    }
    Ok(lists)
}

// Whether there are many items, and some set is kept that is ALL in a dimension.
fn is_to_raise<N: Numbers>(kept: &[bool], from: usize, items: &[Item<N>]) -> bool
    requires { from < 8 }
{
    items.len() >= FEW && !is_none_above(kept, from, items)
}

// Whether there are items, and no set is kept that is ALL in a dimension and has the first's dimensions before it.
fn is_none_above<N: Numbers>(kept: &[bool], from: usize, items: &[Item<N>]) -> bool
    requires { from < 8 }
    ensures { result ≡ true → (unused : Codes × Tally) → IsNoneKept (is_kept_by kept.now) (from + 1)
        (all_at from (get_or (cells_of_items items.now) 0 unused).0) }
{
    !items.is_empty() && !is_any_kept(kept, from + 1, &items[0].codes.with_all(from))
}

// The items with ALL in so many of the first dimensions.
fn items_at<'c, N: Numbers>(
    items: &'c [Item<N>],
    raised: &'c [Vec<Item<N>>],
    from: usize,
) -> &'c [Item<N>]
    requires { from ≤ length raised.now }
    ensures { cells_of_items result.now ≡ get_or (cells_of_items items.now ∷ cells_of_lists raised.now) from [] }
{
    if from == 0 {
        return items;
    }
    &raised[from - 1]
}

// Where a range of about so many items ends that begins at a place: at the end of a run.
fn end_of_range<N: Numbers>(items: &[Item<N>], from: usize, start: usize, size: usize) -> usize
    requires dimension { from < 8 }
    requires start { start < length items.now }
    ensures { (last : ℕ) × (start ≤ last) × IsRun (column_of from (cells_of_items items.now)) last result }
{
    let last = start + size.max(1).min(items.len() - start) - 1;
    end_of_run(items, from, last)
}
