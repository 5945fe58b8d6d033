//! Filling a cube at once: facts go into the cells of the finest grouping set alone, and the cells of each other kept
//! set are then made from those of a finer one (Gray et al. 1997).
ghost use Rattle.std.specs.Prelude.{◌≡◌, ◌+◌, ◌-◌, ◌≤◌, ◌^◌, ◌↔◌, ◌∷◌, [], None, ◌<◌, List, length, reverse, bit_and, All, Contains, IsTrue, IfOk, IfSome, OnOk, OnErr};
ghost use Rattle.std.specs.List.Sorted.{IsStrictlySortedBy};
ghost use Rattle.std.specs.Ordering.{nat_cmp};
ghost use Rattle.cube_core.specs.Layout.{number_of_dimensions};
ghost use Rattle.cube_core.specs.declared.fact.Fact.{Fact};
ghost use Rattle.cube_cells.specs.Coded.{coded_at};
ghost use Rattle.cube_cells.specs.Cube.{IsCubeOf, IsNewLattice, SameSets};
ghost use Rattle.cube_cells.specs.Fill.{AreFilled, AreMadeFrom, FillsSet, HaveOneWidth, IsCubeOfAll, IsFiner, IsMadeLevel, MakesLevels, MergesIn, finest_set};
ghost use Rattle.cube_cells.specs.Tally.{PlusTally};
ghost use Rattle.cube_cells.specs.Walk.{AreApart};

use super::Cube;
use super::codes::Codes;
use super::levels::{Cells, Level, new_cells};
use crate::cell::Cell;
use cube_core::Schema;
use cube_values::Numbers;
use std::alloc::{AllocError, Global};

impl<N: Numbers> Cube<N> {
    /// The cube of no fact over the finest grouping set alone of a schema, that of all dimensions of the cube. Its own
    /// schema is the one that [`Schema::cube_schema`] makes of this. The only error is that memory ran out.
    pub fn finest_over(alloc: Global, schema: &Schema) -> Result<Cube<N>, AllocError>
        ensures new { IfOk result (IsNewLattice schema.now
            (finest_set (number_of_dimensions schema.now) ∷ [])) }
        ensures cube { IfOk result (λ cube. IsCubeOf cube []) }
    {
        let sets = vec![in alloc; finest_of(schema.number_of_dimensions())]?;
        Cube::over(alloc, schema, sets)
    }

    /// The same with the schema of this cube.
    pub fn finest(&self) -> Result<Cube<N>, AllocError>
        ensures schema { IfOk result (λ cube. cube.schema ≡ self.now.schema) }
        ensures new { IfOk result (IsNewLattice self.now.schema
            (finest_set (length self.now.schema.dimensions) ∷ [])) }
        ensures cube { IfOk result (λ cube. IsCubeOf cube []) }
    {
        Cube::finest_over(self.alloc, &self.schema)
    }

    /// Fills the cube with the facts of a cube over the finest grouping set, in place of its own, and gives a code to
    /// no text that has none there.
    ///
    /// Where memory runs out, or numbers to count the facts with, it stays as it was.
    pub fn fill(&mut self, finest: Cube<N>) -> Result<(), AllocError>
        requires schema { finest.schema ≡ self.old.schema }
        requires sets { finest.sets ≡ finest_set (length finest.schema.dimensions) ∷ [] }
        requires facts { (facts : List Fact) × IsCubeOfAll facts finest }
        ensures same { OnOk result (SameSets self.old self.new) }
        ensures texts { OnOk result (self.new.dictionaries ≡ finest.dictionaries) }
        ensures facts { OnOk result
            ((facts : List Fact) → IsCubeOfAll facts finest → IsCubeOfAll facts self.new) }
        ensures err { OnErr result (self.new ≡ self.old) }
    {
        let measures = self.schema.measures().len();
        let Cube {
            facts,
            dictionaries,
            mut levels,
            ..
        } = finest;
        let mut finest = levels.remove(0);
        let in_order = self.schema.needs_numbers();
        shrink_cells(&mut finest.cells, in_order);
        self.levels = filled_levels(self.alloc, finest, &self.sets, measures, in_order)?;
        self.facts = facts;
        self.dictionaries = dictionaries;
        Ok(())
    }
}

// The grouping set of all of so many dimensions.
pub(super) fn finest_of(dimensions: usize) -> u8
    requires { dimensions ≤ 8 }
    ensures { result ≡ finest_set dimensions }
{
    ((1u16 << dimensions) - 1) as u8
}

// The levels of the sets, in their order, made from the finest one.
fn filled_levels<N: Numbers>(
    alloc: Global,
    finest: Level<N>,
    sets: &[u8],
    measures: usize,
    in_order: bool,
) -> Result<Vec<Level<N>>, AllocError>
    requires width { All (λ cell. length cell.1.bags ≡ measures) finest.cells.entries }
    requires within { All (λ set. bit_and finest.set set ≡ set) sets.now }
    requires ascending { IsStrictlySortedBy nat_cmp sets.now }
    ensures { IfOk result (λ levels. AreFilled finest sets.now measures levels.items) }
{
    match sets.split_last() {
        Some((last, coarser)) if *last == finest.set => {
            let mut levels = levels_from(alloc, &finest, coarser, measures, in_order)?;
            levels.push(finest)?;
            Ok(levels)
        }
        _ => levels_from(alloc, &finest, sets, measures, in_order),
    }
}

// The levels of grouping sets that the finest one is finer than, in their order. They are made from the last set to the
// first: a finer set is a greater number, so that each level can be made from any finer one.
fn levels_from<N: Numbers>(
    alloc: Global,
    finest: &Level<N>,
    sets: &[u8],
    measures: usize,
    in_order: bool,
) -> Result<Vec<Level<N>>, AllocError>
    requires width { All (λ cell. length cell.1.bags ≡ measures) finest.now.cells.entries }
    requires finer { All (IsFiner finest.now.set) sets.now }
    ensures { IfOk result (λ levels.
        MakesLevels measures finest.now (reverse sets.now) [] (reverse levels.items)) }
{
    let mut levels = Vec::with_capacity(alloc, sets.len())?;
    for place in (0..sets.len()).rev() {
        let level = level_from(alloc, finest, &levels, sets[place], measures, in_order)?;
        levels.push(level)?;
    }
    levels.reverse();
    Ok(levels)
}

// The level of a set, made from one of those that are finer.
fn level_from<N: Numbers>(
    alloc: Global,
    finest: &Level<N>,
    levels: &[Level<N>],
    set: u8,
    measures: usize,
    in_order: bool,
) -> Result<Level<N>, AllocError>
    requires finer { IsFiner finest.now.set set }
    requires first { All (λ cell. length cell.1.bags ≡ measures) finest.now.cells.entries }
    requires widths { All (λ level. All (λ cell. length cell.1.bags ≡ measures) level.cells.entries) levels.now }
    ensures { IfOk result (IsMadeLevel measures finest.now levels.now set) }
{
    let finer = smallest_finer(finest, levels, set);
    let cells = cells_from(alloc, &finer.cells, set, measures, in_order)?;
    Ok(Level { set, cells })
}

// One of the levels that are finer than a set; which one is a matter of speed alone.
fn smallest_finer<'a, N: Numbers>(
    finest: &'a Level<N>,
    levels: &'a [Level<N>],
    set: u8,
) -> &'a Level<N>
    requires { IsFiner finest.now.set set }
    ensures made { Contains (finest.now ∷ levels.now) result.now }
    ensures finer { IsFiner result.now.set set }
{
    let mut smallest = finest;
    for level in levels {
        if is_finer(level.set, set) && level.cells.len() < smallest.cells.len() {
            smallest = level;
        }
    }
    smallest
}

// Whether a set has all dimensions of another and more.
fn is_finer(finer: u8, set: u8) -> bool
    ensures { IsTrue result ↔ IsFiner finer set }
{
    set < finer && finer & set == set
}

// The cells of a set, made from those of a finer one.
fn cells_from<N: Numbers>(
    alloc: Global,
    finer: &Cells<N>,
    set: u8,
    measures: usize,
    in_order: bool,
) -> Result<Cells<N>, AllocError>
    requires { All (λ cell. length cell.1.bags ≡ measures) finer.now.entries }
    ensures made { IfOk result (λ cells.
        AreMadeFrom finer.now.entries set measures cells.entries) }
    ensures width { IfOk result (λ cells.
        All (λ cell. length cell.1.bags ≡ measures) cells.entries) }
{
    let mut cells = new_cells(alloc, *finer.hasher(), measures, set == 0)?;
    fill_set(alloc, &mut cells, finer, set)?;
    shrink_cells(&mut cells, in_order);
    Ok(cells)
}

// Gives back the room beyond the values of each cell, and brings many in order where that is asked for.
fn shrink_cells<N: Numbers>(cells: &mut Cells<N>, in_order: bool)
    ensures { cells.new.entries ≡ cells.old.entries }
{
    cells.retain(|_, cell| {
        cell.shrink_to_fit(in_order);
        true
    });
}

// Merges the cells of a finer set into those of a set.
fn fill_set<N: Numbers>(
    alloc: Global,
    cells: &mut Cells<N>,
    finer: &Cells<N>,
    set: u8,
) -> Result<(), AllocError>
    requires { HaveOneWidth finer.now.entries cells.old.entries }
    ensures { OnOk result (FillsSet set finer.now.entries cells.old.entries cells.new.entries) }
{
    for (codes, cell) in finer {
        merge_at(alloc, cells, codes.kept(set), cell)?;
    }
    Ok(())
}

// Merges a cell into that of a key, which is made where there is none.
fn merge_at<N: Numbers>(
    alloc: Global,
    cells: &mut Cells<N>,
    codes: Codes,
    more: &Cell<N>,
) -> Result<(), AllocError>
    requires { IfSome (coded_at cells.old.entries codes)
        (λ t. length t.bags ≡ length more.now.bags) }
    ensures merges { OnOk result
        (MergesIn codes cells.old.entries cells.new.entries more.now) }
    ensures apart { AreApart cells.old.entries → AreApart cells.new.entries }
{
    if let Some(cell) = cells.get_mut(&codes) {
        return merge_counted(cell, more);
    }
    put_copy(alloc, cells, codes, more)
}

// Puts a copy of a cell in.
fn put_copy<N: Numbers>(
    alloc: Global,
    cells: &mut Cells<N>,
    codes: Codes,
    more: &Cell<N>,
) -> Result<(), AllocError>
    requires { coded_at cells.old.entries codes ≡ None }
    ensures merges { OnOk result
        (MergesIn codes cells.old.entries cells.new.entries more.now) }
    ensures apart { AreApart cells.old.entries → AreApart cells.new.entries }
{
    let cell = more.copy(alloc)?;
    cells.insert(codes, cell)?;
    Ok(())
}

// Merges a cell, unless its facts couldn't be counted.
pub(super) fn merge_counted<N: Numbers>(
    cell: &mut Cell<N>,
    more: &Cell<N>,
) -> Result<(), AllocError>
    requires { length more.now.bags ≡ length cell.old.bags }
    ensures { OnOk result (PlusTally cell.old cell.new more.now) }
{
    if more.count() > u64::MAX - cell.count() {
        return Err(AllocError);
    }
    cell.merge(more)
}
