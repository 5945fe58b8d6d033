//! The cells of all kept grouping sets in the order of their codes, by a walk over lists of the finest cells (Beyer and
//! Ramakrishnan 1999): no cell is hashed, and none is kept but those of the lists that are walked over.
ghost use Rattle.std.specs.Prelude.{◌≡◌, ◌+◌, ◌-◌, ◌<◌, ◌≤◌, ◌^◌, ◌∷◌, ◌++◌, [], ℕ, false, All, IfOk, OnOk, filter, get_or, length, if◌then◌else◌};
ghost use Rattle.std.specs.Cmp.Lexicographic.{slice_cmp};
ghost use Rattle.std.specs.List.Sorted.{IsSortedBy};
ghost use Rattle.std.specs.Ordering.{nat_cmp, is_lt};
ghost use Rattle.cube_cells.specs.BottomUp.{AreUnited, AreRaised, CanWalk, IsItem, IsNoneKept, IsRun, JoinsLast, PutsKept, TakesAll, TakesRuns, TakesWalk, cells_of_items, cells_of_lent, column_of, is_kept_by, raise, under_keys};
ghost use Rattle.cube_core.specs.GroupingSet.{is_among};
ghost use Rattle.cube_cells.specs.Tally.{PlusTally, SameTally, Tally};
ghost use Rattle.cube_cells.specs.declared.cube.codes.Codes.{Codes};

use super::codes::Codes;
use super::fill::{finest_of, merge_counted};
use crate::cell::Cell;
use arrayvec::ArrayVec;
use cube_values::Numbers;
use std::alloc::{AllocError, Global};
use std::slice;

// In how many dimensions keys may differ that are handed over at once, and how many keys these can be.
const FREE: usize = 4;

const MOST_KEYS: usize = 16;

/// What takes the cells of a walk, in the order of their codes: one cell at a time, with keys that it stands under.
pub trait TakesCells<N: Numbers> {
    // What it is after a cell more.
    ghost takes: { Self → Codes → Tally → Self → Type 0 };

    /// Takes a cell under each of some codes, one after another. The only error is that memory ran out.
    fn take_cell(&mut self, keys: &[Codes], cell: &Cell<N>) -> Result<(), AllocError>
        ensures { OnOk result (TakesAll takes self.old (under_keys cell.now keys.now) self.new) };
}

/// A cell, and the codes of its key.
#[derive(Drop)]
pub struct Item<N: Numbers> {
    pub codes: Codes,
    pub cell: Cell<N>,
}

/// A cell that lies elsewhere, and the codes of its key.
#[derive(Drop)]
pub struct Lent<'c, N: Numbers> {
    pub codes: Codes,
    pub cell: &'c Cell<N>,
}

/// For each mask of so many dimensions whether it is that of one of these sets.
pub fn kept_masks(alloc: Global, dimensions: usize, sets: &[u8]) -> Result<Vec<bool>, AllocError>
    requires few { dimensions ≤ 8 }
    requires within { All (λ set. set < 2 ^ dimensions) sets.now }
    ensures { IfOk result (λ kept. (mask : ℕ) → get_or kept.items mask false ≡ is_among mask sets.now) }
{
    let mut kept = vec![in alloc; false; masks_of(dimensions)]?;
    for set in sets {
        kept[usize::from(*set)] = true;
    }
    Ok(kept)
}

// How many masks there are of so many dimensions.
fn masks_of(dimensions: usize) -> usize
    requires { dimensions ≤ 8 }
    ensures { result ≡ 2 ^ dimensions }
{
    usize::from(finest_of(dimensions)) + 1
}

/// Hands the cells of the kept sets over, from a dimension on of so many, for items that agree in those before it.
///
/// Runs of one code come first, then the items with ALL in the dimension; none is looked at where no set is kept. The only
/// error is that memory ran out.
#[cycle(walk)]
pub fn walk<N: Numbers, S: TakesCells<N>>(
    alloc: Global,
    kept: &[bool],
    dimensions: usize,
    from: usize,
    items: &[Item<N>],
    sink: &mut S,
) -> Result<(), AllocError>
    requires from { from ≤ dimensions }
    requires items { CanWalk dimensions from (cells_of_items items.now) }
    ensures { OnOk result (TakesWalk S.takes kept.now dimensions from (cells_of_items items.now) sink.old sink.new) }
{
    if from == dimensions {
        return take_kept(kept, items, sink);
    }
    if items.is_empty() {
        return Ok(());
    }
    let first = &items[0];
    if items.len() == 1 {
        return walk_one(kept, dimensions, from, &first.codes, &first.cell, sink);
    }
    if !is_any_kept(kept, from, &first.codes) {
        return Ok(());
    }
    walk_runs(alloc, kept, dimensions, from, items, sink)?;
    if !is_any_kept(kept, from + 1, &first.codes.with_all(from)) {
        return Ok(());
    }
    let raised = raised(alloc, from, items)?;
    walk(alloc, kept, dimensions, from + 1, &raised, sink)
}

/// Hands the cells of the kept sets over that aren't ALL in a dimension of so many, for items that agree in those before it:
/// run by run of one code. The only error is that memory ran out.
#[cycle(walk)]
pub fn walk_runs<N: Numbers, S: TakesCells<N>>(
    alloc: Global,
    kept: &[bool],
    dimensions: usize,
    from: usize,
    items: &[Item<N>],
    sink: &mut S,
) -> Result<(), AllocError>
    requires from { from < dimensions }
    requires items { CanWalk dimensions from (cells_of_items items.now) }
    ensures { OnOk result (TakesRuns S.takes kept.now dimensions from (cells_of_items items.now) sink.old sink.new) }
{
    let mut start = 0;
    while start < items.len() {
        let end = end_of_run(items, from, start);
        walk(alloc, kept, dimensions, from + 1, &items[start..end], sink)?;
        start = end;
    }
    Ok(())
}

// The same for one item: all keys above it have its cell.
fn walk_one<N: Numbers, S: TakesCells<N>>(
    kept: &[bool],
    dimensions: usize,
    from: usize,
    codes: &Codes,
    cell: &Cell<N>,
    sink: &mut S,
) -> Result<(), AllocError>
    requires from { from ≤ dimensions }
    requires item { CanWalk dimensions from ((codes.now, cell.now) ∷ []) }
    ensures { OnOk result (TakesWalk S.takes kept.now dimensions from ((codes.now, cell.now) ∷ []) sink.old sink.new) }
{
    if dimensions - from <= FREE {
        return walk_last(kept, dimensions, from, codes, cell, sink);
    }
    if !is_any_kept(kept, from, codes) {
        return Ok(());
    }
    walk_one(kept, dimensions, from + 1, codes, cell, sink)?;
    walk_one(
        kept,
        dimensions,
        from + 1,
        &codes.with_all(from),
        cell,
        sink,
    )
}

// The same where few dimensions are left: the cell is handed over once, under all its keys.
fn walk_last<N: Numbers, S: TakesCells<N>>(
    kept: &[bool],
    dimensions: usize,
    from: usize,
    codes: &Codes,
    cell: &Cell<N>,
    sink: &mut S,
) -> Result<(), AllocError>
    requires from { from ≤ dimensions }
    requires few { dimensions - from ≤ 4 }
    requires item { CanWalk dimensions from ((codes.now, cell.now) ∷ []) }
    ensures { OnOk result (TakesWalk S.takes kept.now dimensions from ((codes.now, cell.now) ∷ []) sink.old sink.new) }
{
    let mut keys = ArrayVec::new();
    put_kept(kept, dimensions, from, codes, &mut keys);
    if keys.is_empty() {
        return Ok(());
    }
    sink.take_cell(keys.as_slice(), cell)
}

// Puts those of kept sets of the keys above some codes, from a dimension on of so many, behind others.
fn put_kept(
    kept: &[bool],
    dimensions: usize,
    from: usize,
    codes: &Codes,
    keys: &mut ArrayVec<Codes, MOST_KEYS>,
)
    requires few { dimensions ≤ 8 }
    requires from { from ≤ dimensions }
    requires room { length keys.old.items + 2 ^ (dimensions - from) ≤ 16 }
    ensures room { length keys.new.items ≤ length keys.old.items + 2 ^ (dimensions - from) }
    ensures keys { PutsKept kept.now dimensions from codes.now keys.old.items keys.new.items }
{
    if from == dimensions {
        return put_if_kept(kept, codes, keys);
    }
    if !is_any_kept(kept, from, codes) {
        return;
    }
    put_kept(kept, dimensions, from + 1, codes, keys);
    put_kept(kept, dimensions, from + 1, &codes.with_all(from), keys);
}

// Puts codes behind others if their set is kept.
fn put_if_kept(kept: &[bool], codes: &Codes, keys: &mut ArrayVec<Codes, MOST_KEYS>)
    requires { length keys.old.items < 16 }
    ensures { keys.new.items ≡ keys.old.items ++ (if is_kept_by kept.now codes.now then codes.now ∷ [] else []) }
{
    if is_kept(kept, codes) {
        keys.push(*codes);
    }
}

/// Whether a set is kept that has, of the first so many dimensions, those in which codes aren't ALL.
pub fn is_any_kept(kept: &[bool], from: usize, codes: &Codes) -> bool
    requires { from ≤ 8 }
    ensures { result ≡ false → IsNoneKept (is_kept_by kept.now) from codes.now }
{
    let step = masks_of(from);
    let mut mask = usize::from(codes.mask() & finest_of(from));
    while mask < kept.len() {
        if kept[mask] {
            return true;
        }
        mask += step;
    }
    false
}

// Hands the items of kept sets over.
fn take_kept<N: Numbers, S: TakesCells<N>>(
    kept: &[bool],
    items: &[Item<N>],
    sink: &mut S,
) -> Result<(), AllocError>
    ensures { OnOk result (TakesAll S.takes sink.old
        (filter (λ item. is_kept_by kept.now item.0) (cells_of_items items.now)) sink.new) }
{
    for item in items {
        take_if_kept(kept, &item.codes, &item.cell, sink)?;
    }
    Ok(())
}

/// Hands a cell over if its set is kept.
pub fn take_if_kept<N: Numbers, S: TakesCells<N>>(
    kept: &[bool],
    codes: &Codes,
    cell: &Cell<N>,
    sink: &mut S,
) -> Result<(), AllocError>
    ensures { OnOk result (TakesAll S.takes sink.old
        (if is_kept_by kept.now codes.now then (codes.now, cell.now) ∷ [] else []) sink.new) }
{
    if is_kept(kept, codes) {
        return sink.take_cell(slice::from_ref(codes), cell);
    }
    Ok(())
}

// Whether the set of codes is kept.
fn is_kept(kept: &[bool], codes: &Codes) -> bool
    ensures { result ≡ is_kept_by kept.now codes.now }
{
    match kept.get(usize::from(codes.mask())) {
        Some(is) => *is,
        None => false,
    }
}

/// Where the run ends that begins at a place: the items with its code in a dimension.
pub fn end_of_run<N: Numbers>(items: &[Item<N>], from: usize, start: usize) -> usize
    requires dimension { from < 8 }
    requires start { start < length items.now }
    ensures { IsRun (column_of from (cells_of_items items.now)) start result }
{
    let code = items[start].codes.codes[from];
    let mut end = start + 1;
    while end < items.len() && items[end].codes.codes[from] == code {
        end += 1;
    }
    end
}

/// The items with ALL in a dimension, in the order of their codes; those of the same codes are merged.
pub fn raised<N: Numbers>(
    alloc: Global,
    from: usize,
    items: &[Item<N>],
) -> Result<Vec<Item<N>>, AllocError>
    requires dimension { from < 8 }
    requires items { (measures : ℕ) × All (IsItem measures) (cells_of_items items.now) }
    ensures { IfOk result (λ raised. AreRaised from (cells_of_items items.now) (cells_of_items raised.items)) }
{
    let lent = lent_with_all(alloc, from, items)?;
    united(alloc, lent)
}

// The items with ALL in a dimension.
fn lent_with_all<N: Numbers>(
    alloc: Global,
    from: usize,
    items: &[Item<N>],
) -> Result<Vec<Lent<'_, N>>, AllocError>
    requires { from < 8 }
    ensures { IfOk result (λ lent. cells_of_lent lent.items ≡ raise from (cells_of_items items.now)) }
{
    let mut lent = Vec::with_capacity(alloc, items.len())?;
    for item in items {
        lent.push(Lent {
            codes: item.codes.with_all(from),
            cell: &item.cell,
        })?;
    }
    Ok(lent)
}

/// Cells put in the order of their codes, with those of the same codes merged.
pub fn united<N: Numbers>(alloc: Global, lent: Vec<Lent<'_, N>>) -> Result<Vec<Item<N>>, AllocError>
    requires { (measures : ℕ) × All (IsItem measures) (cells_of_lent lent.items) }
    ensures { IfOk result (λ united. AreUnited (cells_of_lent lent.entry.items) (cells_of_items united.items)) }
{
    let mut lent = lent;
    lent.sort_unstable_by(|a, b| a.codes.cmp(&b.codes));
    joined(alloc, &lent)
}

// Cells in the order of their codes, with those of the same codes merged.
fn joined<N: Numbers>(alloc: Global, lent: &[Lent<'_, N>]) -> Result<Vec<Item<N>>, AllocError>
    requires order { IsSortedBy (λ a b. is_lt (slice_cmp nat_cmp a.codes.codes b.codes.codes)) lent.now }
    requires items { (measures : ℕ) × All (IsItem measures) (cells_of_lent lent.now) }
    ensures { IfOk result (λ joined. AreUnited (cells_of_lent lent.now) (cells_of_items joined.items)) }
{
    let mut joined = Vec::new(alloc);
    for one in lent {
        join_last(alloc, &mut joined, one)?;
    }
    Ok(joined)
}

// Merges a cell into the last one if that has its codes, else puts it behind it.
fn join_last<N: Numbers>(
    alloc: Global,
    items: &mut Vec<Item<N>>,
    one: &Lent<'_, N>,
) -> Result<(), AllocError>
    requires { (measures : ℕ) × All (IsItem measures) ((one.now.codes, one.now.cell.now) ∷ cells_of_items items.old.items) }
    ensures { OnOk result (JoinsLast (one.now.codes, one.now.cell.now)
        (cells_of_items items.old.items) (cells_of_items items.new.items)) }
{
    let Some(last) = items.pop() else {
        return put_copy(alloc, items, one);
    };
    if last.codes == one.codes {
        return put_merged(items, last, one);
    }
    items.push(last)?;
    put_copy(alloc, items, one)
}

// Puts an item behind others with a cell of the same codes merged into it.
fn put_merged<N: Numbers>(
    items: &mut Vec<Item<N>>,
    item: Item<N>,
    one: &Lent<'_, N>,
) -> Result<(), AllocError>
    requires { length item.cell.bags ≡ length one.now.cell.now.bags }
    ensures { OnOk result ((sum : Tally) × PlusTally item.cell sum one.now.cell.now
        × (cells_of_items items.new.items ≡ cells_of_items items.old.items ++ (item.codes, sum) ∷ [])) }
{
    let mut item = item;
    merge_counted(&mut item.cell, one.cell)?;
    items.push(item)?;
    Ok(())
}

// Puts a copy of a cell behind others.
fn put_copy<N: Numbers>(
    alloc: Global,
    items: &mut Vec<Item<N>>,
    one: &Lent<'_, N>,
) -> Result<(), AllocError>
    ensures { OnOk result ((copy : Tally) × SameTally one.now.cell.now copy
        × (cells_of_items items.new.items ≡ cells_of_items items.old.items ++ (one.now.codes, copy) ∷ [])) }
{
    let cell = one.cell.copy(alloc)?;
    items.push(Item {
        codes: one.codes,
        cell,
    })?;
    Ok(())
}
