//! Items raised on several threads: each thread has those whose codes are in a range of its own.
ghost use Rattle.std.specs.Prelude.{◌≡◌, ◌+◌, ◌/◌, ◌<◌, ℕ, length, map, All, IfOk, Ok};
ghost use Rattle.cube_cells.specs.BottomUp.{AreRaised, IsItem, cells_of_items, cells_of_lent, raise};
ghost use Rattle.cube_cells.specs.Fill.{AreMade};
ghost use Rattle.cube_cells.specs.Ranges.{AreInOrder, AreRaisedIn, is_from, is_in_range, items_in};
ghost use Rattle.cube_cells.specs.WalkParts.{cells_of_lists, put_together};

use super::bottom_up::{Item, Lent, raised, united};
use super::codes::Codes;
use super::sorting::FEW;
use cube_values::Numbers;
use std::alloc::{AllocError, Global};
use std::thread::{Threads, map_indices};

// How many marks are in a range.
const EACH: usize = 32;

/// The items with ALL in a dimension, in the order of their codes, made by as many threads as this says; those of the same
/// codes are merged. With one thread, or few items, no thread is started.
pub fn raised_by<T: Threads + Sync, N: Numbers + Send + Sync>(
    rt: &T,
    threads: usize,
    alloc: Global,
    from: usize,
    items: &[Item<N>],
) -> Result<Vec<Item<N>>, AllocError>
    requires dimension { from < 8 }
    requires items { (measures : ℕ) × All (IsItem measures) (cells_of_items items.now) }
    ensures { IfOk result (λ raised. AreRaised from (cells_of_items items.now) (cells_of_items raised.items)) }
{
    if threads < 2 || items.len() < FEW {
        return raised(alloc, from, items);
    }
    let marks = marks_of(alloc, threads, from, items)?;
    let made = made_ranges(rt, alloc, from, items, &marks)?;
    let lists = all_made(alloc, made)?;
    put_together(alloc, lists)
}

// The marks that about so many ranges are cut by: the codes of items at equal places, with ALL in a dimension, in order.
fn marks_of<N: Numbers>(
    alloc: Global,
    ranges: usize,
    from: usize,
    items: &[Item<N>],
) -> Result<Vec<Codes>, AllocError>
    requires { from < 8 }
    ensures { IfOk result (λ marks. AreInOrder marks.items) }
{
    let step = items.len() / EACH / ranges.max(1) + 1;
    let mut marks = Vec::new(alloc);
    let mut place = step - 1;
    while place < items.len() {
        marks.push(items[place].codes.with_all(from))?;
        place = place.saturating_add(step);
    }
    marks.sort_unstable_by(|a, b| a.cmp(b));
    Ok(marks)
}

// For each range the raised items of it, unless memory runs out.
fn made_ranges<T: Threads + Sync, N: Numbers + Send + Sync>(
    rt: &T,
    alloc: Global,
    from: usize,
    items: &[Item<N>],
    marks: &[Codes],
) -> Result<Vec<Result<Vec<Item<N>>, AllocError>>, AllocError>
    requires dimension { from < 8 }
    requires items { (measures : ℕ) × All (IsItem measures) (cells_of_items items.now) }
    ensures { IfOk result (λ made. AreMade (AreRaisedIn marks.now from items.now)
        (length marks.now / 32 + 1) made.items) }
{
    map_indices(
        rt,
        alloc,
        marks.len() / EACH + 1,
        &|range| raised_in(alloc, from, items, marks, range),
    )
}

/// What was made, if each of it was.
pub(super) fn all_made<X: Drop>(
    alloc: Global,
    made: Vec<Result<X, AllocError>>,
) -> Result<Vec<X>, AllocError>
    ensures { IfOk result (λ all. map Ok all.items ≡ made.items) }
{
    let mut all = Vec::with_capacity(alloc, made.len())?;
    for one in made {
        let one = one?;
        all.push(one)?;
    }
    Ok(all)
}

// The items of a range with ALL in a dimension, in the order of their codes; those of the same codes are merged.
fn raised_in<N: Numbers>(
    alloc: Global,
    from: usize,
    items: &[Item<N>],
    marks: &[Codes],
    range: usize,
) -> Result<Vec<Item<N>>, AllocError>
    requires dimension { from < 8 }
    requires range { range < length marks.now / 32 + 1 }
    requires items { (measures : ℕ) × All (IsItem measures) (cells_of_items items.now) }
    ensures { IfOk result (AreRaisedIn marks.now from items.now range) }
{
    let lent = lent_in_range(alloc, from, items, marks, range)?;
    united(alloc, lent)
}

// The items with ALL in a dimension whose codes are then in a range.
fn lent_in_range<'c, N: Numbers>(
    alloc: Global,
    from: usize,
    items: &'c [Item<N>],
    marks: &[Codes],
    range: usize,
) -> Result<Vec<Lent<'c, N>>, AllocError>
    requires dimension { from < 8 }
    requires range { range < length marks.now / 32 + 1 }
    ensures { IfOk result (λ lent.
        cells_of_lent lent.items ≡ raise from (items_in marks.now from range (cells_of_items items.now))) }
{
    let mut lent = Vec::with_capacity(alloc, items.len() / (marks.len() / EACH + 1))?;
    for item in items {
        let codes = item.codes.with_all(from);
        if is_in_range(marks, range, &codes) {
            lent.push(Lent {
                codes,
                cell: &item.cell,
            })?;
        }
    }
    Ok(lent)
}

// Whether codes are in a range: they come at or after its beginning, and before the beginning of the next one.
fn is_in_range(marks: &[Codes], range: usize, codes: &Codes) -> bool
    requires { range < length marks.now / 32 + 1 }
    ensures { result ≡ is_in_range marks.now range codes.now }
{
    is_from(marks, range, codes) && !is_from(marks, range + 1, codes)
}

// Whether codes come at or after the beginning of a range. The first one begins before all codes.
fn is_from(marks: &[Codes], range: usize, codes: &Codes) -> bool
    ensures { result ≡ is_from marks.now range codes.now }
{
    if range == 0 {
        return true;
    }
    if marks.len() / EACH < range {
        return false;
    }
    match marks.get(range * EACH) {
        Some(first) => !codes.cmp(first).is_lt(),
        None => false,
    }
}

// Lists of items, one behind another.
fn put_together<N: Numbers>(
    alloc: Global,
    lists: Vec<Vec<Item<N>>>,
) -> Result<Vec<Item<N>>, AllocError>
    ensures { IfOk result (λ all. cells_of_items all.items ≡ put_together (cells_of_lists lists.items)) }
{
    let mut all = Vec::new(alloc);
    for list in lists {
        let mut list = list;
        all.append(&mut list)?;
    }
    Ok(all)
}
