//! Which of many inputs comes next: the one with the least key.
//!
//! Where there are many, the rows of most are far from being next. A bound tells them apart: it is the key of some row, and
//! rows above it stand behind, where nobody looks at them until all those in front of the bound are merged.
ghost use Rattle.std.specs.Prelude.{◌≡◌, ◌<◌, ◌+◌, [], IfOk, IfSome, OnOk, Some, false, get_or, length, true};
ghost use Rattle.std.specs.Ordering.{is_lt};
ghost use Rattle.cube_core.specs.Order.{key_cmp};
ghost use Rattle.cube_merge.specs.Front.{AreAbove, IsInFront, IsLeastIn};
ghost use Rattle.cube_merge.specs.Merging.{IsBelow, IsLeastSoFar};

use crate::input::Input;
use cube_core::{Key, Row, Sequence};
use std::alloc::{AllocError, Global};
use std::cmp::Ordering;
use std::io::Read;

// Of so many inputs about one is in front of a new bound.
const STRIDE: usize = 8;

/// A bound, and whether each input stands behind it; none does past the end of the list.
#[derive(Drop)]
pub(crate) struct Front {
    pub(crate) bound: Key,
    pub(crate) behind: Vec<bool>,
}

impl Front {
    /// A bound that no input stands behind.
    pub(crate) fn new(alloc: Global) -> Front
        ensures { result.behind.items ≡ [] }
    {
        Front {
            bound: empty_key(alloc),
            behind: Vec::new(alloc),
        }
    }

    /// The place of an input whose row has the least key; None where no input has a row. Inputs stand behind as before, or
    /// behind a new bound.
    pub(crate) fn least_input<R: Read>(
        &mut self,
        alloc: Global,
        inputs: &[Input<R>],
    ) -> Result<Option<usize>, AllocError>
        requires { AreAbove self.old.bound self.old.behind.items inputs.now }
        ensures least { IfOk result (λ least. IsLeastSoFar inputs.now least (length inputs.now)) }
        ensures front { IfOk result (λ least. IfSome least (IsInFront inputs.now self.new.behind.items)) }
        ensures above { OnOk result (AreAbove self.new.bound self.new.behind.items inputs.now) }
    {
        if let Some(place) = self.least_in_front(inputs) {
            return Ok(Some(place));
        }
        self.set_bound(alloc, inputs)?;
        if let Some(place) = self.least_in_front(inputs) {
            return Ok(Some(place));
        }
        self.behind.clear();
        Ok(least_in(inputs, &[]))
    }

    /// Puts the inputs at these places, which moved on, behind where their rows are above the bound.
    pub(crate) fn put_moved<R: Read>(&mut self, inputs: &[Input<R>], places: &[usize])
        requires { AreAbove self.old.bound self.old.behind.items inputs.now }
        ensures { AreAbove self.new.bound self.new.behind.items inputs.now }
    {
        for place in places {
            self.put_one(inputs, *place);
        }
    }

    fn put_one<R: Read>(&mut self, inputs: &[Input<R>], place: usize)
        requires { AreAbove self.old.bound self.old.behind.items inputs.now }
        ensures { AreAbove self.new.bound self.new.behind.items inputs.now }
    {
        if place < inputs.len() && place < self.behind.len() {
            let is_behind = is_above(&inputs[place], &self.bound);
            self.behind[place] = is_behind;
        }
    }

    // Takes a new bound, and puts the inputs behind whose rows are above it; where there is no good one, none is behind.
    fn set_bound<R: Read>(&mut self, alloc: Global, inputs: &[Input<R>]) -> Result<(), AllocError>
        ensures { OnOk result (AreAbove self.new.bound self.new.behind.items inputs.now) }
    {
        self.behind.clear();
        let Some(row) = row_for_bound(inputs) else {
            return Ok(());
        };
        self.bound = row.key.copy(alloc)?;
        put_behind(inputs, &self.bound, &mut self.behind)
    }

    // The place of an input in front whose row has the least key of all; None where that isn't known to be in front.
    fn least_in_front<R: Read>(&self, inputs: &[Input<R>]) -> Option<usize>
        requires { AreAbove self.now.bound self.now.behind.items inputs.now }
        ensures least { IfSome result (λ place. IsLeastSoFar inputs.now (Some place) (length inputs.now)) }
        ensures front { IfSome result (IsInFront inputs.now self.now.behind.items) }
    {
        if self.behind.is_empty() {
            return None;
        }
        let place = least_in(inputs, self.behind.as_slice())?;
        let row = inputs[place].row()?;
        if is_below(&self.bound, &row.key) {
            None
        } else {
            Some(place)
        }
    }
}

fn empty_key(alloc: Global) -> Key {
    Key {
        coords: Sequence::from_vec(Vec::new(alloc)),
    }
}

// Of the inputs that aren't behind, the place of one whose row has the least key; None where none of them has a row.
fn least_in<R: Read>(inputs: &[Input<R>], behind: &[bool]) -> Option<usize>
    ensures { IsLeastIn inputs.now behind.now result (length inputs.now) }
{
    let mut least = None;
    for place in 0..inputs.len() {
        least = lesser(inputs, behind, least, place);
    }
    least
}

// Of the least so far and one more input, where that isn't behind, the one with the lesser key.
fn lesser<R: Read>(
    inputs: &[Input<R>],
    behind: &[bool],
    least: Option<usize>,
    place: usize,
) -> Option<usize>
    requires inside { place < length inputs.now }
    requires so_far { IsLeastIn inputs.now behind.now least place }
    ensures { IsLeastIn inputs.now behind.now result (place + 1) }
{
    if is_behind(behind, place) {
        return least;
    }
    let Some(row) = inputs[place].row() else {
        return least;
    };
    let Some(best) = least else {
        return Some(place);
    };
    let Some(other) = inputs[best].row() else {
        return Some(place);
    };
    if is_below(&row.key, &other.key) {
        Some(place)
    } else {
        least
    }
}

/// Whether the input at a place stands behind.
pub(crate) fn is_behind(behind: &[bool], place: usize) -> bool
    ensures { result ≡ get_or behind.now place false }
{
    match behind.get(place) {
        Some(is_behind) => *is_behind,
        None => false,
    }
}

fn is_below(key: &Key, other: &Key) -> bool
    ensures { result ≡ is_lt (key_cmp key.now other.now) }
{
    matches!(key.compare(other), Ordering::Less)
}

// A row whose key is a good bound, where there are many inputs: the least of every so many.
fn row_for_bound<R: Read>(inputs: &[Input<R>]) -> Option<&Row> {
    if inputs.len() <= STRIDE {
        return None;
    }
    let mut least = 0;
    let mut rows = 0;
    for place in 0..inputs.len() {
        if inputs[place].row().is_some() {
            if rows % STRIDE == 0 {
                least = earlier(inputs, least, place);
            }
            rows += 1;
        }
    }
    inputs[least].row()
}

// Of two inputs the place of one whose row has the lesser key; the other one's where one has no row.
fn earlier<R: Read>(inputs: &[Input<R>], least: usize, place: usize) -> usize
    requires least { least < length inputs.now }
    requires place { place < length inputs.now }
    ensures { result < length inputs.now }
{
    match (inputs[least].row(), inputs[place].row()) {
        (Some(row), Some(other)) if !is_below(&other.key, &row.key) => least,
        _ => place,
    }
}

// Tells of each input whether its row is above a bound, in an empty list.
fn put_behind<R: Read>(
    inputs: &[Input<R>],
    bound: &Key,
    behind: &mut Vec<bool>,
) -> Result<(), AllocError>
    requires { behind.old.items ≡ [] }
    ensures { OnOk result (AreAbove bound.now behind.new.items inputs.now) }
{
    for place in 0..inputs.len() {
        behind.push(is_above(&inputs[place], bound))?;
    }
    Ok(())
}

fn is_above<R: Read>(input: &Input<R>, bound: &Key) -> bool
    ensures { result ≡ true → IsBelow bound.now input.now }
{
    match input.row() {
        Some(row) => is_below(bound, &row.key),
        None => false,
    }
}
