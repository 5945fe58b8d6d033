//! A list in two: what stands at places, and what stands beside them.
ghost use Rattle.std.specs.Prelude.{◌≡◌, ◌++◌, ◌∷◌, [], IfOk, OnOk, if◌then◌else◌};
ghost use Rattle.cube_core.specs.GroupingSet.{is_among};
ghost use Rattle.cube_core.specs.TextPlaces.{at_places, beside_places};

use std::alloc::{AllocError, Global};

/// The elements of a list that stand beside places, and those that stand at them, each in their order. Where there are
/// no places, the list itself is the first, and nothing is allocated.
pub(super) fn parted<T: Drop>(
    alloc: Global,
    items: Vec<T>,
    places: &[usize],
) -> Result<(Vec<T>, Vec<T>), AllocError>
    ensures beside { IfOk result (λ lists. lists.0.items ≡ beside_places places.now 0 items.items) }
    ensures at { IfOk result (λ lists. lists.1.items ≡ at_places places.now 0 items.items) }
{
    if places.is_empty() {
        return Ok((items, Vec::new(alloc)));
    }
    parted_by_place(alloc, items, places)
}

fn parted_by_place<T: Drop>(
    alloc: Global,
    items: Vec<T>,
    places: &[usize],
) -> Result<(Vec<T>, Vec<T>), AllocError>
    ensures beside { IfOk result (λ lists. lists.0.items ≡ beside_places places.now 0 items.items) }
    ensures at { IfOk result (λ lists. lists.1.items ≡ at_places places.now 0 items.items) }
{
    let mut beside = Vec::with_capacity(alloc, items.len())?;
    let mut at = Vec::with_capacity(alloc, places.len())?;
    for item in items {
        let is_at = is_among(beside.len() + at.len(), places);
        put(&mut beside, &mut at, item, is_at)?;
    }
    Ok((beside, at))
}

/// Puts an item at the end of one of two lists.
fn put<T: Drop>(
    beside: &mut Vec<T>,
    at: &mut Vec<T>,
    item: T,
    is_at: bool,
) -> Result<(), AllocError>
    ensures beside { OnOk result (beside.new.items
        ≡ if is_at then beside.old.items else (beside.old.items ++ item ∷ [])) }
    ensures at { OnOk result (at.new.items ≡ if is_at then (at.old.items ++ item ∷ []) else at.old.items) }
{
    if is_at {
        at.push(item)?;
    } else {
        beside.push(item)?;
    }
    Ok(())
}

/// Whether a place is one of these.
fn is_among(place: usize, places: &[usize]) -> bool
    ensures { result ≡ is_among place places.now }
{
    places.iter().any(|other| *other == place)
}
