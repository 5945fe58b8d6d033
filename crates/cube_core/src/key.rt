//! Keys of cells, their order, and the rows of a cube.
ghost use Rattle.std.specs.Prelude.{◌≡◌, ◌≤◌, IfOk, slice_get, Some, length, drop, map, option_map};
ghost use Rattle.std.specs.declared.cmp.Ordering.{Ordering};
ghost use Rattle.cube_core.specs.Covers.{covers, all_stand_for, stands_for};
ghost use Rattle.cube_core.specs.GroupingSet.{is_all_at};
ghost use Rattle.cube_core.specs.Order.{key_cmp};
ghost use Rattle.cube_core.specs.Referred.{referred_coord};

use crate::aggregate::Answer;
use crate::dimension_values::DimensionValues;
use crate::fact::Fact;
use crate::sequence::Sequence;
use crate::text::Text;
use std::alloc::{AllocError, Global};
use std::cmp::Ordering;

/// What a key says of one dimension. The variants stand in the order of printed rows: texts, null, ALL.
#[derive(Debug, Drop, PartialEq, Eq, PartialOrd, Ord)]
pub enum Coord {
    /// A value of the dimension.
    Text(Text),
    /// The dimension's null, a group of its own.
    Null,
    /// The dimension was aggregated over.
    All,
}

/// A coordinate of a key, whose text stays where it lies: a text, null or ALL.
#[derive(Clone, Copy)]
pub enum CoordRef<'t> {
    /// A value of the dimension.
    Text(&'t str),
    /// The dimension's null, a group of its own.
    Null,
    /// The dimension was aggregated over.
    All,
}

impl<'t> CoordRef<'t> {
    /// A coordinate, its text where it lies.
    pub fn of(coord: &'t Coord) -> CoordRef<'t>
        ensures { referred_coord result ≡ coord.now }
    {
        match coord {
            Coord::Text(text) => CoordRef::Text(text.as_str()),
            Coord::Null => CoordRef::Null,
            Coord::All => CoordRef::All,
        }
    }
}

/// The key of a cell: a coordinate for each dimension, ordered dimension by dimension.
#[derive(Debug, Drop, PartialEq, Eq, PartialOrd, Ord)]
pub struct Key {
    pub coords: Sequence<Coord>,
}

/// A row of a cube: the key of a cell and its answers in the order of the schema's aggregates.
#[derive(Debug, Drop)]
pub struct Row {
    pub key: Key,
    pub answers: Sequence<Answer>,
}

impl Key {
    /// The key of these coordinates, one for each dimension in their order, whose texts are copied. The only error is
    /// that memory ran out.
    pub fn new(alloc: Global, coords: &[CoordRef<'_>]) -> Result<Key, AllocError>
        ensures { IfOk result (λ key. key.coords ≡ map referred_coord coords.entry.now) }
    {
        let mut copies = Vec::with_capacity(alloc, coords.len())?;
        for coord in coords {
            copies.push(referred_coord(alloc, *coord)?)?;
        }
        Ok(Key {
            coords: Sequence::from_vec(copies),
        })
    }

    /// A copy; the only error is that memory ran out.
    pub fn copy(&self, alloc: Global) -> Result<Key, AllocError>
        ensures { IfOk result (λ copy. copy ≡ self.now) }
    {
        let coords = copy_coords(alloc, self.coords.as_slice())?;
        Ok(Key {
            coords: Sequence::from_vec(coords),
        })
    }

    /// Whether the key is ALL in a dimension, counted from 0; false past the last one.
    pub fn is_all(&self, dim: usize) -> bool
        ensures { result ≡ is_all_at self.now dim }
    {
        matches!(self.coords.as_slice().get(dim), Some(Coord::All))
    }

    /// How this key stands to another in the order of printed rows: dimension by dimension, texts by their
    /// bytes, then null, then ALL.
    pub fn compare(&self, other: &Key) -> Ordering
        ensures { result ≡ key_cmp self.now other.now }
    {
        self.cmp(other)
    }
}

/// Whether a key covers a fact: it has a coordinate for each dimension of the fact, and each is ALL or equals
/// the fact's value, where null equals null alone.
pub fn covers(key: &Key, fact: &Fact) -> bool
    ensures { result ≡ covers key.now fact.now }
{
    all_stand_for(key.coords.as_slice(), &fact.dims, 0)
}

// Whether there are as many coordinates as values from a place on, and each stands for its value.
fn all_stand_for(coords: &[Coord], values: &DimensionValues, place: usize) -> bool
    requires { place ≤ length values.now }
    ensures { result ≡ all_stand_for coords.now (drop place values.now) }
{
    let Some((coord, other_coords)) = coords.split_first() else {
        return place == values.len();
    };
    place < values.len()
        && stands_for(coord, values.get(place))
        && all_stand_for(other_coords, values, place + 1)
}

fn stands_for(coord: &Coord, value: Option<&str>) -> bool
    ensures { result ≡ stands_for coord.now (option_map (λ text. text.now) value.entry) }
{
    match (coord, value) {
        (Coord::All, _) => true,
        (Coord::Null, value) => value.is_none(),
        (Coord::Text(_), None) => false,
        (Coord::Text(name), Some(text)) => name.as_str() == text,
    }
}

// The coordinate that is referred to, its text copied.
fn referred_coord(alloc: Global, coord: CoordRef<'_>) -> Result<Coord, AllocError>
    ensures { IfOk result (λ copy. copy ≡ referred_coord coord.entry) }
{
    match coord {
        CoordRef::Text(text) => {
            let copy = Text::from_str(alloc, text)?;
            Ok(Coord::Text(copy))
        }
        CoordRef::Null => Ok(Coord::Null),
        CoordRef::All => Ok(Coord::All),
    }
}

fn copy_coords(alloc: Global, coords: &[Coord]) -> Result<Vec<Coord>, AllocError>
    ensures { IfOk result (λ copies. copies.items ≡ coords.now) }
{
    let mut copies = Vec::with_capacity(alloc, coords.len())?;
    for coord in coords {
        copies.push(copy_coord(alloc, coord)?)?;
    }
    Ok(copies)
}

/// A copy; the only error is that memory ran out.
pub(crate) fn copy_coord(alloc: Global, coord: &Coord) -> Result<Coord, AllocError>
    ensures { IfOk result (λ copy. copy ≡ coord.now) }
{
    match coord {
        Coord::Text(text) => {
            let copy = text.copy(alloc)?;
            Ok(Coord::Text(copy))
        }
        Coord::Null => Ok(Coord::Null),
        Coord::All => Ok(Coord::All),
    }
}
