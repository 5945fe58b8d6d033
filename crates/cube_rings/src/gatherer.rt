//! A builder that gathers, and its place.
use crate::lots::LotInlet;

/// What a gate is told of the links of a builder: its number, from 0, and how many sources come before its first.
#[derive(Clone, Copy, Debug)]
pub struct Place {
    pub builder: u32,
    pub before: u32,
}

/// A builder with its links from the sources, and whether memory ran out for it.
#[derive(Drop)]
pub struct Gatherer<B: Drop> {
    pub builder: B,
    pub place: Place,
    pub inlets: Vec<LotInlet>,
    pub wanting: bool,
}
