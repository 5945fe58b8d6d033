//! The texts of a dimension in their order.
ghost use Rattle.std.specs.Prelude.{◌≡◌, [], length, get_or, position};
ghost use Rattle.std.specs.Str.{bytes_eq};
ghost use Rattle.cube_core.specs.Referred.{referred_coord};
ghost use Rattle.cube_core.specs.declared.key.Coord.TheVariants as coord;
ghost use Rattle.cube_cells.specs.Codes.{IsCodeOf, IsDictionary, coord_at};
ghost use Rattle.cube_cells.specs.Ranks.{AreInOrder, texts_at};

use super::codes::{ALL, NONE, NULL};
use super::dictionary::Dictionary;
use cube_core::{Coord, CoordRef};
use std::marker::Model;

/// The texts of a dimension in their order, each with its place as its code.
///
/// They lie where they lay before, and places lead to them: none is copied, and none is hashed.
#[derive(Drop)]
pub struct SortedTexts {
    dictionary: Dictionary,
    places: Vec<usize>,
}

impl Model for SortedTexts {
    ghost use Rattle.std.specs.Prelude.{List, ℕ};
    ghost use Rattle.cube_cells.specs.Codes.{IsDictionary};
    ghost use Rattle.cube_cells.specs.Ranks.{texts_at};

    ghost Value = { List (List ℕ) };

    ghost view = { λ t. texts_at t.dictionary t.places.items };

    ghost invariant = { λ t. IsDictionary (texts_at t.dictionary t.places.items) };
}

impl SortedTexts {
    /// The texts of a dictionary, to which places lead in the order of the texts.
    pub(super) fn of(dictionary: Dictionary, places: Vec<usize>) -> SortedTexts
        requires texts { IsDictionary dictionary }
        requires order { AreInOrder dictionary places.items }
        ensures { result ≡ texts_at dictionary places.items }
    {
        SortedTexts { dictionary, places }
    }

    /// How many texts there are.
    pub fn len(&self) -> usize
        ensures { result ≡ length self.now }
    {
        self.places.len()
    }

    /// The text at a place; empty where there is none.
    pub fn text(&self, place: usize) -> &str
        ensures { result.now ≡ get_or self.now place [] }
    {
        match self.places.get(place) {
            None => "",
            Some(place) => self.dictionary.text(*place),
        }
    }

    /// The coordinate of a code.
    pub fn coord_ref_at(&self, code: u32) -> CoordRef<'_>
        ensures { referred_coord result ≡ coord_at self.now code }
    {
        match code {
            ALL => CoordRef::All,
            NULL => CoordRef::Null,
            place => CoordRef::Text(self.text(place as usize)),
        }
    }

    /// The code of a coordinate.
    #[tactic(auto, using(crate::proofs::Codes::DictionaryLaws::code_of_null, crate::proofs::Codes::DictionaryLaws::code_of_all))]
    pub fn code_of_coord(&self, coord: &Coord) -> u32
        ensures { IsCodeOf self.now coord.now result }
    {
        let _ = &self.places;
        match coord {
            Coord::All => ALL,
            Coord::Null => NULL,
            Coord::Text(text) => self.code_of_text(text.as_str()),
        }
    }

    // The place of a text, as a number of 32 bits.
    fn code_of_text(&self, text: &str) -> u32
        ensures { IsCodeOf self.now (coord.Text text.now) result }
    {
        let _ = &self.places;
        match self.code_of(text) {
            None => NONE,
            Some(place) => place as u32,
        }
    }

    // The place of a text.
    fn code_of(&self, text: &str) -> Option<usize>
        ensures { result ≡ position (bytes_eq text.now) self.now }
    {
        position_of(&self.dictionary, &self.places, text)
    }
}

// The first of some places of a dictionary at which a text stands.
fn position_of(dictionary: &Dictionary, places: &[usize], text: &str) -> Option<usize>
    ensures { result ≡ position (λ place. bytes_eq text.now (get_or dictionary.now place [])) places.now }
{
    places
        .iter()
        .position(|place| text == dictionary.text(*place))
}
