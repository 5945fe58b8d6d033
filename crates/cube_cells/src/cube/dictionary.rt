//! The texts of a dimension, each with its place as its code.
ghost use Rattle.std.specs.Prelude.{◌≡◌, ◌<◌, ◌≤◌, ◌==◌, not, ◌++◌, ◌∷◌, [], IfOk, IfSome, IfNone, OnOk, OnErr, length, position, slice_get, get_or, drop, Some, None, nat_lt, true, false, option_map, if◌then◌else◌};
ghost use Rattle.std.specs.Cmp.Lexicographic.{slice_cmp};
ghost use Rattle.std.specs.Str.{bytes_eq};
ghost use Rattle.cube_core.specs.declared.key.Coord.TheVariants as coord;
ghost use Rattle.std.specs.String.{string_bytes};
ghost use Rattle.cube_core.specs.Layout.{is_listed};
ghost use Rattle.cube_core.specs.Order.{coord_cmp};
ghost use Rattle.cube_core.specs.Referred.{referred_coord};
ghost use Rattle.cube_cells.specs.Codes.{IsDictionary, texts_with, all_code, is_code, no_code, IsCodeOf, coord_at, coords_at, coord_of_value};

use super::codes::{ALL, NONE, NULL};
use cube_core::{Coord, CoordRef, HashKey, Text};
use indexmap::IndexSet;
use std::alloc::{AllocError, Global};
use std::cmp::Ordering;
use std::marker::Model;

// How many codes are kept at hand.
const AT_HAND: usize = 256;

/// The different texts of a dimension, in the order in which they came.
///
/// They are hashed by SipHash under a key that the schema brings, since whoever writes a feed chooses them. A text that came
/// lately is found without a hash, among the codes at hand: where the last bytes of a text lead to a code, its text is
/// compared.
#[derive(Drop)]
pub struct Dictionary {
    texts: IndexSet<String, HashKey>,
    at_hand: [u32; AT_HAND],
}

impl Model for Dictionary {
    ghost use Rattle.std.specs.Prelude.{List, ℕ, map};
    ghost use Rattle.cube_cells.specs.Codes.{IsDictionary};
    ghost use Rattle.std.specs.String.{string_bytes};

    ghost Value = { List (List ℕ) };

    ghost view = { λ d. map string_bytes d.texts.keys };

    ghost invariant = { λ d. IsDictionary (map string_bytes d.texts.keys) };
}

impl Dictionary {
    /// No text; it takes no memory.
    pub fn new(alloc: Global, key: HashKey) -> Dictionary
        ensures { result ≡ [] }
    {
        Dictionary {
            texts: IndexSet::with_hasher(alloc, key),
            at_hand: [NONE; AT_HAND],
        }
    }

    /// The place of a text.
    pub fn code_of(&self, text: &str) -> Option<usize>
        ensures { result ≡ position (bytes_eq text.now) self.now }
    {
        self.texts.get_index_of(text)
    }

    /// How many texts there are.
    pub fn len(&self) -> usize
        ensures len { result ≡ length self.now }
        ensures dictionary { IsDictionary self.now }
    {
        self.texts.len()
    }

    /// The text at a place; empty where there is none.
    pub fn text(&self, place: usize) -> &str
        ensures { result.now ≡ get_or self.now place [] }
    {
        match self.texts.get_index(place) {
            None => "",
            Some(text) => text.as_str(),
        }
    }

    /// How the coordinate of a code stands to that of a code of another dictionary: texts by their bytes, then null,
    /// then ALL.
    #[tactic(auto, using(crate::proofs::Codes::TextLaws::compared_high, crate::proofs::Codes::TextLaws::compared_texts))]
    pub fn compare(&self, left: u32, other: &Dictionary, right: u32) -> Ordering
        ensures { result ≡ coord_cmp (coord_at self.now left) (coord_at other.now right) }
    {
        if left >= NULL || right >= NULL {
            return left.cmp(&right);
        }
        self.text(left as usize).cmp(other.text(right as usize))
    }

    /// The coordinate of a code.
    pub fn coord_ref_at(&self, code: u32) -> CoordRef<'_>
        ensures { referred_coord result ≡ coord_at self.now code }
    {
        match code {
            ALL => CoordRef::All,
            NULL => CoordRef::Null,
            place => CoordRef::Text(self.text(place as usize)),
        }
    }

    /// A copy of the coordinate of a code; the only error is that memory ran out.
    pub fn coord_at(&self, alloc: Global, code: u32) -> Result<Coord, AllocError>
        ensures { IfOk result (λ coord. coord ≡ coord_at self.now code) }
    {
        match code {
            ALL => Ok(Coord::All),
            NULL => Ok(Coord::Null),
            place => {
                let text = Text::from_str(alloc, self.text(place as usize))?;
                Ok(Coord::Text(text))
            }
        }
    }

    /// The code of a value or of null.
    pub fn code_of_value(&self, value: Option<&str>) -> u32
        ensures { IsCodeOf self.now
            (coord_of_value (option_map (λ text. text.now) value.entry)) result }
    {
        let _ = &self.texts;
        match value {
            None => NULL,
            Some(text) => self.code_of_text(text),
        }
    }

    /// The code of a coordinate.
    #[tactic(auto, using(crate::proofs::Codes::DictionaryLaws::code_of_null, crate::proofs::Codes::DictionaryLaws::code_of_all))]
    pub fn code_of_coord(&self, coord: &Coord) -> u32
        ensures { IsCodeOf self.now coord.now result }
    {
        let _ = &self.texts;
        match coord {
            Coord::All => ALL,
            Coord::Null => NULL,
            Coord::Text(text) => self.code_of_text(text.as_str()),
        }
    }

    /// The code of a value or of null, where a text that isn't there becomes the last.
    pub fn code_with(&mut self, alloc: Global, value: Option<&str>) -> Result<u32, AllocError>
        ensures texts { OnOk result (self.new ≡
            texts_with (option_map (λ text. text.now) value.entry) self.old) }
        ensures code { IfOk result (IsCodeOf self.new
            (coord_of_value (option_map (λ text. text.now) value.entry))) }
        ensures valid { IfOk result (λ code. is_code self.new code ≡ true) }
        ensures dictionary { IsDictionary self.new }
        ensures err { OnErr result (self.new ≡ self.old) }
    {
        let Some(text) = value else {
            let _ = &self.texts;
            return Ok(NULL);
        };
        let hand = hand_of(text);
        let code = self.at_hand[hand];
        if self.stands_at(code, text) {
            return Ok(code);
        }
        let code = self.code_of_listed(alloc, text)?;
        self.at_hand[hand] = code;
        Ok(code)
    }

    // Whether a text stands at a place.
    fn stands_at(&self, place: u32, text: &str) -> bool
        ensures { result ≡ true →
            (place < length self.now) × (get_or self.now place [] ≡ text.now) }
    {
        let place = place as usize;
        place < self.len() && self.text(place) == text
    }

    // The code of a text, which becomes the last where it isn't there.
    fn code_of_listed(&mut self, alloc: Global, text: &str) -> Result<u32, AllocError>
        ensures texts { OnOk result (self.new ≡ texts_with (Some text.now) self.old) }
        ensures code { IfOk result (IsCodeOf self.new (coord.Text text.now)) }
        ensures valid { IfOk result (λ code. is_code self.new code ≡ true) }
        ensures dictionary { IsDictionary self.new }
        ensures err { OnErr result (self.new ≡ self.old) }
    {
        let _ = &self.texts;
        let code = self.code_of_text(text);
        if code == NONE {
            return self.push(alloc, text);
        }
        Ok(code)
    }

    // The place of a text, as a number of 32 bits.
    fn code_of_text(&self, text: &str) -> u32
        ensures code { IsCodeOf self.now (coord.Text text.now) result }
        ensures listed { is_listed text.now self.now ≡ not (result == no_code) }
    {
        let _ = &self.texts;
        match self.code_of(text) {
            None => NONE,
            Some(place) => place as u32,
        }
    }

    // Puts a text that isn't there last, and answers its code.
    fn push(&mut self, alloc: Global, text: &str) -> Result<u32, AllocError>
        requires { is_listed text.now self.old ≡ false }
        ensures texts { OnOk result (self.new ≡ self.old ++ text.now ∷ []) }
        ensures code { IfOk result (λ code. code ≡ length self.old) }
        ensures dictionary { IsDictionary self.new }
        ensures err { OnErr result (self.new ≡ self.old) }
    {
        let Some(code) = next_code(self.texts.len()) else {
            return Err(AllocError);
        };
        let text = String::from_str(alloc, text)?;
        self.texts.insert_full(text)?;
        Ok(code)
    }
}

/// How the keys of codes stand to each other, dimension by dimension, each by its own dictionaries.
#[tactic(auto, using(crate::proofs::Codes::TextLaws::first_coord))]
pub fn compare_keys(
    dictionaries: &[Dictionary],
    left: &[u32],
    others: &[Dictionary],
    right: &[u32],
) -> Ordering
    ensures { result ≡ slice_cmp coord_cmp
        (coords_at dictionaries.now left.now) (coords_at others.now right.now) }
{
    let Some((dictionary, dictionaries)) = dictionaries.split_first() else {
        return match others.split_first() {
            None => Ordering::Equal,
            Some(_) => Ordering::Less,
        };
    };
    let Some((other, others)) = others.split_first() else {
        return Ordering::Greater;
    };
    let (left, lefts) = first_code(left);
    let (right, rights) = first_code(right);
    match dictionary.compare(left, other, right) {
        Ordering::Equal => compare_keys(dictionaries, lefts, others, rights),
        apart => apart,
    }
}

// The first code, and the others; ALL where there is none.
fn first_code(codes: &[u32]) -> (u32, &[u32])
    ensures first { result.0 ≡ get_or codes.now 0 all_code }
    ensures others { result.1.now ≡ drop 1 codes.now }
{
    match codes.split_first() {
        None => (ALL, codes),
        Some((code, others)) => (*code, others),
    }
}

// Where the code of a text is kept at hand: by its last two bytes, so that numbers at the end of texts lead apart.
fn hand_of(text: &str) -> usize
    ensures { result < 256 }
{
    let Some((last, front)) = text.as_bytes().split_last() else {
        return 0;
    };
    let before = match front.last() {
        Some(byte) => *byte,
        None => 0,
    };
    usize::from(last.wrapping_add(before.wrapping_mul(10)))
}

// The code of the next of so many texts. There are codes for more texts than an `IndexSet` has places.
fn next_code(len: usize) -> Option<u32>
    ensures { result ≡ (if nat_lt len 4294967293 then Some len else None) }
{
    if len < NONE as usize {
        Some(len as u32)
    } else {
        None
    }
}
