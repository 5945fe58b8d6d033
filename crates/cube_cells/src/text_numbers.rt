//! Numbers that stand for the texts that are counted.
ghost use Rattle.std.specs.Prelude.{◌≡◌, ◌+◌, ◌≤◌, ◌∷◌, [], All, Contains, IfOk, IfSome, OnOk, OnErr, length, map, option_map, take};
ghost use Rattle.cube_cells.specs.Codes.{IsDictionary, texts_with};
ghost use Rattle.cube_cells.specs.TextNumbers.{AreCountedFacts, StandFirst, measures_counted, number_in};
ghost use Rattle.cube_core.specs.TextPlaces.{counted_by, texts_counted};

use crate::cube::dictionary::Dictionary;
use arrayvec::ArrayVec;
use cube_core::{DimensionValues, Fact, HashKey, SmallSequence};
use std::alloc::{AllocError, Global};
use std::marker::Model;

/// The most measures of a fact as it is counted.
const MOST_MEASURES: usize = 4;

/// Numbers that stand for texts: that of a text is its place among the different texts that came, counted from 0.
///
/// Contracts see them as the list of these texts, in the order in which they came.
#[derive(Drop)]
pub struct TextNumbers {
    texts: Dictionary,
    alloc: Global,
}

impl Model for TextNumbers {
    ghost use Rattle.std.specs.Prelude.{List, ℕ};
    ghost use Rattle.cube_cells.specs.Codes.{IsDictionary};

    ghost Value = { List (List ℕ) };

    ghost view = { λ n. n.texts };

    ghost invariant = { λ n. IsDictionary n.texts };
}

impl TextNumbers {
    /// No text; it takes no memory. The texts are hashed under the key.
    pub fn new(alloc: Global, key: HashKey) -> TextNumbers
        ensures { result ≡ [] }
    {
        TextNumbers {
            texts: Dictionary::new(alloc, key),
            alloc,
        }
    }

    /// A fact as a cube counts it, where the last `texts` values of its dimensions are texts that are counted, or null:
    /// it has the other values, and behind its measures the number of each of these texts; null stays null. A text that
    /// isn't there becomes the last.
    ///
    /// The only error is that memory ran out, or numbers for texts. Then too the texts that were there keep their
    /// numbers.
    pub fn counted(&mut self, texts: usize, fact: &Fact) -> Result<Fact, AllocError>
        requires { texts ≤ length fact.now.dims }
        ensures counted { IfOk result (λ counted. counted ≡ counted_by (number_in self.new) texts fact.now) }
        ensures listed { OnOk result (All (Contains self.new) (texts_counted texts (fact.now ∷ []))) }
        ensures first { StandFirst self.old self.new }
        ensures dictionary { IsDictionary self.new }
    {
        let first = fact.dims.len() - texts;
        let mut measures = SmallSequence::from_slice(self.alloc, fact.measures.as_slice())?;
        measures.reserve_exact(texts)?;
        for place in 0..texts {
            let number = self.number_with(fact.dims.get(first + place))?;
            measures.push(number)?;
        }
        let dims = first_values(self.alloc, &fact.dims, first)?;
        Ok(Fact { dims, measures })
    }

    /// A fact as a cube counts it, as [`counted`](TextNumbers::counted) answers it, where each text that is counted is
    /// there. The only error is that memory ran out.
    pub fn counted_known(&self, texts: usize, fact: &Fact) -> Result<Fact, AllocError>
        requires texts { texts ≤ length fact.now.dims }
        requires known { All (Contains self.now) (texts_counted texts (fact.now ∷ [])) }
        ensures { IfOk result (λ counted. counted ≡ counted_by (number_in self.now) texts fact.now) }
    {
        let first = fact.dims.len() - texts;
        let mut measures = SmallSequence::from_slice(self.alloc, fact.measures.as_slice())?;
        measures.reserve_exact(texts)?;
        for place in 0..texts {
            measures.push(self.number_known(fact.dims.get(first + place)))?;
        }
        let dims = first_values(self.alloc, &fact.dims, first)?;
        Ok(Fact { dims, measures })
    }

    /// Facts as a cube counts them, where the last `texts` values of the dimensions of each are texts that are counted,
    /// or null: a text has the same number in all of them, and no two texts have one number. The texts are hashed under
    /// the key. The only error is that memory ran out, or numbers for texts.
    pub fn all_counted(
        alloc: Global,
        key: HashKey,
        texts: usize,
        facts: &[&Fact],
    ) -> Result<Vec<Fact>, AllocError>
        requires { All (λ fact. texts ≤ length fact.dims) (map (λ fact. fact.now) facts.now) }
        ensures { IfOk result (λ counted. AreCountedFacts texts (map (λ fact. fact.now) facts.now) counted.items) }
    {
        let mut numbers = TextNumbers::new(alloc, key);
        numbers.each_counted(texts, facts)
    }

    /// Each of some facts as a cube counts it, as [`counted`](TextNumbers::counted) answers it. The only error is that memory
    /// ran out, or numbers for texts. Then too the texts that were there keep their numbers.
    pub(crate) fn each_counted(
        &mut self,
        texts: usize,
        facts: &[&Fact],
    ) -> Result<Vec<Fact>, AllocError>
        requires { All (λ fact. texts ≤ length fact.dims) (map (λ fact. fact.now) facts.now) }
        ensures counted { IfOk result (λ counted. counted.items ≡
            map (counted_by (number_in self.new) texts) (map (λ fact. fact.now) facts.now)) }
        ensures listed { OnOk result
            (All (Contains self.new) (texts_counted texts (map (λ fact. fact.now) facts.now))) }
        ensures first { StandFirst self.old self.new }
        ensures dictionary { IsDictionary self.new }
    {
        let mut counted = Vec::with_capacity(self.alloc, facts.len())?;
        for fact in facts {
            counted.push(self.counted(texts, *fact)?)?;
        }
        Ok(counted)
    }

    /// The measures of a fact as a cube counts it, as [`counted`](TextNumbers::counted) makes it: its own, and behind them the
    /// numbers of the texts that are counted. Where there is room for the texts that are new, it takes no memory.
    pub(crate) fn measures_with(
        &mut self,
        texts: usize,
        fact: &Fact,
    ) -> Result<ArrayVec<Option<i64>, MOST_MEASURES>, AllocError>
        requires texts { texts ≤ length fact.now.dims }
        requires few { length fact.now.measures + texts ≤ 4 }
        ensures measures { IfOk result (λ measures. measures.items ≡
            measures_counted (number_in self.new) texts fact.now) }
        ensures listed { OnOk result (All (Contains self.new) (texts_counted texts (fact.now ∷ []))) }
        ensures first { StandFirst self.old self.new }
        ensures dictionary { IsDictionary self.new }
    {
        let _ = &self.texts;
        let first = fact.dims.len() - texts;
        let mut measures = ArrayVec::try_from(fact.measures.as_slice()).unwrap();
        for place in 0..texts {
            let value = fact.dims.get(first + place);
            let number = self.number_with(value)?;
            measures.push(number);
        }
        Ok(measures)
    }

    /// The same where each text that is counted is there. It takes no memory.
    pub(crate) fn measures_known(
        &self,
        texts: usize,
        fact: &Fact,
    ) -> ArrayVec<Option<i64>, MOST_MEASURES>
        requires texts { texts ≤ length fact.now.dims }
        requires few { length fact.now.measures + texts ≤ 4 }
        requires known { All (Contains self.now) (texts_counted texts (fact.now ∷ [])) }
        ensures { result.items ≡ measures_counted (number_in self.now) texts fact.now }
    {
        let first = fact.dims.len() - texts;
        let mut measures = ArrayVec::try_from(fact.measures.as_slice()).unwrap();
        for place in 0..texts {
            let value = fact.dims.get(first + place);
            measures.push(self.number_known(value));
        }
        measures
    }

    // The number of a text, which becomes the last where it isn't there; null of null.
    fn number_with(&mut self, value: Option<&str>) -> Result<Option<i64>, AllocError>
        ensures number { IfOk result (λ number.
            number ≡ option_map (number_in self.new) (option_map (λ text. text.now) value.entry)) }
        ensures listed { OnOk result (IfSome (option_map (λ text. text.now) value.entry) (Contains self.new)) }
        ensures first { StandFirst self.old self.new }
        ensures dictionary { IsDictionary self.new }
    {
        let Some(text) = value else {
            let _ = &self.texts;
            return Ok(None);
        };
        let code = self.texts.code_with(self.alloc, Some(text))?;
        Ok(Some(i64::from(code)))
    }

    // The number of a text that is there; null of null.
    fn number_known(&self, value: Option<&str>) -> Option<i64>
        requires { IfSome (option_map (λ text. text.now) value) (Contains self.now) }
        ensures { result ≡ option_map (number_in self.now) (option_map (λ text. text.now) value.entry) }
    {
        let text = value?;
        let code = self.texts.code_of_value(Some(text));
        Some(i64::from(code))
    }
}

// The first values, so many, which are copied.
fn first_values(
    alloc: Global,
    values: &DimensionValues,
    number: usize,
) -> Result<DimensionValues, AllocError>
    requires { number ≤ length values.now }
    ensures { IfOk result (λ first. first ≡ take number values.now) }
{
    let mut first = DimensionValues::new(alloc);
    for place in 0..number {
        first.push(values.get(place))?;
    }
    Ok(first)
}
