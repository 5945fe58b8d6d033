//! What a fact has to be to be of interest: conditions on its values.
ghost use Rattle.std.specs.Prelude.{◌≡◌, None, get_or, option_map};
ghost use Rattle.std.specs.List.{list_any};
ghost use Rattle.std.specs.Ordering.{int_cmp};
ghost use Rattle.cube_core.specs.Conditions.{agrees, hold, holds, is_same, passes, text_cmp};

use crate::fact::Fact;
use crate::sequence::Sequence;
use crate::text::Text;
use std::cmp::Ordering;

/// How a value has to lie to a bound.
#[derive(Clone, Copy, Debug, PartialEq, Eq)]
pub enum Comparison {
    /// Before it.
    Below,
    /// Before it, or the bound itself.
    AtMost,
    /// Behind it.
    Above,
    /// Behind it, or the bound itself.
    AtLeast,
}

/// What a word writes between a name and a value.
#[derive(Clone, Copy, Debug, PartialEq, Eq)]
pub enum Operator {
    /// `=`: one of the values.
    Equal,
    /// `!=`: none of the values.
    Unequal,
    /// `<`, `<=`, `>` or `>=`: so to the one value.
    Ordered(Comparison),
}

/// What a value, a text or a number or null, has to be.
#[derive(Debug, Drop)]
pub enum Test<V> {
    /// One of these.
    OneOf { values: Sequence<Option<V>> },
    /// None of these.
    NoneOf { values: Sequence<Option<V>> },
    /// No null, and so to a bound: texts are compared by their bytes.
    Compared { comparison: Comparison, bound: V },
}

/// A condition on a fact: a test of the value that it has in a dimension or of a measure, by its place in the schema,
/// counted from 0. Past the last place stands null.
#[derive(Debug, Drop)]
pub enum Condition {
    Dimension { place: usize, test: Test<Text> },
    Measure { place: usize, test: Test<i64> },
}

impl Comparison {
    // Whether a value that compares so to a bound lies to it as is wanted.
    fn agrees(self, order: Ordering) -> bool
        ensures { result ≡ agrees self order }
    {
        match self {
            Comparison::Below => order.is_lt(),
            Comparison::AtMost => order.is_le(),
            Comparison::Above => order.is_gt(),
            Comparison::AtLeast => order.is_ge(),
        }
    }
}

impl Condition {
    /// Whether it holds of a fact. It takes no memory.
    pub fn holds(&self, fact: &Fact) -> bool
        ensures { result ≡ holds self.now fact.now }
    {
        match self {
            Condition::Dimension { place, test } => text_passes(test, fact.dims.get(*place)),
            Condition::Measure { place, test } => {
                number_passes(test, number_at(fact.measures.as_slice(), *place))
            }
        }
    }
}

/// Whether all conditions hold of a fact. It takes no memory.
pub fn hold(conditions: &[Condition], fact: &Fact) -> bool
    ensures { result ≡ hold conditions.now fact.now }
{
    conditions.iter().all(|condition| condition.holds(fact))
}

// The number at a place; null past the last.
fn number_at(numbers: &[Option<i64>], place: usize) -> Option<i64>
    ensures { result ≡ get_or numbers.now place None }
{
    match numbers.get(place) {
        Some(number) => *number,
        None => None,
    }
}

// Whether a text or null passes a test.
fn text_passes(test: &Test<Text>, value: Option<&str>) -> bool
    ensures { result ≡ passes text_cmp test.now (option_map (λ text. text.now) value.entry) }
{
    match test {
        Test::OneOf { values } => is_text_among(values.as_slice(), value),
        Test::NoneOf { values } => !is_text_among(values.as_slice(), value),
        Test::Compared { comparison, bound } => match value {
            Some(text) => comparison.agrees(text.cmp(bound.as_str())),
            None => false,
        },
    }
}

// Whether a text or null stands among values.
fn is_text_among(values: &[Option<Text>], value: Option<&str>) -> bool
    ensures { result ≡ list_any (is_same text_cmp (option_map (λ text. text.now) value.entry)) values.now }
{
    values.iter().any(|other| is_text(other, value))
}

// Whether a value is a text, or null where that is null.
fn is_text(value: &Option<Text>, text: Option<&str>) -> bool
    ensures { result ≡ is_same text_cmp (option_map (λ text. text.now) text.entry) value.now }
{
    match (value, text) {
        (Some(value), Some(text)) => text == value.as_str(),
        (None, None) => true,
        _ => false,
    }
}

// Whether a number or null passes a test.
fn number_passes(test: &Test<i64>, value: Option<i64>) -> bool
    ensures { result ≡ passes int_cmp test.now value }
{
    match test {
        Test::OneOf { values } => is_number_among(values.as_slice(), value),
        Test::NoneOf { values } => !is_number_among(values.as_slice(), value),
        Test::Compared { comparison, bound } => match value {
            Some(number) => comparison.agrees(number.cmp(bound)),
            None => false,
        },
    }
}

// Whether a number or null stands among values.
fn is_number_among(values: &[Option<i64>], value: Option<i64>) -> bool
    ensures { result ≡ list_any (is_same int_cmp value) values.now }
{
    values.iter().any(|other| is_number(*other, value))
}

// Whether a value is a number, or null where that is null.
fn is_number(value: Option<i64>, number: Option<i64>) -> bool
    ensures { result ≡ is_same int_cmp number value }
{
    match (value, number) {
        (Some(value), Some(number)) => number == value,
        (None, None) => true,
        _ => false,
    }
}
