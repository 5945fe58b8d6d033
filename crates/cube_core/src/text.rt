//! A text that contracts see as the list of its UTF-8 bytes.
ghost use Rattle.std.specs.Prelude.{◌≡◌, IfOk, IsUtf8, map, nat_eq};
ghost use Rattle.std.specs.String.{string_bytes};
ghost use Rattle.std.specs.Cmp.Rules.{comparing, hashing};
ghost use Rattle.std.specs.Cmp.Lexicographic.{slice_cmp, pointwise};
ghost use Rattle.std.specs.Ordering.{nat_cmp, as_partial_cmp};
ghost use Rattle.std.specs.Hash as fed;
ghost use Rattle.std.proofs.Common.{rules};

use arrayvec::ArrayString;
use std::alloc::{AllocError, Global};
use std::cmp::Ordering;
use std::hash::{Hash, Hasher};
use std::marker::Model;

/// The most bytes of a text that lie in the value itself.
const SHORT: usize = 24;

// Where the bytes of a text lie.
#[derive(Debug, Drop)]
enum Stored {
    Short(ArrayString<SHORT>),
    Long(String),
}

/// A text: a name, an id, or a value of a dimension.
///
/// A text that is made of at most 24 bytes lies in the value itself, a longer one on the heap. Texts are ordered by
/// their bytes.
#[derive(Debug, Drop)]
pub struct Text {
    stored: Stored,
}

impl Model for Text {
    ghost use Rattle.std.specs.Prelude.{List, ℕ};
    ghost use Rattle.cube_core.specs.Stored.{stored_bytes};

    ghost Value = { List ℕ };

    ghost view = { λ t. stored_bytes t.stored };
}

impl Text {
    /// The text of a `String`, which is moved.
    pub fn from_string(string: String) -> Text
        ensures { result ≡ string_bytes string }
    {
        Text {
            stored: Stored::Long(string),
        }
    }

    /// A copy of `text`; the only error is that memory ran out.
    pub fn from_str(alloc: Global, text: &str) -> Result<Text, AllocError>
        ensures { IfOk result (λ copy. copy ≡ text.now) }
    {
        let Ok(short) = ArrayString::from(text) else {
            return Ok(Text::from_string(String::from_str(alloc, text)?));
        };
        Ok(Text {
            stored: Stored::Short(short),
        })
    }

    /// The text itself.
    pub fn as_str(&self) -> &str
        ensures value { result.now ≡ self.now }
        ensures utf8 { IsUtf8 self.now }
    {
        match &self.stored {
            Stored::Short(text) => text.as_str(),
            Stored::Long(text) => text.as_str(),
        }
    }

    /// A copy; the only error is that memory ran out.
    pub fn copy(&self, alloc: Global) -> Result<Text, AllocError>
        ensures { IfOk result (λ copy. copy ≡ self.now) }
    {
        Text::from_str(alloc, self.as_str())
    }
}

impl PartialEq for Text {
    ghost eq = { pointwise nat_eq };

    ghost laws = { Prim.search (comparing, rules) };

    fn eq(&self, other: &Text) -> bool {
        self.as_str() == other.as_str()
    }
}

impl Eq for Text {
    ghost laws = { Prim.search (comparing, rules) };
}

impl PartialOrd for Text {
    ghost partial_cmp = { as_partial_cmp (slice_cmp nat_cmp) };

    ghost laws = { Prim.search (comparing, rules) };

    fn partial_cmp(&self, other: &Text) -> Option<Ordering> {
        Some(self.cmp(other))
    }
}

impl Ord for Text {
    ghost cmp = { slice_cmp nat_cmp };

    ghost total = { Prim.search (comparing, rules) };

    ghost matches_partial_cmp = { Prim.search (comparing, rules) };

    ghost matches_eq = { Prim.search (comparing, rules) };

    fn cmp(&self, other: &Text) -> Ordering {
        self.as_str().cmp(other.as_str())
    }
}

impl Hash for Text {
    ghost hash_input = { λ t. fed.str t };

    ghost respects_eq = { Prim.search (hashing, rules) };

    fn hash<H: Hasher>(&self, state: &mut H) {
        self.as_str().hash(state);
    }
}

/// Copies of texts, in order.
pub(crate) fn copy_texts(alloc: Global, texts: &[Text]) -> Result<Vec<Text>, AllocError>
    ensures { IfOk result (λ copies. copies.items ≡ texts.now) }
{
    let mut copies = Vec::with_capacity(alloc, texts.len())?;
    for text in texts {
        copies.push(text.copy(alloc)?)?;
    }
    Ok(copies)
}

/// Texts, which are copied, in order.
pub(crate) fn texts_from_strs(alloc: Global, texts: &[&str]) -> Result<Vec<Text>, AllocError>
    ensures { IfOk result (λ copies. copies.items ≡ map (λ text. text.now) texts.entry.now) }
{
    let mut copies = Vec::with_capacity(alloc, texts.len())?;
    for text in texts {
        copies.push(Text::from_str(alloc, *text)?)?;
    }
    Ok(copies)
}
