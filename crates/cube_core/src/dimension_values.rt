//! The values of a fact's dimensions, whose texts lie in one block.
ghost use Rattle.std.specs.Prelude.{◌≡◌, ◌≤◌, ◌∷◌, ◌+◌, [], ◌++◌, false, true, None, IfOk, IfSome, OnOk, OnErr, length, map, sum_by, get_or, option_map, slice_range};
ghost use Rattle.std.specs.Str.{IsAscii};
ghost use Rattle.cube_core.specs.Items.{dimension_of};
ghost use Rattle.cube_core.specs.Values.{Adds, AddsAll, Keeps, LiesIn, block_of, spans_of, value_at_span, parts_of};
ghost use Rattle.cube_core.specs.declared.dimension_values.Span.TheVariants.{Text as TheText};

use crate::text::Text;
use arrayvec::ArrayVec;
use std::alloc::{AllocError, Global};
use std::marker::Model;
use std::str;

/// The most bytes of texts that lie in the value itself: fewer than 256, so that a `u8` tells a place among them.
const BLOCK: usize = 40;

/// The most values that lie in the value itself.
pub const VALUES_IN_PLACE: usize = 4;

/// How many bytes of texts, and how many values, there is room for at first where they lie on the heap: a fact has up to 8
/// dimensions.
const FIRST_BLOCK: usize = 80;

const FIRST_VALUES: usize = 8;

// Where a value lies in the block.
#[derive(Clone, Copy, Debug, Default)]
enum Span<N> {
    #[default]
    Null,
    Text { start: N, end: N },
}

// The block of texts with the spans of the values, in the value itself or on the heap.
#[derive(Debug, Drop)]
enum StoredValues {
    Short {
        block: ArrayVec<u8, BLOCK>,
        spans: ArrayVec<Span<u8>, VALUES_IN_PLACE>,
    },
    Long {
        block: Vec<u8>,
        spans: Vec<Span<u32>>,
    },
}

/// The values of a fact's dimensions in order, each a text or null, which contracts see as the plain list.
///
/// All texts lie in one block. Where they have up to 40 bytes together, and where there are up to 4 values, they lie in
/// the value itself.
#[derive(Debug, Drop)]
pub struct DimensionValues {
    alloc: Global,
    stored: StoredValues,
}

impl Model for DimensionValues {
    ghost use Rattle.std.specs.Prelude.{List, ℕ, Option, All};
    ghost use Rattle.cube_core.specs.Values.{values_in, LiesIn, block_of, spans_of};

    ghost Value = { List (Option (List ℕ)) };

    ghost view = { λ v. values_in (block_of v.stored) (spans_of v.stored) };

    ghost invariant = { λ v. All (LiesIn (block_of v.stored)) (spans_of v.stored) };
}

impl DimensionValues {
    /// No values; it takes no memory.
    pub fn new(alloc: Global) -> DimensionValues
        ensures { result ≡ [] }
    {
        DimensionValues {
            alloc,
            stored: StoredValues::Short {
                block: ArrayVec::new(),
                spans: ArrayVec::new(),
            },
        }
    }

    /// The values of a slice, which are copied; the only error is that memory ran out.
    pub fn from_slice(alloc: Global, values: &[Option<Text>]) -> Result<DimensionValues, AllocError>
        ensures { IfOk result (λ copies. copies ≡ values.now) }
    {
        let texts: Vec<Option<&str>> = values.iter().map(|value| text_of(value)).collect(alloc)?;
        DimensionValues::of_texts(alloc, &texts)
    }

    /// The values of a slice of texts, which are copied; the only error is that memory ran out.
    pub fn of_texts(alloc: Global, values: &[Option<&str>]) -> Result<DimensionValues, AllocError>
        ensures { IfOk result (λ copies. copies ≡ map (option_map (λ text. text.now)) values.entry.now) }
    {
        let mut copies = DimensionValues::new(alloc);
        for value in values {
            copies.push(*value)?;
        }
        Ok(copies)
    }

    /// Adds a text or null at the end. The only error is that memory ran out, to which more than 2^32 - 1 bytes of texts count.
    #[inline]
    pub fn push(&mut self, value: Option<&str>) -> Result<(), AllocError>
        ensures { OnOk result (self.new ≡
            self.old ++ option_map (λ text. text.now) value.entry ∷ []) }
    {
        if let StoredValues::Short { block, spans } = &mut self.stored {
            if add_in_place(block, spans, value) {
                return Ok(());
            }
        }
        push_on_heap(self.alloc, &mut self.stored, value)
    }

    /// Adds the values of fields of ASCII, whose bytes lie one after another in a text: null where a field is `\N`, and
    /// else the field's text. False where there is no room for them in the value itself, and then nothing changes.
    #[inline]
    pub fn push_fields(&mut self, text: &[u8], lens: &[usize]) -> bool
        requires ascii { IsAscii text.now }
        requires whole { sum_by (λ len. len) lens.now ≡ length text.now }
        ensures added { result ≡ true → self.new ≡ self.old ++ map dimension_of (parts_of lens.now text.now) }
        ensures full { result ≡ false → self.new ≡ self.old }
    {
        match &mut self.stored {
            StoredValues::Short { block, spans } => add_fields_in_place(block, spans, text, lens),
            StoredValues::Long { .. } => false,
        }
    }

    /// How many values there are.
    pub fn len(&self) -> usize
        ensures { result ≡ length self.now }
    {
        match &self.stored {
            StoredValues::Short { spans, .. } => spans.len(),
            StoredValues::Long { spans, .. } => spans.as_slice().len(),
        }
    }

    /// The text at a place, counted from 0; None where null stands there, and past the last one.
    pub fn get(&self, place: usize) -> Option<&str>
        ensures { option_map (λ text. text.now) result ≡ get_or self.now place None }
    {
        match &self.stored {
            StoredValues::Short { block, spans } => match spans.as_slice().get(place) {
                Some(Span::Text { start, end }) => {
                    Some(text_between(block.as_slice(), *start as usize, *end as usize))
                }
                _ => None,
            },
            StoredValues::Long { block, spans } => match spans.as_slice().get(place) {
                Some(Span::Text { start, end }) => {
                    Some(text_between(block.as_slice(), *start as usize, *end as usize))
                }
                _ => None,
            },
        }
    }

    /// A copy; the only error is that memory ran out.
    pub fn copy(&self, alloc: Global) -> Result<DimensionValues, AllocError>
        ensures { IfOk result (λ copy. copy ≡ self.now) }
    {
        let stored = match &self.stored {
            StoredValues::Short { block, spans } => StoredValues::Short {
                block: ArrayVec::try_from(block.as_slice()).unwrap(),
                spans: ArrayVec::try_from(spans.as_slice()).unwrap(),
            },
            StoredValues::Long { block, spans } => StoredValues::Long {
                block: Vec::from_slice(alloc, block.as_slice())?,
                spans: Vec::from_slice(alloc, spans.as_slice())?,
            },
        };
        Ok(DimensionValues { alloc, stored })
    }
}

// The text from a place of a block to another.
fn text_between(block: &[u8], start: usize, end: usize) -> &str
    requires { LiesIn block.now (TheText start end) }
    ensures { result.now ≡ slice_range block.now start end }
{
    // The bytes of each span are UTF-8.
    unsafe { str::from_utf8_unchecked(&block[start..end]) }
}

// Adds a value where there is room for it; else nothing changes.
fn add_in_place(
    block: &mut ArrayVec<u8, BLOCK>,
    spans: &mut ArrayVec<Span<u8>, VALUES_IN_PLACE>,
    value: Option<&str>,
) -> bool
    ensures added { result ≡ true → Adds block.old.items spans.old.items block.new.items spans.new.items
        (option_map (λ text. text.now) value.entry) }
    ensures full { result ≡ false → (block.new ≡ block.old) × (spans.new ≡ spans.old) }
{
    if spans.is_full() {
        return false;
    }
    let Some(text) = value else {
        spans.push(Span::Null);
        return true;
    };
    let start = block.len();
    let Ok(()) = block.try_extend_from_slice(text.as_bytes()) else {
        return false;
    };
    spans.push(Span::Text {
        start: start as u8,
        end: block.len() as u8,
    });
    true
}

// Adds the values of fields whose bytes lie one after another where there is room for all of them; else nothing changes.
fn add_fields_in_place(
    block: &mut ArrayVec<u8, BLOCK>,
    spans: &mut ArrayVec<Span<u8>, VALUES_IN_PLACE>,
    text: &[u8],
    lens: &[usize],
) -> bool
    requires ascii { IsAscii text.now }
    requires whole { sum_by (λ len. len) lens.now ≡ length text.now }
    ensures added { result ≡ true → AddsAll block.old.items spans.old.items block.new.items spans.new.items
        (map dimension_of (parts_of lens.now text.now)) }
    ensures full { result ≡ false → (block.new ≡ block.old) × (spans.new ≡ spans.old) }
{
    if spans.remaining_capacity() < lens.len() {
        return false;
    }
    let mut end = block.len();
    let Ok(()) = block.try_extend_from_slice(text) else {
        return false;
    };
    for len in lens {
        let start = end;
        end += *len;
        spans.push(span_of(block.as_slice(), start, end));
    }
    true
}

// The span of a field's value from a place of a block to another.
fn span_of(block: &[u8], start: usize, end: usize) -> Span<u8>
    requires { (start ≤ end) × (end ≤ length block.now) × (length block.now ≤ 40) }
    ensures value { value_at_span block.now result ≡ dimension_of (slice_range block.now start end) }
    ensures lies { IsAscii (slice_range block.now start end) → LiesIn block.now result }
{
    if &block[start..end] == b"\\N".as_slice() {
        return Span::Null;
    }
    Span::Text {
        start: start as u8,
        end: end as u8,
    }
}

// Where a text begins and ends that is put at the end of a block; None past the largest `usize`.
fn places_after(block: &[u8], text: &str) -> Option<(usize, usize)>
    ensures { IfSome result (λ places.
        (places.0 ≡ length block.now) × (places.1 ≡ length block.now + length text.now)) }
{
    let end = block.len().checked_add(text.len())?;
    Some((block.len(), end))
}

// Adds a value on the heap; the only error is that memory ran out.
fn add_on_heap(
    block: &mut Vec<u8>,
    spans: &mut Vec<Span<u32>>,
    value: Option<&str>,
) -> Result<(), AllocError>
    ensures added { OnOk result (Adds block.old.items spans.old.items block.new.items spans.new.items
        (option_map (λ text. text.now) value.entry)) }
    ensures kept { OnErr result (Keeps block.old.items spans.old.items block.new.items spans.new.items) }
{
    let Some(text) = value else {
        spans.push(Span::Null)?;
        return Ok(());
    };
    let Some((start, end)) = places_after(block.as_slice(), text) else {
        return Err(AllocError);
    };
    let (Ok(start), Ok(end)) = (u32::try_from(start), u32::try_from(end)) else {
        return Err(AllocError);
    };
    block.extend_from_slice(text.as_bytes())?;
    spans.push(Span::Text { start, end })?;
    Ok(())
}

// The same spans, with room for larger places.
fn widened(alloc: Global, spans: &[Span<u8>]) -> Result<Vec<Span<u32>>, AllocError>
    ensures { IfOk result (λ wide. wide.items ≡ spans.now) }
{
    let mut wide = Vec::with_capacity(alloc, FIRST_VALUES)?;
    for span in spans {
        wide.push(match span {
            Span::Null => Span::Null,
            Span::Text { start, end } => Span::Text {
                start: u32::from(*start),
                end: u32::from(*end),
            },
        })?;
    }
    Ok(wide)
}

// Adds a value on the heap, to which a block and spans are moved first that don't lie there.
#[cold]
fn push_on_heap(
    alloc: Global,
    stored: &mut StoredValues,
    value: Option<&str>,
) -> Result<(), AllocError>
    ensures added { OnOk result (Adds (block_of stored.old) (spans_of stored.old) (block_of stored.new) (spans_of stored.new)
        (option_map (λ text. text.now) value.entry)) }
    ensures kept { OnErr result (Keeps (block_of stored.old) (spans_of stored.old) (block_of stored.new) (spans_of stored.new)) }
{
    match stored {
        StoredValues::Long { block, spans } => add_on_heap(block, spans, value),
        StoredValues::Short { block, spans } => {
            let moved = moved_to_heap(alloc, block.as_slice(), spans.as_slice(), value)?;
            *stored = moved;
            Ok(())
        }
    }
}

// The values of a block and spans, which are copied to the heap, and one more.
fn moved_to_heap(
    alloc: Global,
    block: &[u8],
    spans: &[Span<u8>],
    value: Option<&str>,
) -> Result<StoredValues, AllocError>
    ensures { IfOk result (λ moved. Adds block.now spans.now (block_of moved) (spans_of moved)
        (option_map (λ text. text.now) value.entry)) }
{
    let mut texts = Vec::with_capacity(alloc, FIRST_BLOCK)?;
    texts.extend_from_slice(block)?;
    let mut spans = widened(alloc, spans)?;
    add_on_heap(&mut texts, &mut spans, value)?;
    Ok(StoredValues::Long {
        block: texts,
        spans,
    })
}

/// The text of a value; None of null.
pub(crate) fn text_of(value: &Option<Text>) -> Option<&str>
    ensures { option_map (λ text. text.now) result ≡ value.now }
{
    match value {
        None => None,
        Some(text) => Some(text.as_str()),
    }
}
