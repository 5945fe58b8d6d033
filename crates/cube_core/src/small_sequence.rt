//! A list of few values in the value itself, which contracts see as the plain list.
ghost use Rattle.std.specs.Prelude.{◌≡◌, ◌==◌, ◌∷◌, [], ◌++◌, IfOk, OnOk, length};

use smallvec::SmallVec;
use std::alloc::{AllocError, Global};
use std::marker::Model;

/// The most items of a small sequence that lie in the value itself.
const IN_PLACE: usize = 2;

/// A list of values in order, of which up to two lie in the value itself and more on the heap.
#[derive(Debug, Drop)]
pub struct SmallSequence<T> {
    items: SmallVec<T, IN_PLACE>,
}

impl<T> Model for SmallSequence<T> {
    ghost use Rattle.std.specs.Prelude.{List};

    ghost Value = { List T };

    ghost view = { λ s. s.items.items };
}

impl<T> SmallSequence<T> {
    /// The items in order.
    pub fn as_slice(&self) -> &[T]
        ensures { result.now ≡ self.now }
    {
        self.items.as_slice()
    }

    /// How many items there are.
    pub fn len(&self) -> usize
        ensures { result ≡ length self.now }
    {
        self.items.len()
    }

    /// Whether there is no item.
    pub fn is_empty(&self) -> bool
        ensures { result ≡ (length self.now == 0) }
    {
        self.items.is_empty()
    }
}

impl<T: Default + Drop> SmallSequence<T> {
    /// No items; it takes no memory.
    pub fn new(alloc: Global) -> SmallSequence<T>
        ensures { result ≡ [] }
    {
        SmallSequence {
            items: SmallVec::new(alloc),
        }
    }

    /// Makes room for exactly so many more items; the only error is that memory ran out.
    pub fn reserve_exact(&mut self, additional: usize) -> Result<(), AllocError>
        ensures { self.new ≡ self.old }
    {
        self.items.reserve_exact(additional)
    }

    /// Adds an item at the end; the only error is that memory ran out.
    pub fn push(&mut self, item: T) -> Result<(), AllocError>
        ensures { OnOk result (self.new ≡ self.old ++ item ∷ []) }
    {
        self.items.push(item)?;
        Ok(())
    }

    /// The sequence of a `Vec`, which is moved, and freed where its items lie in the value itself.
    pub fn from_vec(items: Vec<T>) -> SmallSequence<T>
        ensures { result ≡ items.items }
    {
        SmallSequence {
            items: SmallVec::from_vec(items),
        }
    }
}

impl<T: Default + Copy> SmallSequence<T> {
    /// The sequence of the items of a slice, which are copied; the only error is that memory ran out.
    pub fn from_slice(alloc: Global, items: &[T]) -> Result<SmallSequence<T>, AllocError>
        ensures { IfOk result (λ copy. copy ≡ items.now) }
    {
        let items = SmallVec::from_slice(alloc, items)?;
        Ok(SmallSequence { items })
    }
}
