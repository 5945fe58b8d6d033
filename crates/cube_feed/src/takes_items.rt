//! What takes the items of several feeds in.
ghost use Rattle.std.specs.Prelude.{◌≡◌, ◌≤◌, ◌++◌, ◌∷◌, [], ℕ, Bool, false, OnOk, OnErr};
ghost use Rattle.cube_core.specs.Arrival.{Arrivals};

use crate::feed_item::FeedItem;
use std::alloc::AllocError;

/// What takes the items of several sources, one at a time, by what it promises of each arrival list.
///
/// Whatever arrivals it stands at, after an item it stands at these followed by the item; where it finds no memory it
/// stands where it stood.
pub trait TakesItems: Drop {
    ghost sources: { Self → ℕ };

    ghost stands: { Self → Self → Arrivals → Type 0 };

    ghost full: { Self → Bool };

    /// How many sources there are, numbered from 1.
    fn sources(&self) -> u32
        ensures { result ≡ sources self.now };

    /// Whether it takes no item more.
    fn is_full(&self) -> bool
        ensures { result ≡ full self.now };

    /// Takes the next item of a source, which a feed gave. The only error is that memory ran out.
    fn take_item(&mut self, source: u32, item: FeedItem) -> Result<(), AllocError>
        requires source { (1 ≤ source) × (source ≤ sources self.old) }
        requires room { full self.old ≡ false }
        ensures sources { sources self.new ≡ sources self.old }
        ensures stands { OnOk result ((first : Self) (arrivals : Arrivals) →
            stands first self.old arrivals →
            stands first self.new (arrivals ++ (source, item) ∷ [])) }
        ensures unchanged { OnErr result ((first : Self) (arrivals : Arrivals) →
            stands first self.old arrivals → stands first self.new arrivals) };
}
