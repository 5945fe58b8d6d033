//! Laws of the statistics of a multiset, of which the contracts of [`Counted`](crate::Counted) speak.
ghost use Rattle.std.specs.Prelude.{◌≡◌, ◌↔◌, ℕ, ℤ, length};
ghost use Rattle.cube_values.specs.Bag.{Bag, size_of, HasLeast, HasGreatest};
ghost use Rattle.cube_values.specs.Statistics.{IsAtPlace, AreInOrder, HasDifferent};

/// At a place stands one number: the least at the first place, and the greatest at the last. The numbers in order are
/// one list, and it has as many pairs as there are different numbers.
pub fn statistics_are_determined()
    ensures place { (bag : Bag) (k : ℕ) (v w : ℤ) → IsAtPlace bag k v → IsAtPlace bag k w → v ≡ w }
    ensures first { (bag : Bag) (v : ℤ) → IsAtPlace bag 1 v ↔ HasLeast bag v }
    ensures last { (bag : Bag) (v : ℤ) → IsAtPlace bag (size_of bag) v ↔ HasGreatest bag v }
    ensures in_order { (bag one other : Bag) → AreInOrder bag one → AreInOrder bag other → one ≡ other }
    ensures different { (bag pairs : Bag) (n : ℕ) → AreInOrder bag pairs → HasDifferent bag n → n ≡ length pairs }
{}
