//! The order of keys: coordinate by coordinate, texts by their bytes, then null, then ALL (this project's choice).
ghost use Rattle.std.specs.Prelude.{◌≡◌, ◌<◌, ℕ, List, ◌∷◌, ◌++◌};
ghost use Rattle.std.specs.Ordering.{ordering_reverse};
ghost use Rattle.cube_core.specs.Order.{key_cmp};
ghost use Rattle.cube_laws.specs.KeyOrder.{key_with, ComeBefore};
ghost use Rattle.cube_core.specs.declared.key.Coord.{Coord};
ghost use Rattle.cube_core.specs.declared.key.Coord.TheVariants as coord;
ghost use Rattle.cube_core.specs.declared.key.Key.{Key};

/// Where the first coordinates of two keys differ, a text comes before null, null before ALL, and of two texts the one
/// whose first other byte is smaller, or that is the front of the other; where they are one, the others decide; and of two
/// keys one comes before the other exactly where that comes after it (this project's choice).
pub fn texts_come_before_null_and_null_before_all()
    ensures text_before_null { (name : List ℕ) (coords others : List Coord) →
        ComeBefore (coord.Text name ∷ coords) (coord.Null ∷ others) }
    ensures text_before_all { (name : List ℕ) (coords others : List Coord) →
        ComeBefore (coord.Text name ∷ coords) (coord.All ∷ others) }
    ensures null_before_all { (coords others : List Coord) →
        ComeBefore (coord.Null ∷ coords) (coord.All ∷ others) }
    ensures by_bytes { (front after other_after : List ℕ) (byte other : ℕ) (coords others : List Coord) → byte < other →
        ComeBefore (coord.Text (front ++ byte ∷ after) ∷ coords) (coord.Text (front ++ other ∷ other_after) ∷ others) }
    ensures front_first { (front after : List ℕ) (byte : ℕ) (coords others : List Coord) →
        ComeBefore (coord.Text front ∷ coords) (coord.Text (front ++ byte ∷ after) ∷ others) }
    ensures next_decides { (first : Coord) (coords others : List Coord) →
        key_cmp (key_with (first ∷ coords)) (key_with (first ∷ others)) ≡ key_cmp (key_with coords) (key_with others) }
    ensures turned { (a b : Key) → key_cmp a b ≡ ordering_reverse (key_cmp b a) }
{}
