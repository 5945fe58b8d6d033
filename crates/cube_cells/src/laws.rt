//! Laws of the tally of facts, of which the contracts of [`Cell`](crate::Cell) speak.
ghost use Rattle.std.specs.Prelude.{◌≡◌, ◌<◌, ◌^◌, ◌∷◌, [], ℕ, ℤ, All, List, length, true};
ghost use Rattle.std.specs.List.{AllZip};
ghost use Rattle.std.specs.List.Sorted.{IsPermutation};
ghost use Rattle.cube_core.specs.Cube.{AreRowsOver};
ghost use Rattle.cube_core.specs.GroupingSet.{is_among};
ghost use Rattle.cube_core.specs.declared.key.Row.{Row};
ghost use Rattle.cube_cells.specs.Rows.{IsRowOf};
ghost use Rattle.cube_core.specs.Layout.{Layout};
ghost use Rattle.cube_core.specs.Takes.{fits};
ghost use Rattle.cube_core.specs.declared.fact.Fact.{Fact};
ghost use Rattle.cube_cells.specs.BottomUp.{AreInTextOrder, IsWalkOf};
ghost use Rattle.cube_cells.specs.Codes.{Dictionaries};
ghost use Rattle.cube_cells.specs.Coded.{CodedCells, IsCoded, decoded, lattice_of};
ghost use Rattle.cube_cells.specs.CountedCube.{CountedView, HasCounted, fits_counted};
ghost use Rattle.cube_cells.specs.Cube.{IsCubeOf};
ghost use Rattle.cube_cells.specs.Fill.{IsCubeOfAll, finest_set};
ghost use Rattle.cube_cells.specs.Levels.{mask_of_codes};
ghost use Rattle.cube_cells.specs.Tally.{Tally, IsTallyOf, PlusFact, SameTally, holds_fact};
ghost use Rattle.cube_core.specs.TextPlaces.{counted_by};

/// A tally with the values of a fact more is that of a fact more, with less that of a fact less; the order of the
/// facts makes no difference, nor how the bags hold their numbers; and a fact of the tally is held.
pub fn tallies_follow_facts()
    ensures more { (facts : List Fact) (fact : Fact) (old new : Tally) →
        IsTallyOf facts old → PlusFact fact.measures old new → IsTallyOf (fact ∷ facts) new }
    ensures less { (facts : List Fact) (fact : Fact) (old new : Tally) →
        IsTallyOf (fact ∷ facts) old → PlusFact fact.measures new old → IsTallyOf facts new }
    ensures same { (facts : List Fact) (a b : Tally) →
        IsTallyOf facts a → SameTally a b → IsTallyOf facts b }
    ensures moved { (facts moved : List Fact) (t : Tally) →
        IsPermutation facts moved → IsTallyOf facts t → IsTallyOf moved t }
    ensures held { (facts : List Fact) (fact : Fact) (t : Tally) →
        IsTallyOf (fact ∷ facts) t → length fact.measures ≡ length t.bags → holds_fact t fact.measures ≡ true }
{}

/// Over the finest cells of some facts a bottom-up walk gives the cube of these facts over the kept sets, and where the texts
/// of each dimension are in order, the rows of its cells are those of the cube, in key order.
pub fn walks_give_cubes()
    ensures cube { (schema : Layout) (dictionaries : Dictionaries) (facts : List Fact) (sets : List ℕ)
        (items cells : CodedCells) →
        IsCoded schema (finest_set (length schema.dimensions) ∷ []) (length facts) dictionaries items →
        IsCubeOfAll facts (lattice_of schema (finest_set (length schema.dimensions) ∷ []) (length facts) dictionaries
        items) → 0 < length facts → All (λ set. set < 2 ^ length schema.dimensions) sets →
        IsWalkOf (λ codes. is_among (mask_of_codes codes.codes) sets) (length schema.dimensions) 0 items cells →
        IsCubeOf (lattice_of schema sets (length facts) dictionaries cells) facts }
    ensures rows { (schema : Layout) (dictionaries : Dictionaries) (facts : List Fact) (sets : List ℕ)
        (items cells : CodedCells) (rows : List Row) →
        IsCoded schema (finest_set (length schema.dimensions) ∷ []) (length facts) dictionaries items →
        IsCubeOfAll facts (lattice_of schema (finest_set (length schema.dimensions) ∷ []) (length facts) dictionaries
        items) → 0 < length facts → All (λ set. set < 2 ^ length schema.dimensions) sets →
        IsWalkOf (λ codes. is_among (mask_of_codes codes.codes) sets) (length schema.dimensions) 0 items cells →
        All AreInTextOrder dictionaries → AllZip (IsRowOf schema.aggregates) (decoded dictionaries cells) rows →
        AreRowsOver sets (length schema.dimensions) schema.aggregates facts rows }
{}

/// A counted cube that has some facts has the same facts in another order; and a fact that fits it fits the cube as it is
/// counted, whatever numbers its texts have.
pub fn counted_cubes_follow_facts()
    ensures moved { (facts moved : List Fact) (c : CountedView) →
        IsPermutation facts moved → HasCounted facts c → HasCounted moved c }
    ensures fit { (number : List ℕ → ℤ) (texts : ℕ) (s : Layout) (fact : Fact) →
        fits_counted texts s fact ≡ true → fits s (counted_by number texts fact) ≡ true }
{}
