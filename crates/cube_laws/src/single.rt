//! The cubes of one fact and of none, which each cube is made of (Gray et al. 1997).
ghost use Rattle.std.specs.Prelude.{◌≡◌, ◌↔◌, ◌^◌, ℕ, false, true, IsTrue, List, [], ◌∷◌, length, map, Contains};
ghost use Rattle.std.specs.List.{AllByRecursion};
ghost use Rattle.cube_core.specs.Cube.{AreRows, key_of};
ghost use Rattle.cube_core.specs.GroupingSet.{all_sets, is_among};
ghost use Rattle.cube_core.specs.Layout.{Layout, number_of_dimensions, keeps};
ghost use Rattle.cube_core.specs.TextPlaces.{counted};
ghost use Rattle.cube_laws.specs.Single.{HasValuesOrAll, answer_of_fact, total_of_none};
ghost use Rattle.cube_core.specs.declared.fact.Fact.{Fact};
ghost use Rattle.cube_core.specs.declared.key.Key.{Key};
ghost use Rattle.cube_core.specs.declared.key.Row.{Row};

/// The cube of one fact has the keys with the fact's value or ALL in each dimension, of the sets that are kept, 2 to the
/// power N of them where all are; and in each row `count(*)` is 1, each other count and distinct count 1, each sum, least and
/// greatest value and percentile the fact's, each mean that by 1, each sum of squares its square, each variance of the
/// population 0, and the values the fact's alone, held once; where the fact has null the counts are 0, there are no
/// values, and the others are null. A variance of a sample is null (Gray et al. 1997; SQL:1999: aggregates skip nulls).
pub fn cube_of_one_fact_shows_the_fact()
    ensures keys { (s : Layout) (fact : Fact) (rows : List Row) (key : Key) →
        length fact.dims ≡ length s.dimensions → AreRows s (fact ∷ []) rows →
        Contains (map key_of rows) key ↔ (IsTrue (keeps s key) × HasValuesOrAll (counted s fact) key) }
    ensures count { (s : Layout) (fact : Fact) (rows : List Row) →
        length fact.dims ≡ length s.dimensions → s.grouping_sets ≡ all_sets (number_of_dimensions s) →
        AreRows s (fact ∷ []) rows → length rows ≡ 2 ^ number_of_dimensions s }
    ensures answers { (s : Layout) (fact : Fact) (rows : List Row) →
        length fact.dims ≡ length s.dimensions → AreRows s (fact ∷ []) rows →
        AllByRecursion (λ row. row.answers ≡ map (answer_of_fact (counted s fact)) s.aggregates) rows }
{}

/// The cube of no fact has the grand total alone, where its set is kept, else no row: its counts are 0, it has no values,
/// and its other answers are null (SQL:1999, aggregate functions; that there is a grand total then is this project's
/// choice).
pub fn cube_of_no_fact_is_the_total()
    ensures kept { (s : Layout) (rows : List Row) →
        is_among 0 s.grouping_sets ≡ true → AreRows s [] rows → rows ≡ total_of_none s ∷ [] }
    ensures not_kept { (s : Layout) (rows : List Row) →
        is_among 0 s.grouping_sets ≡ false → AreRows s [] rows → rows ≡ [] }
{}
