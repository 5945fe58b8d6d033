//! What distinct counts and percentiles have to do with counts, least and greatest values.
ghost use Rattle.std.specs.Prelude.{◌≤◌, ◌^◌, ℕ, ℤ, List, Contains};
ghost use Rattle.cube_core.specs.Answer.{IsAnswer};
ghost use Rattle.cube_core.specs.Group.{values_of};
ghost use Rattle.cube_core.specs.declared.aggregate.Agg.TheVariants as agg;
ghost use Rattle.cube_core.specs.declared.aggregate.Answer.{Answer};
ghost use Rattle.cube_core.specs.declared.aggregate.Answer.TheVariants as answer;
ghost use Rattle.cube_core.specs.declared.fact.Fact.{Fact};

/// There are at most so many different values as there are values (SQL:1999, COUNT and COUNT(DISTINCT)).
pub fn distinct_count_is_at_most_the_count()
    ensures { (group : List Fact) (m distinct count : ℕ) →
        IsAnswer group (agg.CountDistinct m) (answer.Count distinct) →
        IsAnswer group (agg.Count m) (answer.Count count) → distinct ≤ count }
{}

/// Where there is a value, there is one at least that differs from the others before it; so it is of texts that are counted too,
/// for which numbers stand (SQL:1999, COUNT and COUNT(DISTINCT)).
pub fn distinct_count_is_some_where_there_is_a_value()
    ensures { (group : List Fact) (m distinct count : ℕ) →
        IsAnswer group (agg.CountDistinct m) (answer.Count distinct) →
        IsAnswer group (agg.Count m) (answer.Count count) → 1 ≤ count → 1 ≤ distinct }
{}

/// A percentile is one of the values (SQL:2003, PERCENTILE_DISC: it doesn't interpolate).
pub fn percentile_is_one_of_the_values()
    ensures { (group : List Fact) (m units places : ℕ) (value : ℤ) →
        IsAnswer group (agg.PercentileDisc m units places) (answer.Whole value) → Contains (values_of m group) value }
{}

/// The percentile of level 0 is the least value, and that of level 1 the greatest, null where there is none (SQL:2003,
/// PERCENTILE_DISC: the first value whose cumulative distribution is at least the level).
pub fn percentiles_reach_from_least_to_greatest()
    ensures least { (group : List Fact) (m places : ℕ) (a : Answer) →
        IsAnswer group (agg.PercentileDisc m 0 places) a → IsAnswer group (agg.Min m) a }
    ensures greatest { (group : List Fact) (m places : ℕ) (a : Answer) →
        IsAnswer group (agg.PercentileDisc m (10 ^ places) places) a → IsAnswer group (agg.Max m) a }
{}
