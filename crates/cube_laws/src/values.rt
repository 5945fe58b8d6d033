//! What the values of a measure, with how often each is held, have to do with its other answers.
ghost use Rattle.std.specs.Prelude.{◌≡◌, ◌↔◌, ℕ, ℤ, false, true, List, [], Contains, length, map, sum_by};
ghost use Rattle.cube_core.specs.Answer.{IsAnswer, IsDistinctCount, IsGreatest, IsLeast, IsMean, IsPercentile, IsSum, IsSumOfSquares, IsVarianceAnswer, values_held};
ghost use Rattle.cube_core.specs.Group.{values_of};
ghost use Rattle.cube_core.specs.declared.aggregate.Agg.TheVariants as agg;
ghost use Rattle.cube_core.specs.declared.aggregate.Answer.{Answer};
ghost use Rattle.cube_core.specs.declared.aggregate.Answer.TheVariants as answer;
ghost use Rattle.cube_core.specs.declared.fact.Fact.{Fact};

/// The distinct count of a measure is the number of the pairs of a value with how often it is held (SQL:1999,
/// COUNT(DISTINCT)).
pub fn distinct_count_is_the_number_of_pairs()
    ensures { (group : List Fact) (m distinct : ℕ) (held : List (ℤ × ℕ)) →
        IsAnswer group (agg.CountDistinct m) (answer.Count distinct) →
        IsAnswer group (agg.Values m) (answer.Values held) → distinct ≡ length held }
{}

/// The count of a measure's values is the sum of how often they are held (SQL:1999, COUNT).
pub fn count_is_the_sum_of_how_often_values_are_held()
    ensures { (group : List Fact) (m count : ℕ) (held : List (ℤ × ℕ)) →
        IsAnswer group (agg.Count m) (answer.Count count) →
        IsAnswer group (agg.Values m) (answer.Values held) → count ≡ sum_by (λ pair. pair.1) held }
{}

/// The values are the empty list exactly where the measure has no value (this project's choice).
pub fn values_are_none_where_there_is_no_value()
    ensures { (group : List Fact) (m : ℕ) (a : Answer) →
        IsAnswer group (agg.Values m) a → (a ≡ answer.Values []) ↔ (values_of m group ≡ []) }
{}

/// A percentile is one of the values that are held (SQL:2003, PERCENTILE_DISC: it doesn't interpolate).
pub fn percentile_is_one_of_the_values_held()
    ensures { (group : List Fact) (m units places : ℕ) (value : ℤ) (held : List (ℤ × ℕ)) →
        IsAnswer group (agg.PercentileDisc m units places) (answer.Whole value) →
        IsAnswer group (agg.Values m) (answer.Values held) → Contains (map (λ pair. pair.0) held) value }
{}

/// The values, with how often each is held, tell each other answer of their measure: it is that of the list in which each
/// of them stands so often (Gray et al. 1997: distinct counts and percentiles are holistic, made of all values).
pub fn values_tell_each_answer_of_their_measure()
    ensures counts { (group : List Fact) (m : ℕ) (held : List (ℤ × ℕ)) (a : Answer) →
        IsAnswer group (agg.Values m) (answer.Values held) →
        IsAnswer group (agg.Count m) a ↔ (a ≡ answer.Count (length (values_held held))) }
    ensures sums { (group : List Fact) (m : ℕ) (held : List (ℤ × ℕ)) (a : Answer) →
        IsAnswer group (agg.Values m) (answer.Values held) →
        IsAnswer group (agg.Sum m) a ↔ IsSum (values_held held) a }
    ensures least { (group : List Fact) (m : ℕ) (held : List (ℤ × ℕ)) (a : Answer) →
        IsAnswer group (agg.Values m) (answer.Values held) →
        IsAnswer group (agg.Min m) a ↔ IsLeast (values_held held) a }
    ensures greatest { (group : List Fact) (m : ℕ) (held : List (ℤ × ℕ)) (a : Answer) →
        IsAnswer group (agg.Values m) (answer.Values held) →
        IsAnswer group (agg.Max m) a ↔ IsGreatest (values_held held) a }
    ensures means { (group : List Fact) (m : ℕ) (held : List (ℤ × ℕ)) (a : Answer) →
        IsAnswer group (agg.Values m) (answer.Values held) →
        IsAnswer group (agg.Avg m) a ↔ IsMean (values_held held) a }
    ensures distinct_counts { (group : List Fact) (m : ℕ) (held : List (ℤ × ℕ)) (a : Answer) →
        IsAnswer group (agg.Values m) (answer.Values held) →
        IsAnswer group (agg.CountDistinct m) a ↔ IsDistinctCount (values_held held) a }
    ensures percentiles { (group : List Fact) (m units places : ℕ) (held : List (ℤ × ℕ)) (a : Answer) →
        IsAnswer group (agg.Values m) (answer.Values held) →
        IsAnswer group (agg.PercentileDisc m units places) a ↔ IsPercentile units places (values_held held) a }
    ensures squares { (group : List Fact) (m : ℕ) (held : List (ℤ × ℕ)) (a : Answer) →
        IsAnswer group (agg.Values m) (answer.Values held) →
        IsAnswer group (agg.SumOfSquares m) a ↔ IsSumOfSquares (values_held held) a }
    ensures variances { (group : List Fact) (m : ℕ) (held : List (ℤ × ℕ)) (a : Answer) →
        IsAnswer group (agg.Values m) (answer.Values held) →
        IsAnswer group (agg.VarPop m) a ↔ IsVarianceAnswer false (values_held held) a }
    ensures sample_variances { (group : List Fact) (m : ℕ) (held : List (ℤ × ℕ)) (a : Answer) →
        IsAnswer group (agg.Values m) (answer.Values held) →
        IsAnswer group (agg.VarSamp m) a ↔ IsVarianceAnswer true (values_held held) a }
{}
