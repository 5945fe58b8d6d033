//! What sums of squares and variances have to do with counts and sums.
ghost use Rattle.std.specs.Prelude.{◌≡◌, ◌↔◌, ◌+◌, ◌-◌, ◌*◌, ◌<◌, ℕ, ℤ, List, [], length};
ghost use Rattle.cube_core.specs.Answer.{IsAnswer};
ghost use Rattle.cube_core.specs.Group.{values_of};
ghost use Rattle.cube_core.specs.Variance.{AreEqual, square};
ghost use Rattle.cube_core.specs.declared.aggregate.Agg.TheVariants as agg;
ghost use Rattle.cube_core.specs.declared.aggregate.Answer.{Answer};
ghost use Rattle.cube_core.specs.declared.aggregate.Answer.TheVariants as answer;
ghost use Rattle.cube_core.specs.declared.fact.Fact.{Fact};

/// A variance of the population is the mean of the squares less the square of the mean: of n values it is p/q with
/// p/q + (sum/n)² = squares/n, here in whole numbers. The squares of a sample are divided by n - 1 and not by n
/// (SQL:2003, VAR_POP and VAR_SAMP).
pub fn variance_is_of_squares_and_sum()
    ensures population { (group : List Fact) (m p q squares count : ℕ) (sum : ℤ) →
        IsAnswer group (agg.VarPop m) (answer.Variance p q) →
        IsAnswer group (agg.SumOfSquares m) (answer.Squares squares) →
        IsAnswer group (agg.Sum m) (answer.Whole sum) → IsAnswer group (agg.Count m) (answer.Count count) →
        p * (count * count) + q * square sum ≡ q * (count * squares) }
    ensures sample { (group : List Fact) (m p q squares count : ℕ) (sum : ℤ) →
        IsAnswer group (agg.VarSamp m) (answer.Variance p q) →
        IsAnswer group (agg.SumOfSquares m) (answer.Squares squares) →
        IsAnswer group (agg.Sum m) (answer.Whole sum) → IsAnswer group (agg.Count m) (answer.Count count) →
        p * (count * (count - 1)) + q * square sum ≡ q * (count * squares) }
{}

/// A variance is 0 exactly where all values are equal (SQL:2003, VAR_POP and VAR_SAMP).
pub fn variance_is_zero_where_values_are_equal()
    ensures population { (group : List Fact) (m p q : ℕ) →
        IsAnswer group (agg.VarPop m) (answer.Variance p q) → (p ≡ 0) ↔ AreEqual (values_of m group) }
    ensures sample { (group : List Fact) (m p q : ℕ) →
        IsAnswer group (agg.VarSamp m) (answer.Variance p q) → (p ≡ 0) ↔ AreEqual (values_of m group) }
{}

/// A sum of squares and a variance of the population are null exactly where there is no value, and a variance of a
/// sample exactly where there are fewer than two (SQL:2003, VAR_POP and VAR_SAMP; that a sum of squares is as a sum
/// there is this project's choice).
pub fn statistics_are_null_of_too_few_values()
    ensures squares { (group : List Fact) (m : ℕ) (a : Answer) →
        IsAnswer group (agg.SumOfSquares m) a → (a ≡ answer.Null) ↔ (values_of m group ≡ []) }
    ensures population { (group : List Fact) (m : ℕ) (a : Answer) →
        IsAnswer group (agg.VarPop m) a → (a ≡ answer.Null) ↔ (values_of m group ≡ []) }
    ensures sample { (group : List Fact) (m : ℕ) (a : Answer) →
        IsAnswer group (agg.VarSamp m) a → (a ≡ answer.Null) ↔ (length (values_of m group) < 2) }
{}
