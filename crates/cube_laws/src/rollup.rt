//! How the answer of a cell follows from those one step below it.
ghost use Rattle.std.specs.Prelude.{◌≡◌, ◌↔◌, ℕ, true, List, Some, sum_by, slice_get};
ghost use Rattle.cube_core.specs.Layout.{Layout, number_of_dimensions};
ghost use Rattle.cube_core.specs.Answer.{IsSum, IsLeast, IsGreatest};
ghost use Rattle.cube_laws.specs.Cells.{all_counted, answer_at, count_at};
ghost use Rattle.cube_core.specs.Cube.{AreRows};
ghost use Rattle.cube_core.specs.Query.{AreRowsWhere, drills_down, rows_below};
ghost use Rattle.cube_laws.specs.Rollup.{IsRolledUp, numbers_at, AreNullAt, gives_numbers};
ghost use Rattle.cube_core.specs.declared.aggregate.Agg.{Agg};
ghost use Rattle.cube_core.specs.declared.aggregate.Agg.TheVariants as agg;
ghost use Rattle.cube_core.specs.declared.aggregate.Answer.TheVariants as answer;
ghost use Rattle.cube_core.specs.declared.fact.Fact.{Fact};
ghost use Rattle.cube_core.specs.declared.key.Key.{Key};
ghost use Rattle.cube_core.specs.declared.key.Row.{Row};

/// A count is the sum of the counts of the cells that drill down from it along one dimension (Gray et al. 1997:
/// COUNT is distributive, by adding).
pub fn counts_roll_up()
    ensures of_facts { (s : Layout) (facts : List Fact) (rows : List Row) (row : Row)
        (dimension place : ℕ) →
        IsRolledUp s facts rows row dimension → slice_get s.aggregates place ≡ Some agg.CountAll →
        count_at place row ≡ sum_by (count_at place) (rows_below dimension row.key rows) }
    ensures of_values { (s : Layout) (facts : List Fact) (rows : List Row) (row : Row)
        (dimension place m : ℕ) →
        IsRolledUp s facts rows row dimension → slice_get s.aggregates place ≡ Some (agg.Count m) →
        count_at place row ≡ sum_by (count_at place) (rows_below dimension row.key rows) }
{}

/// A sum is the sum of the sums of the cells that drill down from it along one dimension, nulls left out
/// (Gray et al. 1997: SUM is distributive).
pub fn sums_roll_up()
    ensures { (s : Layout) (facts : List Fact) (rows : List Row) (row : Row)
        (dimension place m : ℕ) →
        IsRolledUp s facts rows row dimension → slice_get s.aggregates place ≡ Some (agg.Sum m) →
        IsSum (numbers_at place (rows_below dimension row.key rows)) (answer_at place row) }
{}

/// A least value is the least of those of the cells that drill down from it along one dimension, nulls left out
/// (Gray et al. 1997: MIN is distributive).
pub fn least_values_roll_up()
    ensures { (s : Layout) (facts : List Fact) (rows : List Row) (row : Row)
        (dimension place m : ℕ) →
        IsRolledUp s facts rows row dimension → slice_get s.aggregates place ≡ Some (agg.Min m) →
        IsLeast (numbers_at place (rows_below dimension row.key rows)) (answer_at place row) }
{}

/// A greatest value is the greatest of those of the cells that drill down from it along one dimension, nulls left
/// out (Gray et al. 1997: MAX is distributive).
pub fn greatest_values_roll_up()
    ensures { (s : Layout) (facts : List Fact) (rows : List Row) (row : Row)
        (dimension place m : ℕ) →
        IsRolledUp s facts rows row dimension → slice_get s.aggregates place ≡ Some (agg.Max m) →
        IsGreatest (numbers_at place (rows_below dimension row.key rows)) (answer_at place row) }
{}

/// A sum, a least and a greatest value and a percentile are null exactly where those of all cells that drill down from them
/// along one dimension are (SQL:1999: these aggregates skip nulls, and of no value they are null).
pub fn nulls_roll_up()
    ensures { (s : Layout) (facts : List Fact) (rows : List Row) (row : Row)
        (dimension place : ℕ) (aggregate : Agg) →
        IsRolledUp s facts rows row dimension → gives_numbers aggregate ≡ true →
        slice_get s.aggregates place ≡ Some aggregate →
        (answer_at place row ≡ answer.Null) ↔ AreNullAt place (rows_below dimension row.key rows) }
{}

/// The rows of a cube that drill down from a key along a dimension are those among all its rows, however they are found
/// (Gray et al. 1997, drill-down).
pub fn drilled_rows_are_the_rows_below()
    ensures { (s : Layout) (facts : List Fact) (rows drilled : List Row) (above : Key)
        (dimension : ℕ) → AreRows s facts rows →
        AreRowsWhere (drills_down dimension above) s.grouping_sets (number_of_dimensions s)
        s.aggregates (all_counted s facts) drilled →
        drilled ≡ rows_below dimension above rows }
{}

/// The counts of the rows that drill down from a row's key along a dimension add up to the row's count, and the sums to
/// its sum, nulls left out, where the sets of both are kept (Gray et al. 1997: COUNT and SUM are distributive). Of a
/// part of the grouping sets it is so where both sets are in the part.
pub fn drilled_answers_add_up()
    ensures counts_of_facts { (s : Layout) (facts : List Fact) (rows drilled : List Row) (row : Row)
        (dimension place : ℕ) → IsRolledUp s facts rows row dimension →
        AreRowsWhere (drills_down dimension row.key) s.grouping_sets (number_of_dimensions s)
        s.aggregates (all_counted s facts) drilled → slice_get s.aggregates place ≡ Some agg.CountAll →
        count_at place row ≡ sum_by (count_at place) drilled }
    ensures counts_of_values { (s : Layout) (facts : List Fact) (rows drilled : List Row)
        (row : Row) (dimension place m : ℕ) → IsRolledUp s facts rows row dimension →
        AreRowsWhere (drills_down dimension row.key) s.grouping_sets (number_of_dimensions s)
        s.aggregates (all_counted s facts) drilled → slice_get s.aggregates place ≡ Some (agg.Count m) →
        count_at place row ≡ sum_by (count_at place) drilled }
    ensures sums { (s : Layout) (facts : List Fact) (rows drilled : List Row) (row : Row)
        (dimension place m : ℕ) → IsRolledUp s facts rows row dimension →
        AreRowsWhere (drills_down dimension row.key) s.grouping_sets (number_of_dimensions s)
        s.aggregates (all_counted s facts) drilled → slice_get s.aggregates place ≡ Some (agg.Sum m) →
        IsSum (numbers_at place drilled) (answer_at place row) }
{}
