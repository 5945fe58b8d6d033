//! How often a fact is counted, and how many cells there are.
ghost use Rattle.std.specs.Prelude.{◌≡◌, ◌<◌, ◌≤◌, ◌^◌, ℕ, true, List, Option, Some, length, sum_by, slice_get, Contains};
ghost use Rattle.cube_core.specs.Layout.{Layout, number_of_dimensions};
ghost use Rattle.cube_core.specs.Cube.{AreRows, is_total};
ghost use Rattle.cube_core.specs.GroupingSet.{is_among};
ghost use Rattle.cube_laws.specs.Cells.{all_counted, HaveDimensions, rows_in_set, group_size, answer_at, count_at, CoveringKeys, HaveValuesAmong, most_cells};
ghost use Rattle.cube_core.specs.declared.aggregate.Agg.TheVariants as agg;
ghost use Rattle.cube_core.specs.declared.aggregate.Answer.TheVariants as answer;
ghost use Rattle.cube_core.specs.declared.fact.Fact.{Fact};
ghost use Rattle.cube_core.specs.declared.key.Row.{Row};

/// Each fact is in one group of each grouping set that is kept (SQL:1999: a grouping set parts the facts into
/// groups): the sizes of the groups of a set add up to the number of facts.
pub fn groups_part_facts()
    ensures { (s : Layout) (facts : List Fact) (rows : List Row) (set : ℕ) →
        AreRows s facts rows → HaveDimensions (length s.dimensions) facts →
        set < 2 ^ number_of_dimensions s → is_among set s.grouping_sets ≡ true →
        sum_by (group_size (all_counted s facts)) (rows_in_set set rows) ≡ length facts }
{}

/// The answers to `count(*)` of the rows of a grouping set that is kept add up to the number of facts (SQL:1999:
/// COUNT(*) counts the rows of each group).
pub fn counts_add_up()
    ensures { (s : Layout) (facts : List Fact) (rows : List Row) (set place : ℕ) →
        AreRows s facts rows → HaveDimensions (length s.dimensions) facts →
        set < 2 ^ number_of_dimensions s → is_among set s.grouping_sets ≡ true →
        slice_get s.aggregates place ≡ Some agg.CountAll →
        sum_by (count_at place) (rows_in_set set rows) ≡ length facts }
{}

/// The grand total counts all facts (Gray et al. 1997: the total is over all rows of the table).
pub fn total_counts_all()
    ensures { (s : Layout) (facts : List Fact) (rows : List Row) (row : Row) (place : ℕ) →
        AreRows s facts rows → HaveDimensions (length s.dimensions) facts → Contains rows row →
        is_total (number_of_dimensions s) row.key ≡ true →
        slice_get s.aggregates place ≡ Some agg.CountAll →
        answer_at place row ≡ answer.Count (length facts) }
{}

/// A fact of N dimensions is covered by 2 to the power N keys, one in each grouping set (Gray et al. 1997: the cube
/// is the union of all GROUP BYs).
pub fn one_key_in_each_set()
    ensures { (fact : Fact) → CoveringKeys fact }
{}

/// A cube over dimensions with C1 to CN values, null among them where it stands, has at most
/// (C1 + 1) times .. times (CN + 1) cells (Gray et al. 1997).
pub fn cells_are_at_most()
    ensures { (s : Layout) (facts : List Fact) (rows : List Row)
        (values : List (List (Option (List ℕ)))) →
        AreRows s facts rows → length values ≡ number_of_dimensions s → HaveValuesAmong values (all_counted s facts) →
        length rows ≤ most_cells values }
{}
