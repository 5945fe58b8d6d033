//! Limits to grouping sets, and their parts (SQL:1999, grouping sets; the parts are this project's choice).
ghost use Rattle.std.specs.Prelude.{◌≡◌, ℕ, ◌≤◌, IsTrue, List};
ghost use Rattle.cube_core.specs.Layout.{Layout, number_of_dimensions, IsSchema};
ghost use Rattle.cube_core.specs.Cube.{AreRows, AreRowsOver, is_cell};
ghost use Rattle.cube_core.specs.GroupingSet.{AreAmong, all_sets, is_among, sets_of_part};
ghost use Rattle.cube_laws.specs.Cells.{all_counted};
ghost use Rattle.cube_laws.specs.Sets.{rows_in, IsTrueOfOne};
ghost use Rattle.cube_core.specs.declared.fact.Fact.{Fact};
ghost use Rattle.cube_core.specs.declared.key.Key.{Key};
ghost use Rattle.cube_core.specs.declared.key.Row.{Row};

/// The rows of a cube limited to some of its grouping sets are its rows in those sets (SQL:1999: a cube is the union
/// of its grouping sets).
pub fn limited_rows_are_those_in_the_sets()
    ensures { (s : Layout) (facts : List Fact) (rows : List Row) (sets : List ℕ) →
        AreAmong sets s.grouping_sets → AreRows s facts rows →
        AreRowsOver sets (number_of_dimensions s) s.aggregates (all_counted s facts) (rows_in sets rows) }
{}

/// Rows of a cube limited to some of its grouping sets are no others than its rows in those sets (SQL:1999: a cube is
/// the union of its grouping sets).
pub fn no_others_are_the_limited_rows()
    ensures { (s : Layout) (facts : List Fact) (rows limited : List Row) (sets : List ℕ) →
        AreAmong sets s.grouping_sets → AreRows s facts rows →
        AreRowsOver sets (number_of_dimensions s) s.aggregates (all_counted s facts) limited →
        limited ≡ rows_in sets rows }
{}

/// The rows of a schema's cube are those of the whole cube in the grouping sets that the schema keeps (SQL:1999: CUBE
/// is the union of all grouping sets).
pub fn rows_are_those_of_the_whole_cube()
    ensures { (s : Layout) (facts : List Fact) (rows whole : List Row) →
        IsSchema s → AreRows s facts rows → AreRowsOver (all_sets (number_of_dimensions s))
        (number_of_dimensions s) s.aggregates (all_counted s facts) whole →
        rows ≡ rows_in s.grouping_sets whole }
{}

/// However many parts there are, each grouping set of a list stands in exactly one of them (this project's choice).
pub fn each_set_is_in_one_part()
    ensures { (parts : ℕ) (sets : List ℕ) (set : ℕ) →
        1 ≤ parts → IsTrue (is_among set sets) →
        IsTrueOfOne parts (λ j. is_among set (sets_of_part j parts sets)) }
{}

/// A part of a list of grouping sets has no set that isn't in the list (this project's choice).
pub fn parts_have_no_other_sets()
    ensures { (parts j : ℕ) (sets : List ℕ) (set : ℕ) →
        IsTrue (is_among set (sets_of_part j parts sets)) → IsTrue (is_among set sets) }
{}

/// However many parts there are, each cell of a cube stands in exactly one of them (this project's choice).
pub fn each_cell_is_in_one_part()
    ensures { (parts dimensions : ℕ) (sets : List ℕ) (facts : List Fact) (key : Key) →
        1 ≤ parts → IsTrue (is_cell sets dimensions facts key) →
        IsTrueOfOne parts (λ j. is_cell (sets_of_part j parts sets) dimensions facts key) }
{}
