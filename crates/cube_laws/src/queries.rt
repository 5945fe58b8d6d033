//! What is asked of a cube: a slice by a cell, patterns with `?`, the words of patterns, roll-up (this project's choice; Gray
//! et al. 1997).
ghost use Rattle.std.specs.Prelude.{◌≡◌, ◌≢◌, ◌↔◌, ◌<◌, ◌≤◌, ℕ, false, true, List, [], ◌∷◌, ◌++◌, length, Contains, Some, None, Ok, slice_get};
ghost use Rattle.std.specs.List.{AllByRecursion};
ghost use Rattle.cube_core.specs.Cube.{AreRows};
ghost use Rattle.cube_core.specs.GroupingSet.{is_all_at};
ghost use Rattle.cube_core.specs.Layout.{Layout, number_of_dimensions, keeps};
ghost use Rattle.cube_core.specs.Query.{AreRowsWhere, Wanted, cell_of, drills_down, matches, pattern_of, rolled_up};
ghost use Rattle.cube_laws.specs.Cells.{all_counted};
ghost use Rattle.cube_laws.specs.Asked.{CanBeWritten, Writes, pattern_for};
ghost use Rattle.cube_core.specs.declared.fact.Fact.{Fact};
ghost use Rattle.cube_core.specs.declared.key.Coord.{Coord};
ghost use Rattle.cube_core.specs.declared.key.Key.{Key};
ghost use Rattle.cube_core.specs.declared.key.Row.{Row};

/// The pattern that wants each coordinate of a key matches that key and no other, and is that cell; so a slice by the cell of
/// a row of the cube is that row (this project's choice).
pub fn slice_by_a_cell_is_its_row()
    ensures matched { (key other : Key) → (matches (pattern_for key) other ≡ true) ↔ (other ≡ key) }
    ensures cell { (key : Key) → cell_of (pattern_for key) ≡ Ok key }
    ensures row { (s : Layout) (facts : List Fact) (rows sliced : List Row) (row : Row) →
        AreRows s facts rows → Contains rows row →
        AreRowsWhere (matches (pattern_for row.key)) s.grouping_sets (number_of_dimensions s) s.aggregates (all_counted s facts) sliced →
        sliced ≡ row ∷ [] }
{}

/// A pattern with `?` in a dimension matches the keys that it matches with some coordinate in its place, and each of them with
/// its own alone (this project's choice).
pub fn any_parts_by_the_coordinate()
    ensures { (before after : Wanted) (key : Key) →
        (matches (before ++ None ∷ after) key ≡ true)
        ↔ ((c : Coord) × (slice_get key.coords (length before) ≡ Some c)
        × (matches (before ++ Some c ∷ after) key ≡ true)) }
{}

/// A word that writes a pattern, with `?` for any coordinate, `\A` for ALL, `\N` for null and `=` before a text, is read as that
/// pattern, whatever the texts (this project's choice).
pub fn written_pattern_is_read()
    ensures { (s : Layout) (pattern : Wanted) (word : List ℕ) →
        1 ≤ length pattern → length pattern ≡ number_of_dimensions s → AllByRecursion CanBeWritten pattern →
        Writes word pattern → pattern_of s word ≡ Ok pattern }
{}

/// Rolled up along a dimension a key has ALL there, and elsewhere what it had; a key drills down from another exactly where it
/// isn't ALL in the dimension and rolled up is the other; and of each row of a cube the rolled-up key has a row too, where
/// its set is kept (Gray et al. 1997: rolling up replaces the values of a dimension by ALL).
pub fn roll_up_of_a_row_is_the_row_above()
    ensures there { (key : Key) (dimension : ℕ) → dimension < length key.coords →
        is_all_at (rolled_up dimension key) dimension ≡ true }
    ensures elsewhere { (key : Key) (dimension other : ℕ) → other ≢ dimension →
        slice_get (rolled_up dimension key).coords other ≡ slice_get key.coords other }
    ensures below { (above below : Key) (dimension : ℕ) →
        (drills_down dimension above below ≡ true)
        ↔ ((is_all_at below dimension ≡ false) × (rolled_up dimension below ≡ above)) }
    ensures row { (s : Layout) (facts : List Fact) (rows : List Row) (row : Row) (dimension : ℕ) →
        AreRows s facts rows → Contains rows row → keeps s (rolled_up dimension row.key) ≡ true →
        (above : Row) × Contains rows above × (above.key ≡ rolled_up dimension row.key) }
{}
