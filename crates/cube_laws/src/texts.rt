//! Texts that are counted: which numbers stand for them doesn't matter (this project's choice).
ghost use Rattle.std.specs.Prelude.{ℕ, ℤ, IsTrue, List, length, map};
ghost use Rattle.std.specs.List.{list_all};
ghost use Rattle.cube_core.specs.Cube.{AreRows, AreRowsOver};
ghost use Rattle.cube_core.specs.Layout.{IsSchema, Layout, cube_schema, number_of_dimensions};
ghost use Rattle.cube_core.specs.Takes.{fits};
ghost use Rattle.cube_core.specs.TextPlaces.{TellsApart, counted_by, texts_counted};
ghost use Rattle.cube_core.specs.declared.fact.Fact.{Fact};
ghost use Rattle.cube_core.specs.declared.key.Row.{Row};

/// Whatever numbers stand for the texts that are counted, if they tell apart those that facts have, the rows are the same: by
/// any two numberings; as those of the schema's cube; and where they are those of the cube in which the texts are measures
/// (SQL:1999: COUNT and COUNT(DISTINCT) are of values of any type).
pub fn numbers_of_texts_do_not_matter()
    ensures of_any { (s : Layout) (number other : List ℕ → ℤ) (facts : List Fact) (rows : List Row) →
        IsSchema s → IsTrue (list_all (fits s) facts) →
        TellsApart number (texts_counted (length s.text_places) facts) →
        TellsApart other (texts_counted (length s.text_places) facts) →
        AreRowsOver s.grouping_sets (number_of_dimensions s) s.aggregates
        (map (counted_by number (length s.text_places)) facts) rows →
        AreRowsOver s.grouping_sets (number_of_dimensions s) s.aggregates
        (map (counted_by other (length s.text_places)) facts) rows }
    ensures of_schema { (s : Layout) (number : List ℕ → ℤ) (facts : List Fact) (rows : List Row) →
        IsSchema s → IsTrue (list_all (fits s) facts) →
        TellsApart number (texts_counted (length s.text_places) facts) →
        AreRowsOver s.grouping_sets (number_of_dimensions s) s.aggregates
        (map (counted_by number (length s.text_places)) facts) rows → AreRows s facts rows }
    ensures as_measures { (s : Layout) (number : List ℕ → ℤ) (facts : List Fact) (rows : List Row) →
        IsSchema s → IsTrue (list_all (fits s) facts) →
        TellsApart number (texts_counted (length s.text_places) facts) →
        AreRows (cube_schema s) (map (counted_by number (length s.text_places)) facts) rows → AreRows s facts rows }
{}
