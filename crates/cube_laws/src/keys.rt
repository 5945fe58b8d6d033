//! What a row shows of its key: GROUPING tells ALL from null (SQL:1999).
ghost use Rattle.std.specs.Prelude.{◌≡◌, IsTrue, List, ◌∷◌, ◌++◌, Contains};
ghost use Rattle.std.specs.List.{list_all};
ghost use Rattle.cube_core.specs.Layout.{Layout};
ghost use Rattle.cube_core.specs.Cube.{AreRows};
ghost use Rattle.cube_core.specs.Takes.{null_text, fits};
ghost use Rattle.cube_laws.specs.Keys.{LookAlike, key_columns};
ghost use Rattle.cube_merge.specs.Lawful.{has_no_null_text};
ghost use Rattle.cube_core.specs.declared.fact.Fact.{Fact};
ghost use Rattle.cube_core.specs.declared.key.Coord.{Coord};
ghost use Rattle.cube_core.specs.declared.key.Coord.TheVariants as coord;
ghost use Rattle.cube_core.specs.declared.key.Key.{Key};
ghost use Rattle.cube_core.specs.declared.key.Row.{Row};

/// Keys that show the same dimension columns and the same GROUPING columns are one key, unless one of them has
/// the text that stands for null (SQL:1999: GROUPING tells ALL from null).
pub fn keys_are_told_apart()
    ensures { (a b : Key) →
        IsTrue (has_no_null_text a) → IsTrue (has_no_null_text b) → LookAlike a b → a ≡ b }
{}

/// Two rows of a cube of facts that fit the schema show the same in the dimension and GROUPING columns only if
/// they are one row (SQL:1999: GROUPING tells ALL from null).
pub fn rows_are_told_apart()
    ensures { (s : Layout) (facts : List Fact) (rows : List Row) (a b : Row) →
        IsTrue (list_all (fits s) facts) → AreRows s facts rows → Contains rows a →
        Contains rows b → key_columns s a ≡ key_columns s b → a ≡ b }
{}

/// A key with the text that stands for null looks like the key with null in its place, so no dimension may have
/// that text (this project's choice).
pub fn null_text_looks_like_null()
    ensures { (before after : List Coord) →
        LookAlike (record { coords = before ++ coord.Text null_text ∷ after })
        (record { coords = before ++ coord.Null ∷ after }) }
{}
