//! What facts determine of the rows of a cube and of the printed cube.
ghost use Rattle.std.specs.Prelude.{◌≡◌, ℕ, List, IsPermutation};
ghost use Rattle.cube_core.specs.Arrival.{Arrivals, of_sources};
ghost use Rattle.cube_core.specs.Layout.{Layout};
ghost use Rattle.cube_core.specs.Cube.{AreRows};
ghost use Rattle.cube_core.specs.Printed.{IsPrinted};
ghost use Rattle.cube_core.specs.Sources.{SurviveTogether};
ghost use Rattle.cube_core.specs.declared.key.Row.{Row};
ghost use Rattle.cube_core.specs.declared.fact.Fact.{Fact};

/// The rows of a cube are determined by the schema and the facts: no key stands twice, none is missing, and neither
/// the order nor an answer can differ (Gray et al. 1997: CUBE is an operator on tables; the order is this project's
/// choice).
pub fn rows_are_determined()
    ensures { (s : Layout) (facts : List Fact) (rows rows' : List Row) →
        AreRows s facts rows → AreRows s facts rows' → rows ≡ rows' }
{}

/// The printed cube is determined by the schema and the facts: there is one printed text (this project's choice).
pub fn printed_cube_is_determined()
    ensures { (s : Layout) (facts : List Fact) (text text' : List ℕ) →
        IsPrinted s facts text → IsPrinted s facts text' → text ≡ text' }
{}

/// Facts in another order have the same rows (Gray et al. 1997: a cube aggregates a table, whose
/// rows have no order).
pub fn rows_ignore_order()
    ensures { (s : Layout) (facts facts' : List Fact) (rows : List Row) →
        IsPermutation facts facts' → AreRows s facts rows → AreRows s facts' rows }
{}

/// Facts in another order have the same printed cube (this project's choice).
pub fn printed_cube_ignores_order()
    ensures { (s : Layout) (facts facts' : List Fact) (text : List ℕ) →
        IsPermutation facts facts' → IsPrinted s facts text → IsPrinted s facts' text }
{}

/// Cubes of the same facts, in any order, are the same; and so are those of what survives arrival lists that agree source by
/// source, whatever the order between the sources (Gray et al. 1997: a cube aggregates a table, whose rows have no order;
/// that nothing is known of the order between sources is this project's choice).
pub fn cubes_of_the_same_facts_are_the_same()
    ensures facts { (s : Layout) (facts others : List Fact) (rows other_rows : List Row) →
        IsPermutation facts others → AreRows s facts rows → AreRows s others other_rows → rows ≡ other_rows }
    ensures arrivals { (s : Layout) (sources : ℕ) (arrivals others : Arrivals) (facts other_facts : List Fact)
        (rows other_rows : List Row) → of_sources sources arrivals ≡ of_sources sources others →
        SurviveTogether s (of_sources sources arrivals) facts →
        SurviveTogether s (of_sources sources others) other_facts →
        AreRows s facts rows → AreRows s other_facts other_rows → rows ≡ other_rows }
{}
