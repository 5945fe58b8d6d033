//! What the facts of a cube, and the arrival list that a builder stands at, say of its cells.
ghost use Rattle.std.specs.Prelude.{◌≡◌, [], List, length};
ghost use Rattle.std.specs.List.Sorted.{IsPermutation};
ghost use Rattle.cube_core.specs.Arrival.{Arrivals, of_sources};
ghost use Rattle.cube_core.specs.declared.fact.Fact.{Fact};
ghost use Rattle.cube_cells.specs.Cube.{Lattice, SameCells, SameSets};
ghost use Rattle.cube_build.specs.Builder.{BuilderView, CountsFacts, StandsAt};

/// Two cubes over the same grouping sets that count the same facts, in whatever order, have the same cells, each with the
/// same counts and values (Gray et al. 1997).
pub fn cells_of_the_same_facts_are_the_same()
    ensures { (facts others : List Fact) (a b : Lattice) → IsPermutation facts others → SameSets a b →
        CountsFacts facts a → CountsFacts others b → SameCells a b }
{}

/// Two builders of one schema that counts no text, over the same grouping sets, which stand at arrival lists that agree source by source, have
/// the same cells, whatever the order in which the items of different sources came (this project's choice).
pub fn builders_at_the_same_items_have_the_same_cells()
    ensures { (a b : BuilderView) (arrivals others : Arrivals) → SameSets a.cube b.cube →
        a.ledger.schema.text_places ≡ [] → b.ledger.schema ≡ a.ledger.schema →
        of_sources (length a.ledger.accounts) arrivals ≡ of_sources (length b.ledger.accounts) others →
        StandsAt a arrivals → StandsAt b others → SameCells a.cube b.cube }
{}
