//! How the cubes of parts of the facts make the cube of them all.
//! What is said here of printed texts is of schemas in which no text is counted: a partial form is made of no others.
ghost use Rattle.std.specs.Prelude.{◌≡◌, ◌≤◌, ℕ, List, IsPermutation, Some, length, map, true};
ghost use Rattle.std.specs.List.{AllByRecursion, AllZip, list_all};
ghost use Rattle.cube_core.specs.Cube.{AreRows, AreRowsOver};
ghost use Rattle.cube_core.specs.Layout.{Layout};
ghost use Rattle.cube_core.specs.PartialForm.{partial_aggregates, partial_form};
ghost use Rattle.cube_core.specs.Printed.{IsPrinted};
ghost use Rattle.cube_core.specs.Sources.{IsPrintedOf};
ghost use Rattle.cube_laws.specs.Told.{AreFewSources, CanBePrinted};
ghost use Rattle.cube_laws.specs.Merging.{AreMergedOf, AreMergeTrees, IsMergedText, IsMergeTree, PutsPrinted, PutsPrintedOf, IsSchemaWithoutTexts, joined};
ghost use Rattle.cube_merge.specs.Merging.{IsMergeOf};
ghost use Rattle.cube_merge.specs.Source.{can_be_made};
ghost use Rattle.cube_core.specs.declared.aggregate.Agg.{Agg};
ghost use Rattle.cube_core.specs.declared.fact.Fact.{Fact};
ghost use Rattle.cube_core.specs.declared.key.Row.{Row};

/// The merged rows of the partial cubes of parts of the facts are the rows of the cube of all facts, and so under the
/// partial form itself; there is a part at least (Gray et al. 1997: COUNT, SUM, MIN and MAX are distributive, AVG is
/// algebraic, made of SUM and COUNT, as a variance is of these and the sum of the squares, and distinct counts and
/// percentiles are holistic, made of all values).
pub fn cubes_add_up()
    ensures whole { (s : Layout) (parts : List (List Fact)) (cubes : List (List Row)) (rows : List Row) →
        1 ≤ length parts → AllZip (AreRows (partial_form s)) parts cubes →
        AreMergedOf (partial_aggregates s.aggregates) s.aggregates cubes rows →
        AreRows s (joined parts) rows }
    ensures partial { (s : Layout) (parts : List (List Fact)) (cubes : List (List Row)) (rows : List Row) →
        1 ≤ length parts → AllZip (AreRows (partial_form s)) parts cubes →
        AreMergedOf (partial_aggregates s.aggregates) (partial_aggregates s.aggregates) cubes rows →
        AreRows (partial_form s) (joined parts) rows }
{}

/// Under the partial form of a schema each aggregate of the schema's can be made, and each of the partial form's, so that
/// no merge from the one to the other is given up for its aggregates (this project's choice).
pub fn partial_form_makes_each_aggregate()
    ensures whole { (s : Layout) → list_all (can_be_made (partial_aggregates s.aggregates)) s.aggregates ≡ true }
    ensures partial { (s : Layout) →
        list_all (can_be_made (partial_aggregates s.aggregates)) (partial_aggregates s.aggregates) ≡ true }
{}

/// And the rows of the cube of all facts are merged rows of those of the parts, and no others are, since cubes add up
/// (Gray et al. 1997).
pub fn whole_rows_are_merged_rows()
    ensures whole { (s : Layout) (parts : List (List Fact)) (cubes : List (List Row)) (rows : List Row) →
        1 ≤ length parts → AllZip (AreRows (partial_form s)) parts cubes →
        AreRows s (joined parts) rows →
        AreMergedOf (partial_aggregates s.aggregates) s.aggregates cubes rows }
    ensures partial { (s : Layout) (parts : List (List Fact)) (cubes : List (List Row)) (rows : List Row) →
        1 ≤ length parts → AllZip (AreRows (partial_form s)) parts cubes →
        AreRows (partial_form s) (joined parts) rows →
        AreMergedOf (partial_aggregates s.aggregates) (partial_aggregates s.aggregates) cubes rows }
{}

/// Over any grouping sets, and of any aggregates, the merged rows of the cubes of parts of the facts are the rows of the
/// cube of all facts (Gray et al. 1997).
pub fn cubes_over_any_sets_add_up()
    ensures { (sets : List ℕ) (dimensions : ℕ) (given wanted : List Agg) (parts : List (List Fact))
        (cubes : List (List Row)) (rows : List Row) →
        1 ≤ length parts → AllZip (AreRowsOver sets dimensions given) parts cubes →
        AreMergedOf given wanted cubes rows →
        AreRowsOver sets dimensions wanted (joined parts) rows }
{}

/// Merged rows are the same in whatever order the cubes are merged, and however the facts are parted, into however many
/// parts (Gray et al. 1997: a cube aggregates a table, whose rows have no order).
pub fn merges_ignore_order()
    ensures of_cubes { (given wanted : List Agg) (cubes others : List (List Row)) (rows : List Row) →
        IsPermutation cubes others →
        AreMergedOf given wanted cubes rows → AreMergedOf given wanted others rows }
    ensures of_facts { (s : Layout) (parts others : List (List Fact)) (cubes other_cubes : List (List Row))
        (rows other_rows : List Row) →
        1 ≤ length parts → 1 ≤ length others → IsPermutation (joined parts) (joined others) →
        AllZip (AreRows (partial_form s)) parts cubes →
        AllZip (AreRows (partial_form s)) others other_cubes →
        AreMergedOf (partial_aggregates s.aggregates) s.aggregates cubes rows →
        AreMergedOf (partial_aggregates s.aggregates) s.aggregates other_cubes other_rows →
        rows ≡ other_rows }
{}

/// Merged rows of merged rows, in any nesting, are the rows of the cube of all facts, and after the last merge the rows
/// under the schema itself (this project's choice).
pub fn merges_nest()
    ensures partial { (s : Layout) (facts : List Fact) (rows : List Row) →
        IsMergeTree s facts rows → AreRows s facts rows }
    ensures whole { (s : Layout) (parts : List (List Fact)) (cubes : List (List Row)) (rows : List Row) →
        1 ≤ length parts → AreMergeTrees (partial_form s) parts cubes →
        AreMergedOf (partial_aggregates s.aggregates) s.aggregates cubes rows →
        AreRows s (joined parts) rows }
{}

/// Any two nestings of merges give the same rows, if their facts are the same in any order (this project's choice).
pub fn merges_ignore_nesting()
    ensures { (s : Layout) (facts others : List Fact) (rows other_rows : List Row) →
        IsPermutation facts others → IsMergeTree s facts rows → IsMergeTree s others other_rows →
        rows ≡ other_rows }
{}

/// The text of the merged rows of printed partial cubes is the printed cube of all their facts, and so under the partial
/// form itself; the facts of each part can be printed (this project's choice).
pub fn merged_text_is_the_printed_cube()
    ensures whole { (s : Layout) (parts : List (List Fact)) (texts : List (List ℕ)) (text : List ℕ) →
        IsSchemaWithoutTexts s → 1 ≤ length parts → AllByRecursion (CanBePrinted s) parts →
        AllZip (IsPrinted (partial_form s)) parts texts →
        IsMergedText (partial_form s) s texts text → IsPrinted s (joined parts) text }
    ensures partial { (s : Layout) (parts : List (List Fact)) (texts : List (List ℕ)) (text : List ℕ) →
        IsSchemaWithoutTexts s → 1 ≤ length parts → AllByRecursion (CanBePrinted s) parts →
        AllZip (IsPrinted (partial_form s)) parts texts →
        IsMergedText (partial_form s) (partial_form s) texts text →
        IsPrinted (partial_form s) (joined parts) text }
{}

/// What the call `merge` writes, by its promise, of the printed partial cubes of parts of the facts is the printed cube of
/// all their facts, and so under the partial form itself; the facts of each part can be printed (this project's choice).
pub fn merge_writes_the_printed_cube()
    ensures whole { (s : Layout) (parts : List (List Fact)) (texts : List (List ℕ)) (old new : List ℕ) →
        IsSchemaWithoutTexts s → 1 ≤ length parts → AllByRecursion (CanBePrinted s) parts →
        AllZip (IsPrinted (partial_form s)) parts texts →
        IsMergeOf (partial_form s) s (map Some texts) (Some old) (Some new) →
        PutsPrinted s (joined parts) old new }
    ensures partial { (s : Layout) (parts : List (List Fact)) (texts : List (List ℕ)) (old new : List ℕ) →
        IsSchemaWithoutTexts s → 1 ≤ length parts → AllByRecursion (CanBePrinted s) parts →
        AllZip (IsPrinted (partial_form s)) parts texts →
        IsMergeOf (partial_form s) (partial_form s) (map Some texts) (Some old) (Some new) →
        PutsPrinted (partial_form s) (joined parts) old new }
{}

/// And of the printed partial cubes of groups of sources it writes the printed cube of all sources (this project's choice:
/// an id belongs to its source).
pub fn merge_writes_the_cube_of_all_sources()
    ensures whole { (s : Layout) (groups : List (List (List ℕ))) (texts : List (List ℕ)) (old new : List ℕ) →
        IsSchemaWithoutTexts s → 1 ≤ length groups → AllByRecursion AreFewSources groups →
        AllZip (IsPrintedOf (partial_form s)) groups texts →
        IsMergeOf (partial_form s) s (map Some texts) (Some old) (Some new) →
        PutsPrintedOf s (joined groups) old new }
    ensures partial { (s : Layout) (groups : List (List (List ℕ))) (texts : List (List ℕ)) (old new : List ℕ) →
        IsSchemaWithoutTexts s → 1 ≤ length groups → AllByRecursion AreFewSources groups →
        AllZip (IsPrintedOf (partial_form s)) groups texts →
        IsMergeOf (partial_form s) (partial_form s) (map Some texts) (Some old) (Some new) →
        PutsPrintedOf (partial_form s) (joined groups) old new }
{}

/// The text of merged rows is the same in whatever order the cubes are merged, and however their facts are parted (this
/// project's choice).
pub fn merged_text_ignores_order()
    ensures { (s : Layout) (parts others : List (List Fact)) (texts other_texts : List (List ℕ))
        (text other_text : List ℕ) →
        IsSchemaWithoutTexts s → 1 ≤ length parts → 1 ≤ length others →
        AllByRecursion (CanBePrinted s) parts → AllByRecursion (CanBePrinted s) others →
        IsPermutation (joined parts) (joined others) →
        AllZip (IsPrinted (partial_form s)) parts texts →
        AllZip (IsPrinted (partial_form s)) others other_texts →
        IsMergedText (partial_form s) s texts text →
        IsMergedText (partial_form s) s other_texts other_text → text ≡ other_text }
{}

/// The text of the merged rows of the printed partial cubes of groups of sources is the printed cube of all sources, and
/// so under the partial form itself: merging the prints of groups of feeds, in any nesting, is printing the feeds (this
/// project's choice: an id belongs to its source).
pub fn groups_of_sources_add_up()
    ensures whole { (s : Layout) (groups : List (List (List ℕ))) (texts : List (List ℕ)) (text : List ℕ) →
        IsSchemaWithoutTexts s → 1 ≤ length groups → AllByRecursion AreFewSources groups →
        AllZip (IsPrintedOf (partial_form s)) groups texts →
        IsMergedText (partial_form s) s texts text → IsPrintedOf s (joined groups) text }
    ensures partial { (s : Layout) (groups : List (List (List ℕ))) (texts : List (List ℕ)) (text : List ℕ) →
        IsSchemaWithoutTexts s → 1 ≤ length groups → AllByRecursion AreFewSources groups →
        AllZip (IsPrintedOf (partial_form s)) groups texts →
        IsMergedText (partial_form s) (partial_form s) texts text →
        IsPrintedOf (partial_form s) (joined groups) text }
{}
