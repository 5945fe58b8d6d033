//! What a schema file writes: each schema can be written, and each spelling is of one aggregate.
ghost use Rattle.std.specs.Prelude.{◌≡◌, ◌≤◌, ◌+◌, ◌-◌, ◌^◌, Some, None, Ok, Err, ℕ, List, [], length, map, codes, true};
ghost use Rattle.std.specs.List.{range_with_len};
ghost use Rattle.toml.specs.Data.{Members, string, get_member};
ghost use Rattle.cube_core.specs.Cube.{AreRows, AreRowsOver};
ghost use Rattle.cube_core.specs.GroupingSet.{all_sets};
ghost use Rattle.cube_core.specs.Layout.{Layout, IsSchema, counted_names, number_of_dimensions, spelling_of, is_aggregate_of};
ghost use Rattle.cube_core.specs.PartialForm.{partial_form};
ghost use Rattle.cube_core.specs.Shard.{whole_feed};
ghost use Rattle.cube_core.specs.SchemaDocument.{schema_of, schema_of_parts, named_parts, aggregate_spelled};
ghost use Rattle.cube_laws.specs.Cells.{all_counted};
ghost use Rattle.cube_laws.specs.Written.{GivesNames, IsFirstFault, WritesSchema, are_told_apart, is_told_apart};
ghost use Rattle.cube_core.specs.declared.aggregate.Agg.{Agg};
ghost use Rattle.cube_core.specs.declared.fact.Fact.{Fact};
ghost use Rattle.cube_core.specs.declared.key.Row.{Row};
ghost use Rattle.cube_core.specs.declared.schema_fault.SchemaFault.{SchemaFault};

/// A document that writes a schema is read as that schema and no other: no schema is refused, and none is taken for
/// another. A document has at most 16 aggregates, the partial form of a schema may have more; and it is of whole feeds, whose
/// records have no bound. Where a measure is named `distinct ` and another's name, the count of the one and the distinct count
/// of the other have one spelling, and the count is meant.
pub fn written_schema_is_read()
    ensures { (document : Members) (s : Layout) →
        IsSchema s → s.shard ≡ whole_feed → s.max_record_bytes ≡ None → length s.aggregates ≤ 16 →
        are_told_apart s ≡ true → WritesSchema document s → schema_of document ≡ Ok s }
{}

/// What is told of a document that is refused is its first fault: it has the fault, and none whose code has a smaller number;
/// and a document with a fault is refused by the first (this project's choice).
pub fn told_fault_is_the_first()
    ensures told { (document : Members) (fault : SchemaFault) →
        schema_of document ≡ Err fault → IsFirstFault document fault }
    ensures first { (document : Members) (fault : SchemaFault) →
        IsFirstFault document fault → schema_of document ≡ Err fault }
{}

/// Each schema without columns by name, decimals and texts that are counted is written by some document (of TOML's values; the text of a file
/// isn't spoken of; that each with them is written too isn't proved).
pub fn each_schema_can_be_written()
    ensures { (s : Layout) → IsSchema s → s.columns ≡ None → s.decimals ≡ [] → s.text_places ≡ [] →
        (document : Members) × WritesSchema document s }
{}

/// In a schema the spelling of an aggregate is read as that aggregate, so that no two share a spelling, whatever
/// the names of the measures and of the texts that are counted: but that of a distinct count where a measure is named `distinct ` and the name of its own.
pub fn spelling_is_of_one_aggregate()
    ensures { (s : Layout) (agg : Agg) →
        IsSchema s → is_aggregate_of (length (counted_names s)) agg ≡ true →
        is_told_apart (counted_names s) agg ≡ true →
        aggregate_spelled (counted_names s) (spelling_of (counted_names s) agg) ≡ Some agg }
{}

/// A schema of a document without a grouping keeps all grouping sets, so that its rows are those of CUBE (Gray et al.
/// 1997).
pub fn no_grouping_is_cube()
    ensures sets { (document : Members) (s : Layout) →
        schema_of document ≡ Ok s → get_member (codes "grouping") document ≡ None →
        s.grouping_sets ≡ all_sets (number_of_dimensions s) }
    ensures rows { (document : Members) (s : Layout) (facts : List Fact) (rows : List Row) →
        schema_of document ≡ Ok s → get_member (codes "grouping") document ≡ None →
        AreRows s facts rows →
        AreRowsOver (all_sets (number_of_dimensions s)) (number_of_dimensions s) s.aggregates (all_counted s facts) rows }
{}

/// A schema of a document whose grouping is `rollup` keeps the sets of the first dimensions, from none of them to
/// all: one more than there are dimensions (SQL:1999: ROLLUP). The mask of the first i dimensions is 2 to the
/// power i, less 1.
pub fn rollup_keeps_first_dimensions()
    ensures { (document : Members) (s : Layout) → IsSchema s → schema_of document ≡ Ok s →
        get_member (codes "grouping") document ≡ Some (string (codes "rollup")) →
        s.grouping_sets
        ≡ map (λ first. 2 ^ first - 1) (range_with_len 0 (number_of_dimensions s + 1)) }
{}

/// A document that has arrays of names and of spellings, and no other key, is read as what `Schema::new` makes of these:
/// that schema, or its first fault.
pub fn names_make_the_schema_of_their_document()
    ensures { (document : Members) (dimensions measures spellings : List (List ℕ)) →
        GivesNames document dimensions measures spellings →
        schema_of document ≡ schema_of_parts (named_parts dimensions measures spellings) }
{}

/// The partial form of a partial form is itself: it has what each of its means and variances is made of (this project's
/// choice).
pub fn partial_form_is_its_own()
    ensures { (s : Layout) → partial_form (partial_form s) ≡ partial_form s }
{}
