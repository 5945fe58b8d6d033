//! What feeds give whose columns are known by their names.
ghost use Rattle.std.specs.Prelude.{◌≡◌, ℕ, true, List, [], ◌∷◌, length, map, Some, IsPermutation, false};
ghost use Rattle.std.specs.List.{AllByRecursion, AllZip, list_all, range_with_len};
ghost use Rattle.toml.specs.Data.{no_members, table};
ghost use Rattle.cube_core.specs.FeedDocument.{columns_of_feed};
ghost use Rattle.cube_core.specs.FeedRecords.{items_of, names_read, stands_once};
ghost use Rattle.cube_core.specs.Items.{width_of};
ghost use Rattle.cube_core.specs.Layout.{IsSchema, Layout};
ghost use Rattle.cube_laws.specs.Feeds.{header_for};
ghost use Rattle.cube_laws.specs.Named.{AreReadAlike, bare_columns, by_names, in_order, own_columns, picked, puts_or_removes};
ghost use Rattle.cube_core.specs.declared.feed_columns.FeedColumns.{FeedColumns};

/// A feed in the order of the schema, each record as wide as the header and none of them an upsert or a removal, gives the
/// same where its columns are read by their names: `op`, `id`, and each dimension and measure under its own name, with `\N`
/// alone for null, with commas, and with the point before decimals, where no text is counted (this project's choice).
pub fn own_columns_give_what_the_order_gives()
    ensures { (s : Layout) (records : List (List (List ℕ))) →
        IsSchema s → s.text_places ≡ [] → AllByRecursion (λ fields. length fields ≡ width_of s) records →
        AllByRecursion (λ fields. puts_or_removes fields ≡ false) records →
        items_of (by_names (own_columns s) s) (header_for s ∷ records)
        ≡ items_of (in_order s) (header_for s ∷ records) }
{}

/// Only the fields of the columns that are read count, wherever they stand and whatever stands beside them: feeds whose headers
/// have these columns, and whose records have the same fields there, give the same (this project's choice).
pub fn only_columns_that_are_read_count()
    ensures { (s : Layout) (columns : FeedColumns) (header other : List (List ℕ))
        (records others : List (List (List ℕ))) →
        s.columns ≡ Some columns → list_all (stands_once header) (names_read columns) ≡ true →
        list_all (stands_once other) (names_read columns) ≡ true →
        AllZip (AreReadAlike columns header other) records others →
        items_of s (header ∷ records) ≡ items_of s (other ∷ others) }
{}

/// The order of columns that are known by their names doesn't count: where header and records, each as wide, have their fields in
/// another order, the same in all, the feed gives the same (this project's choice).
pub fn order_of_columns_does_not_count()
    ensures { (s : Layout) (columns : FeedColumns) (places : List ℕ) (header : List (List ℕ))
        (records : List (List (List ℕ))) →
        s.columns ≡ Some columns → IsPermutation (range_with_len 0 (length header)) places →
        AllByRecursion (λ fields. length fields ≡ length header) records →
        items_of s (picked places header ∷ map (picked places) records) ≡ items_of s (header ∷ records) }
{}

/// An empty table `feed` says that each column has the name of its dimension or its measure, that no column has ids or
/// operations, that `\N` alone is null, and that commas stand between fields (this project's choice).
pub fn empty_table_takes_the_names_of_the_schema()
    ensures { (dimensions measures : List (List ℕ)) →
        columns_of_feed dimensions measures (table no_members) ≡ Some (bare_columns dimensions measures) }
{}
