//! What a feed gives: a written one is read back, and none gives more than its schema takes (this project's choice of a change
//! feed).
ghost use Rattle.std.specs.Prelude.{◌≡◌, ◌≢◌, ◌↔◌, ◌≤◌, ℕ, true, false, List, [], ◌∷◌, length, map, None, Some, is_some, IfOk};
ghost use Rattle.std.specs.List.{AllByRecursion, flat_map, list_all};
ghost use Rattle.cube_core.specs.Items.{arranged, change_of, is_header};
ghost use Rattle.cube_core.specs.FeedRecords.{Good, IsGoodFeed, all_records, ends_in_quotes, feed_of, feed_records, found_columns, has_long_record, items_of};
ghost use Rattle.cube_core.specs.FeedRecords.{names_read, stands_once};
ghost use Rattle.cube_core.specs.Layout.{Layout};
ghost use Rattle.cube_core.specs.Shard.{whole_feed};
ghost use Rattle.cube_core.specs.Takes.{takes};
ghost use Rattle.cube_core.specs.Text.{line};
ghost use Rattle.cube_laws.specs.Feeds.{CanBeSpelled, header_for, numbered, record_for};
ghost use Rattle.std.specs.Prelude.{Ok};
ghost use Rattle.cube_core.specs.declared.change.Change.{Change};
ghost use Rattle.cube_core.specs.declared.feed_columns.FeedColumns.{FeedColumns};

/// A feed that writes changes which the schema takes, in the order of the schema, texts that are counted among the measures, is read as these changes, in their order,
/// numbered from 1, and is good: no change that can be written is refused or taken for another. No measure takes a point in it,
/// and no record exceeds the bound on its bytes, where there is one (this project's choice).
pub fn written_feed_is_read()
    ensures change { (s : Layout) (change : Change) → CanBeSpelled s change → change_of s (record_for change) ≡ Ok change }
    ensures arranged { (s : Layout) (header : List (List ℕ)) (lines : List (List (List ℕ))) (changes : List Change) →
        s.columns ≡ None → s.decimals ≡ [] → s.shard ≡ whole_feed → length changes ≤ s.max_records →
        arranged s header ≡ header_for s → map (arranged s) lines ≡ map record_for changes →
        has_long_record s (flat_map line (header ∷ lines)) ≡ false → AllByRecursion (CanBeSpelled s) changes →
        feed_of s (flat_map line (header ∷ lines)) ≡ record { items = numbered 1 changes; end = Good } }
    ensures feed { (s : Layout) (changes : List Change) →
        s.columns ≡ None → s.decimals ≡ [] → s.text_places ≡ [] → s.shard ≡ whole_feed → length changes ≤ s.max_records →
        has_long_record s (flat_map line (header_for s ∷ map record_for changes)) ≡ false →
        AllByRecursion (CanBeSpelled s) changes →
        feed_of s (flat_map line (header_for s ∷ map record_for changes))
        ≡ record { items = numbered 1 changes; end = Good } }
{}

/// A feed is good exactly where it has no record, or a header first, which names the columns, and at most `max_records` records
/// after it; and whatever it has, it gives no more items than that. A first record names the columns where it is the header in
/// the order of the schema or, where columns are known by name, has each that is read by exactly once (this project's choice).
pub fn feed_has_a_header_and_so_many_records()
    ensures none { (s : Layout) → IsGoodFeed s [] }
    ensures some { (s : Layout) (header : List (List ℕ)) (records : List (List (List ℕ))) →
        IsGoodFeed s (header ∷ records)
        ↔ ((is_some (found_columns s header) ≡ true) × (length records ≤ s.max_records)) }
    ensures in_order { (s : Layout) (header : List (List ℕ)) →
        s.columns ≡ None → is_some (found_columns s header) ≡ is_header s header }
    ensures by_name { (s : Layout) (columns : FeedColumns) (header : List (List ℕ)) →
        s.columns ≡ Some columns →
        is_some (found_columns s header) ≡ list_all (stands_once header) (names_read columns) }
    ensures at_most { (s : Layout) (records : List (List (List ℕ))) →
        length (items_of s records).items ≤ s.max_records }
{}

/// Each change that a feed gives is one that its schema takes, so that none of a feed is refused because the schema doesn't
/// take it (this project's choice).
pub fn feeds_give_what_the_schema_takes()
    ensures { (s : Layout) (records : List (List (List ℕ))) →
        AllByRecursion (λ item. IfOk item.what (λ change. takes s change ≡ true)) (items_of s records).items }
{}

/// A feed gives the items of its whole records, and where columns are known by name it is at fault if it ends within a quoted
/// field: its last record isn't whole, and no cube is made of the others. Without such columns all records are whole, where
/// none exceeds its bound (this project's choice).
pub fn feed_that_ends_in_quotes_is_at_fault()
    ensures items { (s : Layout) (bytes : List ℕ) →
        (feed_of s bytes).items ≡ (items_of s (feed_records s bytes)).items }
    ensures fault { (s : Layout) (bytes : List ℕ) →
        ends_in_quotes s bytes ≡ true → (feed_of s bytes).end ≢ Good }
    ensures in_order { (s : Layout) (bytes : List ℕ) →
        s.columns ≡ None → has_long_record s bytes ≡ false → feed_of s bytes ≡ items_of s (all_records s bytes) }
{}

/// A bound on the bytes of records changes nothing of a feed in which no record exceeds it: the feed says what it says without a
/// bound. A feed with a longer record is at fault, whatever else it has (this project's choice).
pub fn bound_that_no_record_exceeds_changes_nothing()
    ensures short { (s : Layout) (bytes : List ℕ) →
        has_long_record s bytes ≡ false → feed_of s bytes ≡ feed_of (record s { max_record_bytes = None }) bytes }
    ensures long { (s : Layout) (bytes : List ℕ) → has_long_record s bytes ≡ true → (feed_of s bytes).end ≢ Good }
{}
