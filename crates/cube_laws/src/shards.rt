//! Shards part a feed, and their printed cubes add up.
//! What is said here of printed texts is of schemas in which no text is counted: a partial form is made of no others.
ghost use Rattle.std.specs.Prelude.{◌≡◌, ◌≤◌, ℕ, List, Some, codes, filter, map};
ghost use Rattle.std.specs.List.{AllZip};
ghost use Rattle.cube_core.specs.FeedRecords.{items_of};
ghost use Rattle.cube_core.specs.Layout.{Layout};
ghost use Rattle.cube_core.specs.PartialForm.{partial_form};
ghost use Rattle.cube_core.specs.Refusals.{refusals_of};
ghost use Rattle.cube_core.specs.Shard.{fnv_hash, whole_feed};
ghost use Rattle.cube_core.specs.Sources.{IsPrintedOf};
ghost use Rattle.cube_core.specs.Surviving.{AreSurviving};
ghost use Rattle.cube_merge.specs.Merging.{IsMergeOf};
ghost use Rattle.cube_laws.specs.Merging.{IsMergedText, PutsPrintedOf, IsSchemaWithoutTexts, joined};
ghost use Rattle.cube_laws.specs.Shards.{has_record, of_shard, places};
ghost use Rattle.cube_laws.specs.Told.{AreFewSources};
ghost use Rattle.cube_core.specs.declared.fact.Fact.{Fact};

/// The hash that tells a shard has the values that RFC 9923 gives: of no byte, of `a` and of `foobar` (FNV-1a of 64 bits).
pub fn hash_has_its_published_values()
    ensures of_none { fnv_hash (codes "") ≡ 0xcbf29ce484222325 }
    ensures of_a { fnv_hash (codes "a") ≡ 0xaf63dc4c8601ec8c }
    ensures of_foobar { fnv_hash (codes "foobar") ≡ 0x85944171f73967e8 }
{}

/// The items of a shard are those items of the feed whose records are in the shard, in their order and with their numbers,
/// and the feed ends alike (this project's choice).
pub fn shards_part_items()
    ensures items { (s : Layout) (count place : ℕ) (records : List (List (List ℕ))) → s.shard ≡ whole_feed →
        (items_of (of_shard count s place) records).items
        ≡ filter (λ item. has_record (of_shard count s place) records item.number) (items_of s records).items }
    ensures ends { (s : Layout) (count place : ℕ) (records : List (List (List ℕ))) →
        (items_of (of_shard count s place) records).end ≡ (items_of s records).end }
{}

/// The refusals of a shard are those refusals of the feed whose records are in the shard, in their order, with their
/// numbers and codes: so each refusal of the feed is one of exactly one shard (this project's choice).
pub fn shards_part_refusals()
    ensures { (s : Layout) (count place : ℕ) (records : List (List (List ℕ))) → s.shard ≡ whole_feed →
        refusals_of (of_shard count s place) (items_of (of_shard count s place) records).items
        ≡ filter (λ refusal. has_record (of_shard count s place) records refusal.number)
        (refusals_of s (items_of s records).items) }
{}

/// The facts that survive a feed are those that survive its shards, together (this project's choice: the changes that
/// name an id are of one shard).
pub fn shards_part_survivors()
    ensures { (s : Layout) (count : ℕ) (records : List (List (List ℕ))) (parts : List (List Fact)) →
        s.shard ≡ whole_feed → 1 ≤ count →
        AllZip (λ place facts. AreSurviving (of_shard count s place) (items_of (of_shard count s place) records).items facts)
        (places count) parts →
        AreSurviving s (items_of s records).items (joined parts) }
{}

/// The text of the merged rows of the printed partial cubes of all shards of feeds is the printed cube of the feeds, and so
/// under the partial form itself (this project's choice).
pub fn shards_of_sources_add_up()
    ensures whole { (s : Layout) (count : ℕ) (sources texts : List (List ℕ)) (text : List ℕ) →
        IsSchemaWithoutTexts s → s.shard ≡ whole_feed → 1 ≤ count → count ≤ 65536 → AreFewSources sources →
        AllZip (λ place part. IsPrintedOf (partial_form (of_shard count s place)) sources part) (places count) texts →
        IsMergedText (partial_form s) s texts text → IsPrintedOf s sources text }
    ensures partial { (s : Layout) (count : ℕ) (sources texts : List (List ℕ)) (text : List ℕ) →
        IsSchemaWithoutTexts s → s.shard ≡ whole_feed → 1 ≤ count → count ≤ 65536 → AreFewSources sources →
        AllZip (λ place part. IsPrintedOf (partial_form (of_shard count s place)) sources part) (places count) texts →
        IsMergedText (partial_form s) (partial_form s) texts text → IsPrintedOf (partial_form s) sources text }
{}

/// What the call `merge` writes, by its promise, of the printed partial cubes of all shards of feeds is the printed cube
/// of the feeds, and so under the partial form itself (this project's choice).
pub fn merge_writes_the_cube_of_all_shards()
    ensures whole { (s : Layout) (count : ℕ) (sources texts : List (List ℕ)) (old new : List ℕ) →
        IsSchemaWithoutTexts s → s.shard ≡ whole_feed → 1 ≤ count → count ≤ 65536 → AreFewSources sources →
        AllZip (λ place part. IsPrintedOf (partial_form (of_shard count s place)) sources part) (places count) texts →
        IsMergeOf (partial_form s) s (map Some texts) (Some old) (Some new) → PutsPrintedOf s sources old new }
    ensures partial { (s : Layout) (count : ℕ) (sources texts : List (List ℕ)) (old new : List ℕ) →
        IsSchemaWithoutTexts s → s.shard ≡ whole_feed → 1 ≤ count → count ≤ 65536 → AreFewSources sources →
        AllZip (λ place part. IsPrintedOf (partial_form (of_shard count s place)) sources part) (places count) texts →
        IsMergeOf (partial_form s) (partial_form s) (map Some texts) (Some old) (Some new) →
        PutsPrintedOf (partial_form s) sources old new }
{}
