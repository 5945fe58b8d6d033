//! Laws of the changes of a session.
ghost use Rattle.std.specs.Prelude.{◌≡◌, ◌≤◌, ◌+◌, ◌++◌, length, List, ℕ};
ghost use Rattle.cube_core.specs.Arrival.{Arrivals, of_source};
ghost use Rattle.cube_core.specs.FeedRecords.{items_after};
ghost use Rattle.cube_core.specs.Layout.{Layout};
ghost use Rattle.cube_core.specs.Shard.{whole_feed};
ghost use Rattle.cube_core.specs.declared.feed_columns.FoundColumns.TheVariants.{InOrder};
ghost use Rattle.cube_live.specs.Live.{last_number};
ghost use Rattle.cube_live.specs.Session.{arrivals_after};
ghost use Rattle.cube_store_commands.specs.Changed.{records_of_source};
ghost use Rattle.cube_store.specs.Rows.{Entry};
ghost use Rattle.cube_store_commands.specs.Replay.{arrivals_from};
ghost use Rattle.cube_store_commands.specs.Serving.{changes_in};

/// A start goes on where the session before it ended: the changes that a store had, with those that a session put behind
/// them, lead to where the records of the session led. So a session over what two sessions stored is one session.
pub fn start_goes_on()
    ensures { (s : Layout) (start : Arrivals) (stored : List Entry) (records : List (List (List ℕ))) →
        arrivals_from s start (stored ++ changes_in s records)
        ≡ arrivals_after s (arrivals_from s start stored) records }
{}

/// A session over whole feeds has of each source what the source's feed would give with the session's changes of it behind
/// its records, numbered on, in the order of the schema, where they are at most as many as the schema takes.
pub fn session_is_a_longer_feed()
    ensures { (s : Layout) (start : Arrivals) (records : List (List (List ℕ))) (source : ℕ) → s.shard ≡ whole_feed →
        last_number (of_source start source) + length (records_of_source source records) ≤ s.max_records →
        of_source (arrivals_after s start records) source ≡ of_source start source
        ++ (items_after s InOrder (last_number (of_source start source)) (records_of_source source records)).items }
{}
