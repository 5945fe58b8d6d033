//! The life of an id, change by change (Gray et al. 1997 take an update for a delete and an insert; that an id
//! lives from an insert to a delete, and that what can't happen to it changes nothing, is this project's choice).
ghost use Rattle.std.specs.Prelude.{◌≡◌, ◌≢◌, ℕ, List, [], ◌∷◌, ◌++◌, false, true, length, ◌<◌, Option, Some, slice_get, ℤ};
ghost use Rattle.cube_core.specs.Amendment.{over};
ghost use Rattle.cube_core.specs.Life.{id_of, naming, since_delete, life_of};
ghost use Rattle.cube_core.specs.Layout.{Layout};
ghost use Rattle.cube_core.specs.Takes.{takes};
ghost use Rattle.std.specs.List.{list_all};
ghost use Rattle.cube_laws.specs.Life.{inserts, IsAbsent, IsPresentWith, keeping, putting, dimension_puts, measure_puts, last_of};
ghost use Rattle.cube_core.specs.declared.fact.Fact.{Fact};
ghost use Rattle.cube_core.specs.declared.change.Change.{Change};
ghost use Rattle.cube_core.specs.declared.change.Change.TheVariants.{Insert, Update, Amend, Upsert, Delete, Remove};
ghost use Rattle.cube_core.specs.declared.partial.Field.TheVariants.{Keep, Put};
ghost use Rattle.cube_core.specs.declared.partial.Partial.{Partial};

/// Before any change every id is absent (this project's choice).
pub fn is_absent_at_first()
    ensures { (id : List ℕ) → IsAbsent id [] }
{}

/// An insert of an absent id puts its fact (this project's choice).
pub fn insert_of_absent_puts()
    ensures { (id : List ℕ) (changes : List Change) (fact : Fact) →
        IsAbsent id changes → IsPresentWith id (changes ++ Insert id fact ∷ []) fact }
{}

/// A second insert of an id that is present changes nothing (this project's choice).
pub fn second_insert_changes_nothing()
    ensures { (id : List ℕ) (changes : List Change) (fact other : Fact) →
        IsPresentWith id changes fact → IsPresentWith id (changes ++ Insert id other ∷ []) fact }
{}

/// An update of a present id puts its fact in place of the other (this project's choice).
pub fn update_of_present_puts()
    ensures { (id : List ℕ) (changes : List Change) (fact other : Fact) →
        IsPresentWith id changes fact → IsPresentWith id (changes ++ Update id other ∷ []) other }
{}

/// An update of a present id does what a delete and an insert do (Gray et al. 1997).
pub fn update_is_delete_and_insert()
    ensures { (id : List ℕ) (changes : List Change) (fact other : Fact) →
        IsPresentWith id changes fact →
        life_of id (changes ++ Update id other ∷ [])
        ≡ life_of id (changes ++ Delete id ∷ Insert id other ∷ []) }
{}

/// An update of an absent id changes nothing (this project's choice).
pub fn update_of_absent_changes_nothing()
    ensures { (id : List ℕ) (changes : List Change) (fact : Fact) →
        IsAbsent id changes → IsAbsent id (changes ++ Update id fact ∷ []) }
{}

/// An amendment of a present id puts its fields over the fact (this project's choice).
pub fn amendment_of_present_puts()
    ensures { (id : List ℕ) (changes : List Change) (fact : Fact) (part : Partial) →
        IsPresentWith id changes fact →
        IsPresentWith id (changes ++ Amend id part ∷ []) (over part fact) }
{}

/// In the fact that an amendment makes of an old one, a field that it names has the value that it puts, and each other
/// field the old value (this project's choice).
pub fn named_fields_are_put_and_others_left()
    ensures dimension_put { (part : Partial) (old : Fact) (place : ℕ) (value : Option (List ℕ)) →
        length part.dims ≡ length old.dims → slice_get part.dims place ≡ Some (Put value) →
        slice_get (over part old).dims place ≡ Some value }
    ensures dimension_left { (part : Partial) (old : Fact) (place : ℕ) →
        length part.dims ≡ length old.dims → slice_get part.dims place ≡ Some Keep →
        slice_get (over part old).dims place ≡ slice_get old.dims place }
    ensures measure_put { (part : Partial) (old : Fact) (place : ℕ) (value : Option ℤ) →
        length part.measures ≡ length old.measures →
        slice_get part.measures place ≡ Some (Put value) →
        slice_get (over part old).measures place ≡ Some value }
    ensures measure_left { (part : Partial) (old : Fact) (place : ℕ) →
        length part.measures ≡ length old.measures → slice_get part.measures place ≡ Some Keep →
        slice_get (over part old).measures place ≡ slice_get old.measures place }
{}

/// An amendment of an absent id changes nothing (this project's choice).
pub fn amendment_of_absent_changes_nothing()
    ensures { (id : List ℕ) (changes : List Change) (part : Partial) →
        IsAbsent id changes → IsAbsent id (changes ++ Amend id part ∷ []) }
{}

/// An amendment that keeps every field changes nothing (this project's choice).
pub fn amendment_that_keeps_all_changes_nothing()
    ensures { (id : List ℕ) (changes : List Change) (fact : Fact) →
        IsPresentWith id changes fact →
        IsPresentWith id (changes ++ Amend id (keeping fact) ∷ []) fact }
{}

/// An amendment that puts every field does what the update does (this project's choice).
pub fn amendment_that_puts_all_is_the_update()
    ensures { (id : List ℕ) (changes : List Change) (fact other : Fact) →
        IsPresentWith id changes fact → length other.dims ≡ length fact.dims →
        length other.measures ≡ length fact.measures →
        life_of id (changes ++ Amend id (putting other) ∷ [])
        ≡ life_of id (changes ++ Update id other ∷ []) }
{}

/// Nothing from before a delete is ever seen again: the life of an id is what it is from the changes after it alone
/// (this project's choice).
pub fn nothing_from_before_a_delete_is_seen()
    ensures { (id : List ℕ) (before after : List Change) →
        life_of id (before ++ Delete id ∷ after) ≡ life_of id after }
{}

/// Each field of the fact of a present id is the one that was put last since the last delete, by a change from the
/// first insert on, later inserts excepted (this project's choice).
pub fn each_field_is_the_one_put_last()
    ensures dimensions { (s : Layout) (id : List ℕ) (changes : List Change) (fact : Fact)
        (place : ℕ) →
        list_all (takes s) changes ≡ true → IsPresentWith id changes fact →
        place < length s.dimensions →
        slice_get fact.dims place
        ≡ last_of (dimension_puts place (since_delete (naming id changes))) }
    ensures measures { (s : Layout) (id : List ℕ) (changes : List Change) (fact : Fact)
        (place : ℕ) →
        list_all (takes s) changes ≡ true → IsPresentWith id changes fact →
        place < length s.measures →
        slice_get fact.measures place
        ≡ last_of (measure_puts place (since_delete (naming id changes))) }
{}

/// After an upsert an id is present with its fact, whatever it was before, so a second one like it changes nothing
/// (this project's choice).
pub fn upsert_puts_in_any_case()
    ensures present { (id : List ℕ) (changes : List Change) (fact : Fact) →
        IsPresentWith id (changes ++ Upsert id fact ∷ []) fact }
    ensures twice { (id : List ℕ) (changes : List Change) (fact : Fact) →
        life_of id ((changes ++ Upsert id fact ∷ []) ++ Upsert id fact ∷ [])
        ≡ life_of id (changes ++ Upsert id fact ∷ []) }
{}

/// After a removal an id is absent, whether or not it was present (this project's choice).
pub fn is_absent_after_removal()
    ensures { (id : List ℕ) (changes : List Change) → IsAbsent id (changes ++ Remove id ∷ []) }
{}

/// After a delete an id is absent, whether or not it was present (this project's choice).
pub fn is_absent_after_delete()
    ensures { (id : List ℕ) (changes : List Change) → IsAbsent id (changes ++ Delete id ∷ []) }
{}

/// An absent id stays absent until it is inserted or upserted, whatever else happens (this project's choice).
pub fn stays_absent_until_insert()
    ensures { (id : List ℕ) (changes later : List Change) →
        IsAbsent id changes → inserts id later ≡ false → IsAbsent id (changes ++ later) }
{}

/// What happens to other ids changes nothing of an id (this project's choice).
pub fn others_change_nothing()
    ensures { (id : List ℕ) (changes : List Change) (change : Change) →
        id_of change ≢ id → life_of id (changes ++ change ∷ []) ≡ life_of id changes }
{}
