//! What a refused item does, what one that isn't refused does, and which code tells why (this project's choice).
ghost use Rattle.std.specs.Prelude.{◌≡◌, ℕ, List, [], ◌∷◌, ◌++◌, Some, None};
ghost use Rattle.std.specs.Option.{option_to_list};
ghost use Rattle.cube_core.specs.Layout.{Layout};
ghost use Rattle.cube_core.specs.Life.{life_of, changes_of};
ghost use Rattle.cube_core.specs.Refusals.{refusal_of, refusals_of};
ghost use Rattle.cube_laws.specs.Refused.{IsMade, Reason, WhyRefused, code_in_version_1, code_in_version_2};
ghost use Rattle.cube_core.specs.declared.change.Item.{Item};
ghost use Rattle.cube_core.specs.declared.change.Refusal.{Refusal};

/// An item that is refused changes no life: each id has afterwards the life that it had before (this project's choice).
pub fn refused_item_changes_no_life()
    ensures { (s : Layout) (before : List Item) (item : Item) (refusal : Refusal) (id : List ℕ) →
        refusal_of s before item ≡ Some refusal →
        life_of id (changes_of s (before ++ item ∷ [])) ≡ life_of id (changes_of s before) }
{}

/// An item that isn't refused is made: it says a change that the schema takes, an insert puts the fact of an absent id,
/// an update that of a present id, an amendment some fields of it, a delete takes it away, and no other id is touched
/// (this project's choice).
pub fn item_that_is_not_refused_is_made()
    ensures { (s : Layout) (before : List Item) (item : Item) →
        refusal_of s before item ≡ None → IsMade s before item }
{}

/// Each item is refused at most once, with its number, after the refusals of the items before it; of no item there is no
/// refusal (this project's choice).
pub fn refusals_are_those_of_each_item()
    ensures none { (s : Layout) → refusals_of s [] ≡ [] }
    ensures more { (s : Layout) (before : List Item) (item : Item) →
        refusals_of s (before ++ item ∷ []) ≡ refusals_of s before ++ option_to_list (refusal_of s before item) }
    ensures number { (s : Layout) (before : List Item) (item : Item) (refusal : Refusal) →
        refusal_of s before item ≡ Some refusal → refusal.number ≡ item.number }
{}

/// The code of a refusal tells why the item is refused, by the state of its id and by the version of the feeds; and an item
/// is refused for no other reason (this project's choice).
pub fn codes_tell_why()
    ensures version_1 { (s : Layout) (before : List Item) (item : Item) (reason : Reason) →
        s.version ≡ 1 → WhyRefused s before item.what reason →
        refusal_of s before item ≡ Some (record { number = item.number; code = code_in_version_1 reason }) }
    ensures version_2 { (s : Layout) (before : List Item) (item : Item) (reason : Reason) →
        s.version ≡ 2 → WhyRefused s before item.what reason →
        refusal_of s before item ≡ Some (record { number = item.number; code = code_in_version_2 reason }) }
    ensures no_other { (s : Layout) (before : List Item) (item : Item) (refusal : Refusal) →
        refusal_of s before item ≡ Some refusal → (reason : Reason) × WhyRefused s before item.what reason }
{}
