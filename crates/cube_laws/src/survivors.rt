//! What the changes of feeds determine: their survivors up to order, and one printed text.
ghost use Rattle.std.specs.Prelude.{◌≡◌, ◌↔◌, ℕ, List, [], ◌∷◌, IsPermutation};
ghost use Rattle.cube_core.specs.Layout.{IsSchema, Layout};
ghost use Rattle.cube_laws.specs.Told.{AreFewSources, CanPrintSurvivors};
ghost use Rattle.cube_core.specs.Surviving.{Survive, AreSurviving};
ghost use Rattle.cube_core.specs.Sources.{SurviveTogether, IsPrintedOf};
ghost use Rattle.cube_core.specs.declared.fact.Fact.{Fact};
ghost use Rattle.cube_core.specs.declared.change.Change.{Change};
ghost use Rattle.cube_core.specs.declared.change.Item.{Item};

/// The facts that survive changes are determined up to their order: each id that is present in the end has one fact
/// (this project's choice).
pub fn survivors_are_determined()
    ensures { (changes : List Change) (facts facts' : List Fact) →
        Survive changes facts → Survive changes facts' → IsPermutation facts facts' }
{}

/// The facts that survive several feeds are determined up to their order (this project's choice).
pub fn joined_survivors_are_determined()
    ensures { (s : Layout) (feeds : List (List Item)) (facts facts' : List Fact) →
        SurviveTogether s feeds facts → SurviveTogether s feeds facts' →
        IsPermutation facts facts' }
{}

/// The survivors of a single feed are those of its items: one source is the first case of several.
pub fn one_feed_is_joined_alone()
    ensures { (s : Layout) (items : List Item) (facts : List Fact) →
        SurviveTogether s (items ∷ []) facts ↔ AreSurviving s items facts }
{}

/// The bytes of the sources determine the printed cube: under one schema the same bytes have one printed text, however
/// the survivors are listed (this project's choice).
pub fn bytes_have_one_printed_cube()
    ensures { (s : Layout) (sources : List (List ℕ)) (text text' : List ℕ) →
        IsPrintedOf s sources text → IsPrintedOf s sources text' → text ≡ text' }
{}

/// Whatever facts survive the feeds of fewer than 2 to the power 32 sources can be printed: they fit the schema, there are
/// fewer than 2 to the power 64 of them, and their values have 64 bits (this project's choice).
pub fn survivors_can_be_printed()
    ensures { (s : Layout) (sources : List (List ℕ)) → IsSchema s → AreFewSources sources → CanPrintSurvivors s sources }
{}
