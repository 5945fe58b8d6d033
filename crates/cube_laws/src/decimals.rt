//! What numbers with digits behind a point say.
ghost use Rattle.std.specs.Prelude.{◌≡◌, ℕ, List, [], None};
ghost use Rattle.cube_core.specs.Items.{arranged};
ghost use Rattle.cube_core.specs.Layout.{Layout};
ghost use Rattle.cube_core.specs.Plain.{plain_in_order};
ghost use Rattle.cube_laws.specs.Decimals.{ArePrintedSo, AreReadSo};

/// How numbers with digits behind a point are read, and which fields are none (this project's choice): nothing is rounded.
pub fn decimals_are_read_so()
    ensures { AreReadSo }
{}

/// How they are printed: with exactly as many digits as their measure may have, a sum of squares with twice as many, and
/// a mean and a variance as the fraction of the value itself; and values each with as many as their measure, a star, and
/// how often it is held, a space between two (this project's choice).
pub fn decimals_are_printed_so()
    ensures { ArePrintedSo }
{}

/// Where no measure takes a point, and columns aren't known by name, each record is its own plain one, but that the texts
/// that are counted stand before the measures: what feeds without decimals say is as if there were none (this project's choice).
pub fn without_decimals_nothing_changes()
    ensures arranged { (s : Layout) (fields : List (List ℕ)) →
        s.columns ≡ None → s.decimals ≡ [] → plain_in_order s fields ≡ arranged s fields }
    ensures same { (s : Layout) (fields : List (List ℕ)) →
        s.columns ≡ None → s.decimals ≡ [] → s.text_places ≡ [] → plain_in_order s fields ≡ fields }
{}
