//! Lists of the values that the fields of a record spell.
ghost use Rattle.std.specs.Prelude.{◌≡◌, ◌≤◌, ◌∷◌, [], ◌++◌, true, false, List, Some, None, IfErr, OnOk, length, slice_range};
ghost use Rattle.std.specs.List.{list_all, filter_map};
ghost use Rattle.cube_feed.specs.SoundFields.{is_sound};
ghost use Rattle.cube_feed.specs.declared.field.Stop.TheVariants as stop;

use crate::field::{Fields, Spelled, Stop, is_null};
use arrayvec::ArrayVec;
use cube_core::{DimensionValues, SmallSequence, Text};
use std::alloc::Global;

/// A list of values, to which a value that a text spells is added at the end.
pub(crate) trait SpelledList<T: Spelled>: Drop {
    ghost values: { Self → List T };

    /// Adds the value that a text spells; the record is at fault where it spells none.
    fn add(&mut self, alloc: Global, text: &str) -> Result<(), Stop>
        ensures value { OnOk result ((value : T) × (Some value ≡ T.spells text.now)
            × (values self.new ≡ values self.old ++ value ∷ [])) }
        ensures line { IfErr result (λ e. e ≡ stop.Line → None ≡ T.spells text.now) };

    /// Adds the values that the fields from a place to another spell, all at once, where that can be done; else nothing
    /// changes.
    fn add_at_once(&mut self, fields: &Fields<'_>, start: usize, end: usize) -> bool
        requires { (start ≤ end) × (end ≤ length fields.now) }
        ensures values { result ≡ true →
            values self.new ≡ values self.old ++ filter_map T.spells (slice_range fields.now start end) }
        ensures sound { result ≡ true → list_all (is_sound T.spells) (slice_range fields.now start end) ≡ true }
        ensures kept { result ≡ false → values self.new ≡ values self.old }
    {
        let _ = fields;
        let _ = (start, end);
        false
    }
}

impl<T: Spelled> SpelledList<T> for Vec<T> {
    ghost values = { λ list. list.items };

    fn add(&mut self, alloc: Global, text: &str) -> Result<(), Stop> {
        let value = T::read(alloc, text)?;
        self.push(value)?;
        Ok(())
    }
}

/// The dimensions of a fact.
impl SpelledList<Option<Text>> for DimensionValues {
    ghost values = { λ list. list };

    fn add(&mut self, alloc: Global, text: &str) -> Result<(), Stop> {
        let _ = alloc;
        if is_null(text) {
            self.push(None)?;
        } else {
            self.push(Some(text))?;
        }
        Ok(())
    }

    fn add_at_once(&mut self, fields: &Fields<'_>, start: usize, end: usize) -> bool {
        let mut lens = ArrayVec::new();
        match fields.bytes_between(start, end, &mut lens) {
            Some(text) => self.push_fields(text, lens.as_slice()),
            None => false,
        }
    }
}

/// The measures of a fact.
impl SpelledList<Option<i64>> for SmallSequence<Option<i64>> {
    ghost values = { λ list. list };

    fn add(&mut self, alloc: Global, text: &str) -> Result<(), Stop> {
        let value = Spelled::read(alloc, text)?;
        self.push(value)?;
        Ok(())
    }
}
