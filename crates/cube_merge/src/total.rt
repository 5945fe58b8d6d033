//! A sum of any size.
ghost use Rattle.std.specs.Prelude.{◌≡◌, ◌<◌, ◌≤◌, ◌+◌, ◌+ℤ◌, ◌^◌, ℤ, FitsSigned, IfNone, IfSome};
ghost use Rattle.std.specs.Int.{w128};
ghost use Rattle.cube_merge.specs.Total.{IsTotal};

/// A sum of numbers: `low`, and 2 to the power 128 times `ups` less `downs`.
#[derive(Clone, Copy)]
pub(crate) struct Total {
    low: i128,
    ups: usize,
    downs: usize,
}

impl Total {
    /// The sum of no number.
    pub(crate) const ZERO: Total = Total {
        low: 0,
        ups: 0,
        downs: 0,
    };

    /// Adds a number, of which fewer than 2 to the power 64 were added before.
    pub(crate) fn add(&mut self, number: i128)
        requires ups { self.old.ups + 1 < 2 ^ 64 }
        requires downs { self.old.downs + 1 < 2 ^ 64 }
        ensures sum { (sum : ℤ) → IsTotal sum self.old → IsTotal (sum +ℤ number) self.new }
        ensures ups { self.new.ups ≤ self.old.ups + 1 }
        ensures downs { self.new.downs ≤ self.old.downs + 1 }
    {
        match self.low.checked_add(number) {
            Some(low) => self.low = low,
            None if number < 0 => {
                self.low = (self.low - i128::MIN) + (number - i128::MIN);
                self.downs += 1;
            }
            None => {
                self.low = (self.low + i128::MIN) + (number + i128::MIN);
                self.ups += 1;
            }
        }
    }

    /// The sum; None where it isn't a number of 128 bits.
    pub(crate) fn get(&self) -> Option<i128>
        ensures some { IfSome result (λ low. (sum : ℤ) → IsTotal sum self.now → sum ≡ low) }
        ensures none { IfNone result ((sum : ℤ) → IsTotal sum self.now → FitsSigned w128 sum → ⊥) }
    {
        let low = self.low;
        if self.ups == self.downs {
            Some(low)
        } else {
            None
        }
    }
}
