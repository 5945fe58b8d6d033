//! What the definition of a mean determines, and what is printed for one.

ghost use Rattle.std.specs.Prelude.{◌≡◌, ◌*◌, ◌^◌, ◌++◌, ℕ, ◌<◌, ℤ, codes, decimal, unsigned_abs};
ghost use Rattle.std.specs.Fmt.{signed_decimal};
ghost use Rattle.std.specs.Int.{IsGcd};
ghost use Rattle.cube_core.specs.Fraction.{IsInLowestTerms};
ghost use Rattle.cube_core.specs.Text.{fraction_text};

/// A total and a count have one fraction in lowest terms: its numerator and its denominator are determined.
pub fn fraction_is_determined()
    ensures { (total : ℤ) (count : ℕ) (p p' : ℤ) (q q' : ℕ) → 0 < count →
        IsInLowestTerms total count p q → IsInLowestTerms total count p' q' → (p ≡ p') × (q ≡ q') }
{}

/// The fraction that is printed for p/q units of 10^-k, which is in lowest terms, is that of the value itself, p/(10^k * q),
/// in lowest terms too.
pub fn printed_fraction_is_of_the_value()
    ensures { (k : ℕ) (p : ℤ) (q : ℕ) → 0 < q → IsGcd (unsigned_abs p) q 1 →
        (numerator : ℤ) × (denominator : ℕ)
        × (fraction_text k p q ≡ signed_decimal numerator ++ codes "/" ++ decimal denominator)
        × IsInLowestTerms p (10 ^ k * q) numerator denominator }
{}
