//! Whole numbers among the fractions.

ghost use Rattle.rob_algebra.specs.Fraction.{Fraction, of_int, ◌≤ℚ◌};
ghost use Rattle.rob_reach.specs.WholeNumbers.{IsWhole, ceiling, floor};
ghost use Rattle.std.specs.Prelude.{◌≡◌, ◌↔◌, ◌≤ℤ◌, ℤ};

/// Floors and ceilings.
pub fn whole_number_laws()
    // A whole number is at most the floor exactly where it is at most the number.
    ensures floor { (z : ℤ) (x : Fraction) → (z ≤ℤ floor x) ↔ (of_int z ≤ℚ x) }
    // It is at least the ceiling exactly where it is at least the number.
    ensures ceiling { (z : ℤ) (x : Fraction) → (ceiling x ≤ℤ z) ↔ (x ≤ℚ of_int z) }
    // A fraction is whole exactly where it is the fraction of a whole number.
    ensures whole { (x : Fraction) → IsWhole x ↔ ((z : ℤ) × (x ≡ of_int z)) }
{}
