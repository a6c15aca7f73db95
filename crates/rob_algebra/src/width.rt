//! Which numbers fit a width.

ghost use Rattle.std.specs.Prelude.{◌≡◌, ◌≤◌, ◌⊎◌, ◌↔◌, ℕ, ℤ, Some, None};
ghost use Rattle.std.specs.Bool.{Decides};
ghost use Rattle.rob_algebra.specs.Fraction.{Fraction, of_int};
ghost use Rattle.rob_algebra.specs.Width.{Fits, IsWide, is_wide, kept, IsWideWhole};

/// A fraction either fits a limit or is wide, `is_wide` tests it, and what fits is kept.
pub fn what_fits_is_kept()
    ensures either { (limit : ℕ) (x : Fraction) → Fits limit x ⊎ IsWide limit x }
    ensures not_both { (limit : ℕ) (x : Fraction) → Fits limit x → IsWide limit x → ⊥ }
    ensures tested { (limit : ℕ) (x : Fraction) → Decides (is_wide limit x) (IsWide limit x) }
    ensures kept { (limit : ℕ) (x : Fraction) → (kept limit x ≡ Some x) ↔ Fits limit x }
    ensures refused { (limit : ℕ) (x : Fraction) → (kept limit x ≡ None) ↔ IsWide limit x }
    ensures same { (limit : ℕ) (x y : Fraction) → kept limit x ≡ Some y → y ≡ x }
    ensures whole { (limit : ℕ) (z : ℤ) → 1 ≤ limit
        → IsWide limit (of_int z) ↔ IsWideWhole limit z }
{}
