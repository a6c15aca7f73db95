//! The greatest common divisor.

ghost use Prim.Native.Nat.{◌∣◌};
ghost use Rattle.std.specs.Prelude.{◌≡◌, ◌*◌, ◌/◌, ◌<◌, ℕ};
ghost use Rattle.std.specs.Int.{IsGcd};
ghost use Rattle.rob_algebra.specs.Gcd.{gcd};

/// `gcd` is the greatest common divisor. It divides a factor out of both numbers.
pub fn gcd_is_the_greatest_common_divisor()
    ensures divides { (a b : ℕ) → (gcd a b ∣ a) × (gcd a b ∣ b) }
    ensures greatest { (a b d : ℕ) → d ∣ a → d ∣ b → d ∣ gcd a b }
    ensures determined { (a b g : ℕ) → IsGcd a b g → gcd a b ≡ g }
    ensures zeros { gcd 0 0 ≡ 0 }
    ensures scaled { (a b c : ℕ) → 0 < c → gcd (a * c) (b * c) ≡ gcd a b * c }
    ensures lowest_terms { (a b : ℕ) → 0 < b → gcd (a / gcd a b) (b / gcd a b) ≡ 1 }
    ensures gauss { (a b d : ℕ) → gcd a b ≡ 1 → b ∣ (a * d) → b ∣ d }
{}
