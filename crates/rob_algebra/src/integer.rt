//! The whole numbers are an ordered commutative ring.

ghost use Rattle.std.specs.Prelude.{◌≡◌, ◌⊎◌, ℤ, pos, neg_ℤ, ◌+ℤ◌, ◌*ℤ◌, ◌≤ℤ◌, ◌<ℤ◌};

/// The whole numbers are a commutative ring.
pub fn integers_are_a_ring()
    ensures add_assoc { (a b c : ℤ) → (a +ℤ b) +ℤ c ≡ a +ℤ (b +ℤ c) }
    ensures add_comm { (a b : ℤ) → a +ℤ b ≡ b +ℤ a }
    ensures zero_add { (a : ℤ) → pos 0 +ℤ a ≡ a }
    ensures neg_add { (a : ℤ) → neg_ℤ a +ℤ a ≡ pos 0 }
    ensures mul_assoc { (a b c : ℤ) → (a *ℤ b) *ℤ c ≡ a *ℤ (b *ℤ c) }
    ensures mul_comm { (a b : ℤ) → a *ℤ b ≡ b *ℤ a }
    ensures one_mul { (a : ℤ) → pos 1 *ℤ a ≡ a }
    ensures add_mul { (a b c : ℤ) → (a +ℤ b) *ℤ c ≡ a *ℤ c +ℤ b *ℤ c }
{}

/// Their order is total, and sums and products by what isn't negative keep it.
pub fn integers_are_ordered()
    ensures total { (a b : ℤ) → (a ≤ℤ b) ⊎ (b <ℤ a) }
    ensures antisymmetric { (a b : ℤ) → a ≤ℤ b → b ≤ℤ a → a ≡ b }
    ensures transitive { (a b c : ℤ) → a ≤ℤ b → b ≤ℤ c → a ≤ℤ c }
    ensures sums { (a b c d : ℤ) → a ≤ℤ b → c ≤ℤ d → (a +ℤ c) ≤ℤ (b +ℤ d) }
    ensures products { (a b c : ℤ) → a ≤ℤ b → pos 0 ≤ℤ c → (a *ℤ c) ≤ℤ (b *ℤ c) }
    ensures cancel { (a b c : ℤ) → pos 0 <ℤ c → (a *ℤ c) ≤ℤ (b *ℤ c) → a ≤ℤ b }
{}
