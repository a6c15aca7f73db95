//! The fractions are an ordered field.

ghost use Rattle.std.specs.Prelude.{◌≡◌, ◌≢◌, ◌<◌, ◌⊎◌, ◌↔◌, ℕ, ℤ, pos, negsuc, ◌+ℤ◌, ◌*ℤ◌, ◌≤ℤ◌};
ghost use Rattle.std.specs.Bool.{Decides};
ghost use Rattle.std.specs.Ordering.{MatchOrdering};
ghost use Rattle.rob_algebra.specs.Fraction.{Fraction, of_pair, of_int, ◌+ℚ◌, ◌*ℚ◌, neg_ℚ, inv_ℚ, sign_ℚ, ◌<ℚ◌, ◌≤ℚ◌};
ghost use Rattle.rob_algebra.specs.FractionOrderLaws.{Trichotomy};
ghost use Rattle.rob_algebra.specs.FractionOrder.{cmp_ℚ, eq_ℚ};

/// A pair of a whole number and a denominator above 0 is read as a fraction: two pairs as one where their cross
/// products are equal, and each fraction from its own parts, which have no common divisor.
pub fn pairs_are_read_as_fractions()
    ensures same_pairs { (a c : ℤ) (b d : ℕ) → 0 < b → 0 < d
        → (of_pair a b ≡ of_pair c d) ↔ (a *ℤ pos d ≡ c *ℤ pos b) }
    ensures lowest { (x : Fraction) → of_pair x.num x.den ≡ x }
    ensures positive { (x : Fraction) → 0 < x.den }
    ensures whole { (z : ℤ) → ((of_int z).num ≡ z) × ((of_int z).den ≡ 1) }
    ensures of_int_add { (m n : ℤ) → of_int (m +ℤ n) ≡ of_int m +ℚ of_int n }
    ensures of_int_mul { (m n : ℤ) → of_int (m *ℤ n) ≡ of_int m *ℚ of_int n }
{}

/// The fractions are a field.
pub fn fractions_are_a_field()
    ensures add_assoc { (x y z : Fraction) → (x +ℚ y) +ℚ z ≡ x +ℚ (y +ℚ z) }
    ensures add_comm { (x y : Fraction) → x +ℚ y ≡ y +ℚ x }
    ensures zero_add { (x : Fraction) → of_int (pos 0) +ℚ x ≡ x }
    ensures neg_add { (x : Fraction) → neg_ℚ x +ℚ x ≡ of_int (pos 0) }
    ensures mul_assoc { (x y z : Fraction) → (x *ℚ y) *ℚ z ≡ x *ℚ (y *ℚ z) }
    ensures mul_comm { (x y : Fraction) → x *ℚ y ≡ y *ℚ x }
    ensures one_mul { (x : Fraction) → of_int (pos 1) *ℚ x ≡ x }
    ensures add_mul { (x y z : Fraction) → (x +ℚ y) *ℚ z ≡ x *ℚ z +ℚ y *ℚ z }
    ensures mul_inv { (x : Fraction) → x ≢ of_int (pos 0) → x *ℚ inv_ℚ x ≡ of_int (pos 1) }
    ensures one_is_not_zero { of_int (pos 1) ≢ of_int (pos 0) }
{}

/// Their order is total, and sums and products by what isn't negative keep it.
pub fn fractions_are_ordered()
    ensures total { (x y : Fraction) → (x ≤ℚ y) ⊎ (y <ℚ x) }
    ensures antisymmetric { (x y : Fraction) → x ≤ℚ y → y ≤ℚ x → x ≡ y }
    ensures transitive { (x y z : Fraction) → x ≤ℚ y → y ≤ℚ z → x ≤ℚ z }
    ensures strict { (x y : Fraction) → x ≤ℚ y → y <ℚ x → ⊥ }
    ensures three_ways { (x y : Fraction) → Trichotomy x y }
    ensures sums { (x y z w : Fraction) → x ≤ℚ y → z ≤ℚ w → x +ℚ z ≤ℚ y +ℚ w }
    ensures products { (x y c : Fraction) → x ≤ℚ y → of_int (pos 0) ≤ℚ c → c *ℚ x ≤ℚ c *ℚ y }
    ensures whole { (m n : ℤ) → (of_int m ≤ℚ of_int n) ↔ (m ≤ℤ n) }
{}

/// The tests that compute answer equality, the order and the sign.
pub fn fractions_are_compared()
    ensures equality { (x y : Fraction) → Decides (eq_ℚ x y) (x ≡ y) }
    ensures order { (x y : Fraction) → MatchOrdering (cmp_ℚ x y) (x <ℚ y) (x ≡ y) (y <ℚ x) }
    ensures below { (x : Fraction) → (sign_ℚ x ≡ negsuc 0) ↔ (x <ℚ of_int (pos 0)) }
    ensures zero { (x : Fraction) → (sign_ℚ x ≡ pos 0) ↔ (x ≡ of_int (pos 0)) }
    ensures above { (x : Fraction) → (sign_ℚ x ≡ pos 1) ↔ (of_int (pos 0) <ℚ x) }
{}
