//! Sums and scalar products of lists of fractions, and matrices as lists of rows.

ghost use Rattle.std.specs.Prelude.{◌≡◌, ◌++◌, ℕ, List, length};
ghost use Rattle.rob_algebra.specs.Fraction.{Fraction, ◌+ℚ◌, ◌*ℚ◌, ◌≤ℚ◌};
ghost use Rattle.rob_algebra.specs.FractionLaws.{ℚ_ring};
ghost use Rattle.rob_algebra.specs.Lists.{scale, plus_all, mat_vec, vec_mat, Rows};
ghost use Rattle.rob_algebra.specs.FractionLists.{total_ℚ, dot_ℚ, AllLe, AllNonneg};

/// A sum and a scalar product are linear in each list.
pub fn sums_are_linear()
    ensures append { (xs ys : List Fraction) → total_ℚ (xs ++ ys) ≡ total_ℚ xs +ℚ total_ℚ ys }
    ensures scaled { (c : Fraction) (xs : List Fraction)
        → total_ℚ (scale ℚ_ring c xs) ≡ c *ℚ total_ℚ xs }
    ensures symmetric { (xs ys : List Fraction) → dot_ℚ xs ys ≡ dot_ℚ ys xs }
    ensures product_scaled { (c : Fraction) (xs ys : List Fraction)
        → dot_ℚ (scale ℚ_ring c xs) ys ≡ c *ℚ dot_ℚ xs ys }
    ensures product_of_sum { (xs ys zs : List Fraction) → length xs ≡ length ys
        → dot_ℚ (plus_all ℚ_ring xs ys) zs ≡ dot_ℚ xs zs +ℚ dot_ℚ ys zs }
{}

/// Weights that aren't negative keep the order, and `(y A) x` is `y (A x)`. So weak duality holds: where `A x <= b`,
/// `x >= 0`, `c <= y A` and `y >= 0`, `c x` is at most `y b`. (Chvatal, Linear Programming, chapter 5.)
pub fn sums_are_monotone()
    ensures monotone { (weights xs ys : List Fraction) → AllNonneg weights → AllLe xs ys
        → dot_ℚ weights xs ≤ℚ dot_ℚ weights ys }
    ensures transposed { (n : ℕ) (rows : List (List Fraction)) (x y : List Fraction)
        → Rows ℚ_ring n rows
        → dot_ℚ (vec_mat ℚ_ring n y rows) x ≡ dot_ℚ y (mat_vec ℚ_ring rows x) }
    ensures weak_duality { (n : ℕ) (rows : List (List Fraction)) (b c x y : List Fraction)
        → Rows ℚ_ring n rows → AllLe (mat_vec ℚ_ring rows x) b → AllNonneg x
        → AllLe c (vec_mat ℚ_ring n y rows) → AllNonneg y → dot_ℚ c x ≤ℚ dot_ℚ y b }
{}
