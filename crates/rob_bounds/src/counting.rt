//! Counting. The pigeonhole principle; Siegel's lemma (Hindry, Silverman, lemma D.4.1).

ghost use Rattle.std.specs.Prelude.{ℕ, suc, ◌*◌, ◌^◌, ◌<◌, ◌≤◌};
ghost use Rattle.std.specs.Int.RustNames.{unsigned_abs};
ghost use Rattle.rob_linear.specs.Vectors.{Matrix};
ghost use Rattle.rob_bounds.specs.Bounds.{TakesTwice, HasSmallSolution};

/// A function from more numbers than it has values takes one of them twice.
pub fn pigeonhole()
    ensures twice { (p q : ℕ) (f : ℕ → ℕ) → q < p → ((i : ℕ) → i < p → f i < q) → TakesTwice p f }
{}

/// Equations without right sides, in one more unknown, have a small solution: n of them, with
/// coefficients at most a in size, one at most ((n + 1) * a) ^ n in size.
pub fn siegels_lemma()
    ensures small { (n a : ℕ) (c : Matrix) → 0 < a
        → ((t j : ℕ) → t < n → j < suc n → unsigned_abs (c t j) ≤ a)
        → HasSmallSolution n ((suc n * a) ^ n) c }
{}
