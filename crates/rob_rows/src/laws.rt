//! What the layers above use of the definitions.

ghost use Rattle.std.specs.Prelude.{◌≡◌, ◌≢◌, ◌<◌, ◌-ℤ◌, ◌*ℤ◌, ◌<ℤ◌, ℕ, ℤ, List, [], pos, length, slice_index_or};
ghost use Rattle.std.specs.Cmp.Lexicographic.{slice_cmp};
ghost use Rattle.std.specs.Ordering.{MatchOrdering};
ghost use Rattle.rob_algebra.specs.FractionOrder.{cmp_ℚ};
ghost use Rattle.rob_linear.specs.Turns.{IsLexPositive};
ghost use Rattle.rob_linear.specs.Vectors.{at};
ghost use Rattle.rob_linear.specs.Systems.{IsCombined};
ghost use Rattle.rob_rows.specs.declared.program.Lp.{Lp};
ghost use Rattle.rob_rows.specs.LinearPrograms.{IsShaped, program_of};
ghost use Rattle.rob_rows.specs.PrimitiveParts.{combination, IsPrimitivePart};
ghost use Rattle.rob_rows.specs.Quotients.{quotients};

/// The laws of primitive parts. It does nothing, and its clauses are the claim.
pub fn primitive_part_laws()
    // Each row has exactly one primitive part.
    ensures exists { (whole : List ℤ) → (row : List ℤ) × IsPrimitivePart row whole }
    ensures unique { (row other whole : List ℤ)
        → IsPrimitivePart row whole → IsPrimitivePart other whole → row ≡ other }
    // That of a combination which is not 0 everywhere is the row after a pivot.
    ensures pivot { (new low top : List ℤ) (p q : ℤ) (k : ℕ)
        → length low ≡ length top → k < length low → ((p *ℤ at low k) -ℤ (q *ℤ at top k)) ≢ pos 0
        → IsPrimitivePart new (combination p low q top)
        → IsCombined (length low) p (at low) q (at top) (at new) }
{}

/// The law of the order that `lex_cmp` tells. It does nothing, and its clause is the claim.
pub fn lexicographic_law()
    // The first place where p * b and q * a differ decides.
    ensures first_difference { (a b : List ℤ) (p q : ℤ) → pos 0 <ℤ p → pos 0 <ℤ q
        → length a ≡ length b → MatchOrdering (slice_cmp cmp_ℚ (quotients a p) (quotients b q))
        (IsLexPositive (length a) (λ k. (p *ℤ at b k) -ℤ (q *ℤ at a k)))
        ((k : ℕ) → k < length a → (p *ℤ at b k) -ℤ (q *ℤ at a k) ≡ pos 0)
        (IsLexPositive (length a) (λ k. (q *ℤ at a k) -ℤ (p *ℤ at b k))) }
{}

/// The law of the program that an `Lp` stands for. It does nothing, and its clause is the claim.
pub fn program_law()
    // No row of a shaped program is read past its end.
    ensures rows_are_whole { (lp : Lp) (i : ℕ) → IsShaped lp → i < (program_of lp).m
        → length (slice_index_or lp.a i []) ≡ (program_of lp).n }
{}
