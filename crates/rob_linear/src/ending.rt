//! How the simplex method ends, and what each ending says of the program. Chvatal, chapter 3.

ghost use Rattle.std.specs.Prelude.{◌≡◌, ℕ, ◌+◌, ◌<◌, ℤ, pos, ◌<ℤ◌};
ghost use Rattle.rob_algebra.specs.Fraction.{Fraction};
ghost use Rattle.rob_linear.specs.Vectors.{Columns, Matrix, Vector};
ghost use Rattle.rob_linear.specs.Systems.{System, IsBasis, IsSolution, Feasible, Point, Move, EndsOptimal, EndsUnbounded, IsPrimitive};
ghost use Rattle.rob_linear.specs.Programs.{Program, system_of, auxiliary_of, IsBest, IsDual, ShowsEmpty, Admits, Keeps, HasNoGreatest, EndsInfeasible, FallsIntoBlocks, LieInOneBlock};
ghost use Rattle.rob_linear.specs.Optimality.{IsFeasible, objective_at, IsOptimal, IsInfeasible, IsUnbounded, IsDualFeasible, dual_objective_at, IsImprovingRay, IsScaled, IsBasicPoint, IsBasicMove};

/// An optimal ending: the basic solution is a best point, and the slack entries of the objective's
/// row over its objective entry are dual values of the same value.
pub fn optimal_ending()
    ensures best { (P : Program) (own : Columns) (rows : Matrix) (x : ℕ → Fraction)
        → IsBasis (system_of P) own rows → EndsOptimal (system_of P) rows
        → IsBasicPoint (system_of P) own rows x → IsOptimal P x }
    ensures duals { (P : Program) (own : Columns) (rows : Matrix) (x y : ℕ → Fraction)
        → IsBasis (system_of P) own rows → EndsOptimal (system_of P) rows
        → IsBasicPoint (system_of P) own rows x
        → IsScaled P.m y (rows P.m (P.n + P.m)) (λ i. rows P.m (P.n + i))
        → IsDualFeasible P y × (objective_at P x ≡ dual_objective_at P y) }
    // The same for a point in whole numbers with a scale.
    ensures scaled { (P : Program) (own : Columns) (rows : Matrix) (s : ℤ) (z : Vector)
        → IsBasis (system_of P) own rows → EndsOptimal (system_of P) rows
        → Point (system_of P) own rows s z
        → IsBest P s z × IsDual P (rows P.m (P.n + P.m)) (λ i. rows P.m (P.n + i)) }
{}

/// An infeasible ending of the auxiliary form: the slack entries of its objective's row are weights
/// that show that no point is feasible, and they have no common divisor.
pub fn infeasible_ending()
    ensures weights { (P : Program) (own : Columns) (rows : Matrix)
        → IsBasis (auxiliary_of P) own rows → EndsInfeasible P rows
        → ShowsEmpty P (λ i. rows P.m (P.n + i)) }
    ensures none { (P : Program) (w : Vector) → ShowsEmpty P w → IsInfeasible P }
    ensures primitive { (P : Program) (own : Columns) (rows : Matrix) (e : ℕ)
        → IsBasis (auxiliary_of P) own rows → e < P.m → own e ≡ P.n + P.m
        → IsPrimitive P.m (λ i. rows P.m (P.n + i)) }
    // Where the rows and columns fall into blocks, the weights lie in one of them.
    ensures one_block { (P : Program) (own : Columns) (rows : Matrix) (of_row of_column : ℕ → ℕ)
        → IsBasis (auxiliary_of P) own rows → EndsInfeasible P rows
        → FallsIntoBlocks P of_row of_column
        → LieInOneBlock P of_row (λ i. rows P.m (P.n + i)) }
{}

/// An unbounded ending: the basic solution is feasible, the basic direction of the entering column
/// is an improving ray, and feasible points have values as great as one likes.
pub fn unbounded_ending()
    ensures ray { (P : Program) (own : Columns) (rows : Matrix) (col : ℕ) (x r : ℕ → Fraction)
        → IsBasis (system_of P) own rows → EndsUnbounded (system_of P) own rows col
        → IsBasicPoint (system_of P) own rows x → IsBasicMove (system_of P) own rows col r
        → IsFeasible P x × IsImprovingRay P r × IsUnbounded P }
    // The same for a point and a move in whole numbers.
    ensures scaled { (P : Program) (own : Columns) (rows : Matrix) (col : ℕ)
        (s : ℤ) (z : Vector) (t : ℤ) (r : Vector)
        → IsBasis (system_of P) own rows → EndsUnbounded (system_of P) own rows col
        → Point (system_of P) own rows s z → Move (system_of P) own rows col t r
        → Admits P s z × Keeps P r × HasNoGreatest P }
{}

/// The basic solution of a feasible basis solves the starting rows and has no negative entry.
pub fn feasible_basis()
    ensures solution { (S : System) (own : Columns) (rows : Matrix) (s : ℤ) (z : Vector)
        → IsBasis S own rows → Feasible S rows → Point S own rows s z → IsSolution S s z }
{}

/// Each point of fractions is some scaled whole point, and is feasible where that is admitted.
pub fn scaled_points()
    ensures cleared { (n : ℕ) (x : ℕ → Fraction)
        → (s : ℤ) × (z : Vector) × (pos 0 <ℤ s) × IsScaled n x s z }
    ensures admitted { (P : Program) (x : ℕ → Fraction) (s : ℤ) (z : Vector) → pos 0 <ℤ s
        → IsScaled P.n x s z → IsFeasible P x → Admits P s z }
    ensures feasible { (P : Program) (x : ℕ → Fraction) (s : ℤ) (z : Vector) → IsScaled P.n x s z
        → Admits P s z → IsFeasible P x }
{}
