//! Pairs in a basis, and the numbers that are read as a difference.

ghost use Rattle.rob_linear.specs.Vectors.{Vector, Matrix, Columns};
ghost use Rattle.rob_algebra.specs.Fraction.{Fraction, ◌-ℚ◌, neg_ℚ};
ghost use Rattle.rob_counterpart.specs.BasicPairs.{KeepsPair, KeepsPairs};
ghost use Rattle.rob_counterpart.specs.Endings.{OptimalEnding, InfeasibleEnding, UnboundedEnding};
ghost use Rattle.rob_counterpart.specs.Master.{Cuts, IsMaster};
ghost use Rattle.rob_counterpart.specs.ReadCertificates.{weight_of};
ghost use Rattle.rob_counterpart.specs.Reform.{IsReform, positive_row, negative_row};
ghost use Rattle.rob_counterpart.specs.RobustProgram.{RobustProgram};
ghost use Rattle.rob_counterpart.specs.SetPrograms.{IsOverSet, HasCost};
ghost use Rattle.rob_counterpart.specs.Splitting.{plus, minus, OneIsZero};
ghost use Rattle.rob_linear.specs.Optimality.{IsBasicPoint};
ghost use Rattle.rob_linear.specs.Programs.{Program, system_of};
ghost use Rattle.rob_linear.specs.Systems.{IsBasis};
ghost use Rattle.std.specs.Prelude.{◌≡◌, ◌<◌, ◌≤◌, ◌⊎◌, ℕ};

/// In every basis of the counterpart, and at every infeasible ending of its auxiliary form, the columns of a pair
/// are never basic together, and of two equating rows one slack is basic. In every basis of a program over the set,
/// and of a master, the columns of a pair are never basic together.
pub fn basis_laws()
    ensures counterpart { (d : RobustProgram) (P : Program) (own : Columns) (rows : Matrix)
        → IsReform d P → IsBasis (system_of P) own rows → KeepsPairs d P own }
    ensures infeasible { (d : RobustProgram) (P : Program) (own : Columns) (rows : Matrix)
        → IsReform d P → InfeasibleEnding P own rows → KeepsPairs d P own }
    ensures over_set { (d : RobustProgram) (f : Vector) (P : Program) (own : Columns)
        (rows : Matrix) (c : ℕ) → IsOverSet d P → HasCost d f P → c < d.set_columns
        → IsBasis (system_of P) own rows → KeepsPair P.m own c }
    ensures master { (d : RobustProgram) (cuts : Cuts) (P : Program) (own : Columns)
        (rows : Matrix) (j : ℕ) → IsMaster d cuts P → j ≤ d.decisions
        → IsBasis (system_of P) own rows → KeepsPair P.m own j }
{}

/// So of two numbers that are read as a difference one is 0, and the difference is one of them or its negation: no
/// number that is read is wider than those of the basis.
pub fn difference_laws()
    ensures difference { (a b : Fraction) → OneIsZero a b → (a -ℚ b ≡ a) ⊎ (a -ℚ b ≡ neg_ℚ b) }
    ensures point { (d : RobustProgram) (P : Program) (own : Columns) (rows : Matrix)
        (x y : ℕ → Fraction) (j : ℕ) → IsReform d P → OptimalEnding P own rows x y
        → j ≤ d.decisions → OneIsZero (x (plus j)) (x (minus j)) }
    ensures dual { (d : RobustProgram) (P : Program) (own : Columns) (rows : Matrix)
        (x y : ℕ → Fraction) (i c : ℕ) → IsReform d P → OptimalEnding P own rows x y
        → i < d.forms → c < d.set_columns
        → OneIsZero (y (positive_row d i c)) (y (negative_row d i c)) }
    ensures weight { (d : RobustProgram) (P : Program) (own : Columns) (rows : Matrix) (i c : ℕ)
        → IsReform d P → InfeasibleEnding P own rows → i < d.forms → c < d.set_columns
        → OneIsZero (weight_of P rows (positive_row d i c))
        (weight_of P rows (negative_row d i c)) }
    ensures unbounded_point { (d : RobustProgram) (P : Program) (own : Columns) (rows : Matrix)
        (column : ℕ) (x r : ℕ → Fraction) (j : ℕ) → IsReform d P
        → UnboundedEnding P own rows column x r → j ≤ d.decisions
        → OneIsZero (x (plus j)) (x (minus j)) }
    ensures direction { (d : RobustProgram) (P : Program) (own : Columns) (rows : Matrix)
        (column : ℕ) (x r : ℕ → Fraction) (j : ℕ) → IsReform d P
        → UnboundedEnding P own rows column x r → j ≤ d.decisions
        → OneIsZero (r (plus j)) (r (minus j)) }
{}

/// The same in a program over the set, and in a master.
pub fn further_difference_laws()
    ensures set_point { (d : RobustProgram) (f : Vector) (P : Program) (own : Columns)
        (rows : Matrix) (x : ℕ → Fraction) (c : ℕ) → IsOverSet d P → HasCost d f P
        → c < d.set_columns → IsBasis (system_of P) own rows
        → IsBasicPoint (system_of P) own rows x → OneIsZero (x (plus c)) (x (minus c)) }
    ensures set_ray { (d : RobustProgram) (f : Vector) (P : Program) (own : Columns)
        (rows : Matrix) (column : ℕ) (x r : ℕ → Fraction) (c : ℕ) → IsOverSet d P → HasCost d f P
        → c < d.set_columns → UnboundedEnding P own rows column x r
        → OneIsZero (r (plus c)) (r (minus c)) }
    ensures master_point { (d : RobustProgram) (cuts : Cuts) (P : Program) (own : Columns)
        (rows : Matrix) (x : ℕ → Fraction) (j : ℕ) → IsMaster d cuts P → j ≤ d.decisions
        → IsBasis (system_of P) own rows → IsBasicPoint (system_of P) own rows x
        → OneIsZero (x (plus j)) (x (minus j)) }
    ensures master_direction { (d : RobustProgram) (cuts : Cuts) (P : Program) (own : Columns)
        (rows : Matrix) (column : ℕ) (x r : ℕ → Fraction) (j : ℕ) → IsMaster d cuts P
        → j ≤ d.decisions → UnboundedEnding P own rows column x r
        → OneIsZero (r (plus j)) (r (minus j)) }
{}
