//! The programs, as functions and by their places.

ghost use Rattle.rob_linear.specs.Vectors.{Columns, Matrix, Vector};
ghost use Rattle.rob_counterpart.specs.Master.{Cuts, IsMaster, master_of};
ghost use Rattle.rob_counterpart.specs.Reform.{IsReform, reform};
ghost use Rattle.rob_counterpart.specs.RobustProgram.{RobustProgram};
ghost use Rattle.rob_counterpart.specs.SamePrograms.{AreSame};
ghost use Rattle.rob_counterpart.specs.SetPrograms.{IsOverSet, HasCost, IsSearch, over_set, search_of};
ghost use Rattle.rob_counterpart.specs.Endings.{OptimalEnding, InfeasibleEnding, UnboundedEnding};
ghost use Rattle.rob_algebra.specs.Fraction.{Fraction};
ghost use Rattle.rob_linear.specs.Paths.{Last, LastFrom};
ghost use Rattle.rob_linear.specs.Turns.{own_of};
ghost use Rattle.rob_linear.specs.WideRows.{HasWideRow, HasWideRowFrom};
ghost use Rattle.rob_linear.specs.Programs.{Program, system_of, auxiliary_of};
ghost use Rattle.std.specs.Prelude.{◌≡◌, ℕ};

/// Each function gives the program that is described by its places.
pub fn place_laws()
    ensures counterpart { (d : RobustProgram) → IsReform d (reform d) }
    ensures over_set { (d : RobustProgram) (f : Vector)
        → IsOverSet d (over_set d f) × HasCost d f (over_set d f) }
    ensures search { (d : RobustProgram) (i : ℕ) (z : Vector) → IsSearch d i z (search_of d i z) }
    ensures master { (d : RobustProgram) (cuts : Cuts) → IsMaster d cuts (master_of d cuts) }
{}

/// Each program that is so described has the numbers of the function, and so its starting rows, its bases and its
/// endings.
pub fn sameness_laws()
    ensures counterpart { (d : RobustProgram) (P : Program) → IsReform d P → AreSame P (reform d) }
    ensures over_set { (d : RobustProgram) (f : Vector) (P : Program)
        → IsOverSet d P → HasCost d f P → AreSame P (over_set d f) }
    ensures master { (d : RobustProgram) (cuts : Cuts) (P : Program)
        → IsMaster d cuts P → AreSame P (master_of d cuts) }
    ensures symmetric { (P Q : Program) → AreSame P Q → AreSame Q P }
    ensures systems { (P Q : Program) → AreSame P Q → system_of P ≡ system_of Q }
    ensures auxiliaries { (P Q : Program) → AreSame P Q → auxiliary_of P ≡ auxiliary_of Q }
{}

/// Programs with the same numbers have the same endings.
pub fn same_ending_laws()
    ensures optimal { (P Q : Program) (own : Columns) (rows : Matrix) (x y : ℕ → Fraction)
        → AreSame P Q → OptimalEnding P own rows x y → OptimalEnding Q own rows x y }
    ensures infeasible { (P Q : Program) (own : Columns) (rows : Matrix)
        → AreSame P Q → InfeasibleEnding P own rows → InfeasibleEnding Q own rows }
    ensures unbounded { (P Q : Program) (own : Columns) (rows : Matrix) (column : ℕ)
        (x r : ℕ → Fraction) → AreSame P Q → UnboundedEnding P own rows column x r
        → UnboundedEnding Q own rows column x r }
{}

/// And the same path of bases, the same last basis and the same wide rows.
pub fn path_laws()
    ensures own { (P Q : Program) (basis : Columns) → AreSame P Q
        → (own_of (system_of P) basis ≡ own_of (system_of Q) basis)
        × (own_of (auxiliary_of P) basis ≡ own_of (auxiliary_of Q) basis) }
    ensures last { (P Q : Program) (basis : Columns) → AreSame P Q → Last P basis → Last Q basis }
    ensures wide { (P Q : Program) (limit : ℕ) (basis : Columns) (i : ℕ) → AreSame P Q
        → HasWideRow limit P basis i → HasWideRow limit Q basis i }
    ensures last_from { (P Q : Program) (start basis : Columns) → AreSame P Q
        → LastFrom P start basis → LastFrom Q start basis }
    ensures wide_from { (P Q : Program) (limit : ℕ) (start basis : Columns) (i : ℕ) → AreSame P Q
        → HasWideRowFrom limit P start basis i → HasWideRowFrom limit Q start basis i }
{}
