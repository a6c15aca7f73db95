//! The path of bases: one from each start, without return, and finite. Chvatal, chapter 3 (the
//! lexicographic rule).

ghost use Rattle.std.specs.Prelude.{ℕ, suc, ◌+◌, ◌^◌, ◌<◌, ◌⊎◌};
ghost use Rattle.rob_linear.specs.Vectors.{Columns, Matrix};
ghost use Rattle.rob_linear.specs.Systems.{System, IsTagged};
ghost use Rattle.rob_linear.specs.Programs.{Program};
ghost use Rattle.rob_linear.specs.Turns.{Rises, IsSameBasis, StandsWith, TurnsFrom};
ghost use Rattle.rob_linear.specs.Paths.{Turned, Reached, Last, LastFrom, EndsAtOptimum, EndsAtRay, EndsInFirstPhase};

/// Turns from a basis: the objective's row rises, no basis comes back, and there are fewer turns
/// than lists of columns.
pub fn path_from_a_basis()
    ensures stands { (S : System) (start : Columns) (rows : Matrix) (k : ℕ) (basis : Columns)
        → IsTagged S → StandsWith S start rows → TurnsFrom S start k basis
        → (rows' : Matrix) × StandsWith S basis rows' }
    ensures rises { (S : System) (start : Columns) (rows : Matrix) (k : ℕ) (basis : Columns)
        → IsTagged S → StandsWith S start rows → TurnsFrom S start (suc k) basis
        → (rows' : Matrix) × StandsWith S basis rows' × Rises S (rows S.m) (rows' S.m) }
    ensures no_return { (S : System) (start : Columns) (rows : Matrix) (k : ℕ) (basis : Columns)
        → IsTagged S → StandsWith S start rows → TurnsFrom S start (suc k) basis
        → ¬ (IsSameBasis S.m start basis) }
    ensures bounded { (S : System) (start : Columns) (rows : Matrix) (k : ℕ) (basis : Columns)
        → IsTagged S → StandsWith S start rows → TurnsFrom S start k basis → k < S.columns ^ S.m }
    ensures one { (S : System) (start : Columns) (k : ℕ) (basis basis' : Columns) → IsTagged S
        → TurnsFrom S start k basis → TurnsFrom S start k basis' → IsSameBasis S.m basis basis' }
    ensures last { (P : Program) (start basis basis' : Columns) → LastFrom P start basis
        → LastFrom P start basis' → IsSameBasis P.m basis basis' }
{}

/// Each program has one path, through both phases: one basis after k turns, and one last basis,
/// which exists.
pub fn path_of_a_program()
    ensures one { (P : Program) (k : ℕ) (basis basis' : Columns) → Turned P k basis
        → Turned P k basis' → IsSameBasis P.m basis basis' }
    ensures bounded { (P : Program) (k : ℕ) (basis : Columns) → Turned P k basis
        → k < suc (P.n + P.m) ^ P.m + (P.n + P.m) ^ P.m }
    ensures last { (P : Program) (basis basis' : Columns) → Last P basis → Last P basis'
        → IsSameBasis P.m basis basis' }
    ensures ends { (P : Program) → (basis : Columns) × Last P basis }
{}

/// The last basis has one of the three endings, and a basis on the path with one of them is the
/// last.
pub fn last_basis()
    ensures ending { (P : Program) (basis : Columns) → Last P basis
        → EndsAtOptimum P basis ⊎ (EndsAtRay P basis ⊎ EndsInFirstPhase P basis) }
    ensures optimal { (P : Program) (basis : Columns) → Reached P basis → EndsAtOptimum P basis
        → Last P basis }
    ensures unbounded { (P : Program) (basis : Columns) → Reached P basis → EndsAtRay P basis
        → Last P basis }
    ensures infeasible { (P : Program) (basis : Columns) → Reached P basis
        → EndsInFirstPhase P basis → Last P basis }
{}
