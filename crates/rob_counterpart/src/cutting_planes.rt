//! The cutting-plane method: the search for the worst case of a form, and the master program over cuts.

ghost use Rattle.rob_algebra.specs.Fraction.{Fraction, of_int, ◌≤ℚ◌, ◌<ℚ◌};
ghost use Rattle.rob_counterpart.specs.Counterpart.{search_program, master_program};
ghost use Rattle.rob_counterpart.specs.Endings.{OptimalEnding, InfeasibleEnding, UnboundedEnding};
ghost use Rattle.rob_counterpart.specs.Master.{Cuts};
ghost use Rattle.rob_counterpart.specs.MasterItems.{AreCuts, cut_vector, cut_items};
ghost use Rattle.rob_counterpart.specs.ReadCertificates.{scenario_read, plan_read, bound_read, weight_of};
ghost use Rattle.rob_counterpart.specs.WorstCases.{whole_plan, row_amounts, IsWorstCase, GrowsAlong};
ghost use Rattle.rob_linear.specs.Optimality.{objective_at};
ghost use Rattle.rob_linear.specs.Vectors.{Columns, Matrix, Vector};
ghost use Rattle.rob_meaning.specs.Forms.{matrices, form_at, parameter_part, plan_vector};
ghost use Rattle.rob_meaning.specs.Multipliers.{Covers};
ghost use Rattle.rob_meaning.specs.Places.{0ℚ, 1ℚ, Each};
ghost use Rattle.rob_meaning.specs.Proves.{IsItem, combination, target, Improves};
ghost use Rattle.rob_meaning.specs.RobustModel.{RobustModel, column_count};
ghost use Rattle.rob_meaning.specs.Vectors.{dot, scale, zeros};
ghost use Rattle.rob_meaning.specs.WellFormed.{IsModel};
ghost use Rattle.std.specs.Prelude.{◌≡◌, ◌<◌, ℕ, List, length};

/// What the endings of a search say of its form at a plan in whole numbers.
pub fn search_laws()
    // Optimal: the basic solution is a worst scenario, and the dual values show it.
    ensures worst { (m : RobustModel) (i : ℕ) (z : Vector) (own : Columns) (rows : Matrix)
        (x y : ℕ → Fraction) → IsModel m → i < length (matrices m)
        → OptimalEnding (search_program m i z) own rows x y
        → IsWorstCase m i (whole_plan m z) (scenario_read m x) (row_amounts m y) }
    // Its value is the form's parameter part at that scenario: the peak.
    ensures peak { (m : RobustModel) (i : ℕ) (z : Vector) (own : Columns) (rows : Matrix)
        (x y : ℕ → Fraction) → IsModel m → i < length (matrices m)
        → OptimalEnding (search_program m i z) own rows x y
        → objective_at (search_program m i z) x
        ≡ dot (parameter_part m i (whole_plan m z)) (scenario_read m x) }
    // Unbounded: the move is a ray of the set along which the form grows.
    ensures along { (m : RobustModel) (i : ℕ) (z : Vector) (own : Columns) (rows : Matrix)
        (column : ℕ) (x r : ℕ → Fraction) → IsModel m → i < length (matrices m)
        → UnboundedEnding (search_program m i z) own rows column x r
        → GrowsAlong m i (whole_plan m z) (scenario_read m r) }
    // A form that is at most 0 at its worst scenario is covered by the amounts that show it.
    ensures covers { (m : RobustModel) (i : ℕ) (z scenario amounts : List Fraction)
        → i < length (matrices m) → IsWorstCase m i z scenario amounts
        → form_at m i 1ℚ scenario z ≤ℚ 0ℚ → Covers m i 1ℚ z amounts }
    // What covers a form at a multiple of a plan covers it at the plan, that often.
    ensures scaled { (m : RobustModel) (i : ℕ) (s : Fraction) (z amounts : List Fraction)
        → Covers m i 1ℚ (scale s z) amounts → Covers m i s z amounts }
{}

/// What the endings of a master say of its cuts, which are forms at scenarios and rays.
pub fn master_laws()
    // Optimal: with its dual values the cuts are the items of an optimal certificate.
    ensures optimal { (m : RobustModel) (cuts : Cuts) (own : Columns) (rows : Matrix)
        (x y : ℕ → Fraction) → AreCuts m cuts → OptimalEnding (master_program m cuts) own rows x y
        → Each (IsItem m) (cut_items m cuts y)
        × (combination m (cut_items m cuts y) ≡ target m.sense (column_count m) (bound_read m x)) }
    // Infeasible: with its Farkas weights they are those of an infeasible one.
    ensures infeasible { (m : RobustModel) (cuts : Cuts) (own : Columns) (rows : Matrix)
        → AreCuts m cuts → InfeasibleEnding (master_program m cuts) own rows
        → Each (IsItem m) (cut_items m cuts (weight_of (master_program m cuts) rows))
        × (constant : Fraction) × (0ℚ <ℚ constant)
        × (combination m (cut_items m cuts (weight_of (master_program m cuts) rows))
        ≡ plan_vector constant (zeros (column_count m)) 0ℚ) }
    // Unbounded: the bound improves along the move.
    ensures unbounded { (m : RobustModel) (cuts : Cuts) (own : Columns) (rows : Matrix)
        (column : ℕ) (x r : ℕ → Fraction) → AreCuts m cuts
        → UnboundedEnding (master_program m cuts) own rows column x r
        → Improves m.sense (bound_read m r) }
{}

/// The plan of a master, and the direction of an unbounded one, keep each cut.
pub fn keeping_laws()
    ensures plan { (m : RobustModel) (cuts : Cuts) (own : Columns) (rows : Matrix)
        (x y : ℕ → Fraction) (q : ℕ) → AreCuts m cuts
        → OptimalEnding (master_program m cuts) own rows x y → q < cuts.count
        → form_at m (cuts.form q) (of_int (cuts.base q)) (cut_vector m cuts q)
        (plan_vector 1ℚ (plan_read m x) (bound_read m x)) ≤ℚ 0ℚ }
    ensures unbounded { (m : RobustModel) (cuts : Cuts) (own : Columns) (rows : Matrix)
        (column : ℕ) (x r : ℕ → Fraction) (q : ℕ) → AreCuts m cuts
        → UnboundedEnding (master_program m cuts) own rows column x r → q < cuts.count
        → (form_at m (cuts.form q) (of_int (cuts.base q)) (cut_vector m cuts q)
        (plan_vector 1ℚ (plan_read m x) (bound_read m x)) ≤ℚ 0ℚ)
        × (form_at m (cuts.form q) (of_int (cuts.base q)) (cut_vector m cuts q)
        (plan_vector 0ℚ (plan_read m r) (bound_read m r)) ≤ℚ 0ℚ) }
{}
