//! Rows kept up to positive factors: they choose as the rows of the basis do, a pivot keeps them such, and the numbers
//! and the width that they show are those of the basis.

ghost use Rattle.std.specs.Prelude.{◌≡◌, ◌≢◌, ℕ, zero, suc, ◌+◌, ◌<◌, ◌≤◌, ℤ, pos, ◌-ℤ◌, ◌*ℤ◌, ◌<ℤ◌, ◌≤ℤ◌};
ghost use Rattle.rob_algebra.specs.Fraction.{Fraction};
ghost use Rattle.rob_linear.specs.Vectors.{Columns, Matrix, Vector};
ghost use Rattle.rob_linear.specs.Systems.{System, right, IsTagged, IsPrimitive, IsCombined, LiesAlong, IsBasis, IsNonnegative, EndsOptimal, EndsUnbounded};
ghost use Rattle.rob_linear.specs.Programs.{Program, with_cost, system_of};
ghost use Rattle.rob_linear.specs.Turns.{IsLexFeasible, IsExchange, Enters, Leaves, Rises, own_of, TurnsTo};
ghost use Rattle.rob_linear.specs.Paths.{HasAuxiliary, Turned, ReachedFrom, LastFrom, EndsAtOptimum, EndsAtRay};
ghost use Rattle.rob_linear.specs.Rank.{rank, IsWithin};
ghost use Rattle.rob_linear.specs.Stages.{unit_row};
ghost use Rattle.rob_linear.specs.Optimality.{IsScaled, IsBasicPoint, IsBasicMove};
ghost use Rattle.rob_linear.specs.WideRows.{HasWideEntry, IsWideIn, IsWideStage};
ghost use Rattle.rob_linear.specs.Multiples.{IsParallel, AreParallel, IsMultipleRow, HasMultipleRows, IsPivotableMultiple, IsClearedBy, IsMultiplePivot, StandsMultiple};
ghost use Rattle.rob_linear.specs.MultipleStages.{IsMultipleStage, IsMultipleHalf};

/// Where each row is a positive multiple of its position's, the basis has rows, and these are the multiples without a
/// common divisor.
pub fn rows_up_to_factors()
    ensures exist { (S : System) (own : Columns) (rows : Matrix) → IsTagged S
        → HasMultipleRows S own rows → (prim : Matrix) × IsBasis S own prim }
    ensures parallel { (S : System) (own : Columns) (prim rows : Matrix) → IsBasis S own prim
        → HasMultipleRows S own rows → AreParallel S rows prim }
    ensures exact { (S : System) (own : Columns) (rows : Matrix) → HasMultipleRows S own rows
        → ((i : ℕ) → i ≤ S.m → IsPrimitive (suc (right S)) (rows i)) → IsBasis S own rows }
    ensures kept { (S : System) (own : Columns) (i : ℕ) (r s : Vector) → IsTagged S
        → ((j : ℕ) → j ≤ S.m → own j ≤ right S) → i ≤ S.m → IsParallel (suc (right S)) r s
        → IsMultipleRow S own i r → IsMultipleRow S own i s }
{}

/// Rows that are positive multiples of one another choose alike: which column enters, which position leaves, what is
/// feasible, and how it ends.
pub fn choices_up_to_factors()
    ensures enters { (S : System) (rows rows' : Matrix) (col : ℕ) → AreParallel S rows rows'
        → Enters S rows col → Enters S rows' col }
    ensures leaves { (S : System) (rows rows' : Matrix) (col e : ℕ) → IsTagged S → col < S.columns
        → AreParallel S rows rows' → Leaves S rows col e → Leaves S rows' col e }
    ensures order { (S : System) (rows rows' : Matrix) → IsTagged S → AreParallel S rows rows'
        → IsLexFeasible S rows → IsLexFeasible S rows' }
    ensures optimal { (S : System) (rows rows' : Matrix) → AreParallel S rows rows'
        → EndsOptimal S rows → EndsOptimal S rows' }
    ensures unbounded { (S : System) (own : Columns) (rows rows' : Matrix) (col : ℕ)
        → AreParallel S rows rows' → EndsUnbounded S own rows col → EndsUnbounded S own rows' col }
    ensures rises { (S : System) (r s r' s' : Vector) → IsTagged S → IsParallel (suc (right S)) r s
        → IsParallel (suc (right S)) r' s' → Rises S r r' → Rises S s s' }
{}

/// They show the same numbers, and have the same rank.
pub fn numbers_up_to_factors()
    ensures point { (S : System) (own : Columns) (rows rows' : Matrix) (x : ℕ → Fraction)
        → HasMultipleRows S own rows → AreParallel S rows rows' → IsBasicPoint S own rows x
        → IsBasicPoint S own rows' x }
    ensures direction { (S : System) (own : Columns) (rows rows' : Matrix) (col : ℕ)
        (x : ℕ → Fraction) → HasMultipleRows S own rows → AreParallel S rows rows' → col < S.columns
        → IsBasicMove S own rows col x → IsBasicMove S own rows' col x }
    ensures scaled { (n count : ℕ) (r s : Vector) (scale : ℕ) (place : Columns) (x : ℕ → Fraction)
        → IsParallel n r s → scale < n → ((j : ℕ) → j < count → place j < n)
        → IsScaled count x (r scale) (λ j. r (place j))
        → IsScaled count x (s scale) (λ j. s (place j)) }
    ensures measure { (S : System) (h : ℕ) (r s : Vector) → IsTagged S → IsWithin S h r
        → IsWithin S h s → IsParallel (suc (right S)) r s → rank S h r ≡ rank S h s }
{}

/// A pivot with any positive factors gives rows of the next basis up to factors, and with them a turn is one of the
/// path.
pub fn pivots_up_to_factors()
    ensures row { (S : System) (own own' : Columns) (low top new : Vector) (e col i : ℕ)
        → ((t : ℕ) → t ≤ S.m → S.tag t ≤ right S) → ((j : ℕ) → j ≤ S.m → own j ≤ right S)
        → own' e ≡ col → ((j : ℕ) → j ≢ e → own' j ≡ own j) → i ≤ S.m → i ≢ e
        → IsMultipleRow S own i low → LiesAlong S own e top
        → IsClearedBy (suc (right S)) col low top new → IsMultipleRow S own' i new }
    ensures rows { (S : System) (own own' : Columns) (rows rows' : Matrix) (e col : ℕ) → IsTagged S
        → IsPivotableMultiple S own rows e → IsMultiplePivot S own own' rows rows' e col
        → HasMultipleRows S own' rows' }
    ensures turn { (S : System) (basis next : Columns) (rows rows' : Matrix) (e col : ℕ)
        → IsTagged S → StandsMultiple S basis rows → Enters S rows col → Leaves S rows col e
        → IsMultiplePivot S (own_of S basis) (own_of S next) rows rows' e col
        → TurnsTo S basis next × StandsMultiple S next rows' × Rises S (rows S.m) (rows' S.m) }
{}

/// The second phase, and a path from a given basis, on rows up to factors: steps and endings are the path's.
pub fn paths_up_to_factors()
    ensures turn { (P : Program) (k : ℕ) (basis next : Columns) (rows rows' : Matrix) (e col : ℕ)
        → Turned P k basis → ¬ (HasAuxiliary P basis) → StandsMultiple (system_of P) basis rows
        → Enters (system_of P) rows col → Leaves (system_of P) rows col e
        → IsMultiplePivot (system_of P) (own_of (system_of P) basis)
        (own_of (system_of P) next) rows rows' e col
        → Turned P (suc k) next × StandsMultiple (system_of P) next rows' }
    ensures turn_from { (P : Program) (start basis next : Columns) (rows rows' : Matrix) (e col : ℕ)
        → ReachedFrom P start basis → StandsMultiple (system_of P) basis rows
        → Enters (system_of P) rows col → Leaves (system_of P) rows col e
        → IsMultiplePivot (system_of P) (own_of (system_of P) basis)
        (own_of (system_of P) next) rows rows' e col
        → ReachedFrom P start next × StandsMultiple (system_of P) next rows' }
    ensures optimum { (P : Program) (basis : Columns) (rows : Matrix)
        → StandsMultiple (system_of P) basis rows
        → IsNonnegative (P.n + P.m) (rows P.m) → EndsAtOptimum P basis }
    ensures ray { (P : Program) (basis : Columns) (rows : Matrix) (col : ℕ)
        → StandsMultiple (system_of P) basis rows → Enters (system_of P) rows col
        → ((i : ℕ) → i < P.m → rows i col ≤ℤ pos 0) → EndsAtRay P basis }
    ensures last_optimum { (P : Program) (start basis : Columns) → ReachedFrom P start basis
        → EndsAtOptimum P basis → LastFrom P start basis }
    ensures last_ray { (P : Program) (start basis : Columns) → ReachedFrom P start basis
        → EndsAtRay P basis → LastFrom P start basis }
{}

/// Ways to make such rows: in lowest terms, by factors that are divided by what is common to them, by leaving a row
/// that is 0 in the column, and by dividing a row.
pub fn ways_to_make_rows()
    ensures combined { (n col : ℕ) (low top new : Vector) → col < n → pos 0 <ℤ top col
        → IsCombined n (top col) low (low col) top new → IsClearedBy n col low top new }
    ensures factors { (n col : ℕ) (low top new : Vector) (p q : ℤ) → col < n → pos 0 <ℤ p
        → p *ℤ low col ≡ q *ℤ top col
        → ((k : ℕ) → k < n → new k ≡ (p *ℤ low k) -ℤ (q *ℤ top k)) → IsClearedBy n col low top new }
    ensures stays { (n col : ℕ) (low top new : Vector) → col < n → low col ≡ pos 0
        → ((k : ℕ) → k < n → new k ≡ low k) → IsClearedBy n col low top new }
    ensures divided { (n : ℕ) (r s : Vector) (d : ℤ) → pos 0 <ℤ d
        → ((k : ℕ) → k < n → d *ℤ s k ≡ r k) → IsParallel n r s }
{}

/// A row is wide only where its multiple at hand is, and where that is made primitive and still is.
pub fn width_up_to_factors()
    ensures only { (limit : ℕ) (S : System) (basis : Columns) (rows : Matrix) (i : ℕ) → IsTagged S
        → HasMultipleRows S (own_of S basis) rows → i ≤ S.m → IsWideIn limit S basis i
        → HasWideEntry limit S (rows i) }
    ensures shown { (limit : ℕ) (S : System) (basis : Columns) (rows : Matrix) (i : ℕ) (s : Vector)
        → IsTagged S → HasMultipleRows S (own_of S basis) rows → i ≤ S.m
        → IsParallel (suc (right S)) (rows i) s → IsPrimitive (suc (right S)) s
        → HasWideEntry limit S s → IsWideIn limit S basis i }
    ensures refused { (limit : ℕ) (S : System) (basis next : Columns) (rows : Matrix) (e col i : ℕ)
        (new : Vector)
        → IsTagged S → IsPivotableMultiple S (own_of S basis) rows e
        → IsExchange S (own_of S basis) (own_of S next) rows e col → i ≤ S.m → i ≢ e
        → IsClearedBy (suc (right S)) col (rows i) (rows e) new → IsPrimitive (suc (right S)) new
        → HasWideEntry limit S new → IsWideIn limit S next i }
{}

/// A new cost put on rows up to factors: each stage is made from the one before, the last is the objective's row, and
/// what is wide there is a wide stage.
pub fn new_cost_up_to_factors()
    ensures first { (P : Program) (own : Columns) (rows : Matrix) (d : Vector)
        → HasMultipleRows (system_of (with_cost P d)) own rows
        → IsMultipleStage P own zero (unit_row (P.n + P.m)) }
    ensures not_basic { (P : Program) (own : Columns) (rows : Matrix) (d : Vector) (j : ℕ)
        (r : Vector) → HasMultipleRows (system_of (with_cost P d)) own rows → j < P.n
        → ((i : ℕ) → i < P.m → j ≢ own i) → IsMultipleHalf P own j r
        → IsMultipleStage P own (suc j) r }
    ensures basic { (P : Program) (own : Columns) (rows : Matrix) (d : Vector) (j i : ℕ)
        (r new : Vector)
        → HasMultipleRows (system_of (with_cost P d)) own rows → j < P.n → i < P.m → own i ≡ j
        → IsMultipleHalf P own j r → IsClearedBy (suc (suc (P.n + P.m))) j r (rows i) new
        → IsMultipleStage P own (suc j) new }
    ensures last { (P : Program) (own : Columns) (r : Vector) → IsMultipleStage P own P.n r
        → IsMultipleRow (system_of P) own P.m r }
    ensures stands { (P : Program) (basis : Columns) (rows rows' : Matrix) (c : Vector)
        → StandsMultiple (system_of P) basis rows
        → ((i : ℕ) → i < P.m → IsParallel (suc (right (system_of P))) (rows i) (rows' i))
        → IsMultipleRow (system_of (with_cost P c)) (own_of (system_of P) basis) P.m (rows' P.m)
        → StandsMultiple (system_of (with_cost P c)) basis rows' }
    ensures wide { (limit : ℕ) (P : Program) (basis : Columns) (rows : Matrix) (d : Vector) (j : ℕ)
        (r s : Vector)
        → HasMultipleRows (system_of (with_cost P d)) (own_of (system_of P) basis) rows → j < P.n
        → IsMultipleStage P (own_of (system_of P) basis) j r
        → IsParallel (suc (suc (P.n + P.m))) r s
        → IsPrimitive (suc (suc (P.n + P.m))) s → HasWideEntry limit (system_of P) s
        → IsWideStage limit P basis }
    ensures wide_between { (limit : ℕ) (P : Program) (basis : Columns) (rows : Matrix) (d : Vector)
        (j : ℕ) (r s : Vector)
        → HasMultipleRows (system_of (with_cost P d)) (own_of (system_of P) basis) rows → j < P.n
        → IsMultipleHalf P (own_of (system_of P) basis) j r → IsParallel (suc (suc (P.n + P.m))) r s
        → IsPrimitive (suc (suc (P.n + P.m))) s → HasWideEntry limit (system_of P) s
        → IsWideStage limit P basis }
{}
