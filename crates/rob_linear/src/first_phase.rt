//! The first phase with the auxiliary column kept out of the table's basis. Its turns are those of the path.

ghost use Rattle.std.specs.Prelude.{◌≡◌, ◌≢◌, ℕ, suc, ◌+◌, ◌<◌, ◌≤◌, ◌⊎◌, ℤ, pos, ◌*ℤ◌, ◌<ℤ◌, ◌≤ℤ◌};
ghost use Rattle.std.specs.Int.RustNames.{unsigned_abs};
ghost use Rattle.rob_linear.specs.Vectors.{Columns, Matrix, Vector};
ghost use Rattle.rob_linear.specs.Systems.{System, right, RowOf, IsPrimitive, IsBasis, IsNonnegative};
ghost use Rattle.rob_linear.specs.Programs.{Program, without_auxiliary, auxiliary_place, system_of, auxiliary_of, auxiliary_row, kept_row, kept_of};
ghost use Rattle.rob_linear.specs.Turns.{own_of, Enters, Leaves, StandsWith};
ghost use Rattle.rob_linear.specs.Rank.{rank, IsWithin};
ghost use Rattle.rob_linear.specs.Paths.{auxiliary_column, StartsAtSlacks, StartsAtAuxiliary, HasAuxiliary, Turned, Reached, EndsInFirstPhase};
ghost use Rattle.rob_linear.specs.WideRows.{HasWideEntry, IsWideIn, NeedsAuxiliary};
ghost use Rattle.rob_linear.specs.Multiples.{IsParallel, AreParallel, IsMultipleRow, HasMultipleRows, IsClearedBy, StandsMultiple, put_at};
ghost use Rattle.rob_linear.specs.Beside.{AreStarting, StandsBeside, HoldsBeside, path_basis, turned_columns, EntersBeside, IsBesidePivot, IsBegun, IsBackPivot, IsLeast, HasNoLeast, swapped, beside_objective, without_column};

/// The start: the least of the starting rows tells whether the auxiliary column is brought in, and for which one. The
/// starting rows themselves then stand beside.
pub fn start_beside()
    ensures auxiliary { (P : Program) (slacks : Columns) (rows : Matrix) (e : ℕ)
        → ((i : ℕ) → i < P.m → slacks i ≡ P.n + i) → AreStarting P rows
        → IsLeast (auxiliary_of P) (auxiliary_column P) rows e
        → StartsAtAuxiliary P (put_at slacks e (auxiliary_column P))
        × StandsBeside P (put_at slacks e (auxiliary_column P)) e (P.n + e) rows }
    ensures slacks { (P : Program) (slacks : Columns) (rows : Matrix)
        → ((i : ℕ) → i < P.m → slacks i ≡ P.n + i) → AreStarting P rows
        → HasNoLeast (auxiliary_of P) (auxiliary_column P) rows → StartsAtSlacks P slacks }
{}

/// A turn: after the pivot the least row tells the position that leaves. Its row is exchanged with row q, and the
/// column that stood there is the other column beside. Where there is none the auxiliary column leaves, and the
/// rows are the program's.
pub fn turn_beside()
    ensures stays { (P : Program) (k : ℕ) (basis : Columns) (q f col p : ℕ) (rows rows' : Matrix)
        → Turned P k basis → StandsBeside P basis q f rows → EntersBeside P q rows col
        → IsBesidePivot P q col rows rows' → IsLeast (auxiliary_of P) (auxiliary_column P) rows' p
        → Turned P (suc k) (put_at basis p col)
        × StandsBeside P (put_at basis p col) q (basis p) (swapped q p rows') }
    ensures leaves { (P : Program) (k : ℕ) (basis : Columns) (q f col : ℕ) (rows rows' : Matrix)
        → Turned P k basis → StandsBeside P basis q f rows → EntersBeside P q rows col
        → IsBesidePivot P q col rows rows' → HasNoLeast (auxiliary_of P) (auxiliary_column P) rows'
        → Turned P (suc k) (put_at basis q col) × ¬ (HasAuxiliary P (put_at basis q col))
        × StandsMultiple (system_of P) (put_at basis q col) (without_column P rows') }
    ensures leaves_exact { (P : Program) (basis : Columns) (q f col : ℕ) (rows rows' : Matrix)
        → Reached P basis → StandsBeside P basis q f rows → EntersBeside P q rows col
        → IsBesidePivot P q col rows rows' → HasNoLeast (auxiliary_of P) (auxiliary_column P) rows'
        → ((i : ℕ) → i ≤ P.m → IsPrimitive (suc (right (kept_of P))) (rows' i))
        → StandsWith (system_of P) (put_at basis q col) (without_column P rows') }
    ensures goes_on { (P : Program) (q : ℕ) (rows : Matrix)
        → ((col : ℕ) × EntersBeside P q rows col × (rows' : Matrix)
        × IsBesidePivot P q col rows rows'
        × (((p : ℕ) × IsLeast (auxiliary_of P) (auxiliary_column P) rows' p)
        ⊎ HasNoLeast (auxiliary_of P) (auxiliary_column P) rows'))
        ⊎ ((k : ℕ) → k < P.n + P.m → pos 0 ≤ℤ rows q k) }
    ensures other { (P : Program) (basis : Columns) (q f col p : ℕ) (rows rows' : Matrix)
        → StandsBeside P basis q f rows → EntersBeside P q rows col
        → IsBesidePivot P q col rows rows'
        → IsLeast (auxiliary_of P) (auxiliary_column P) rows' p → p ≢ q }
    ensures row { (q p : ℕ) (rows : Matrix) → swapped q p rows q ≡ rows p }
{}

/// The same by the columns of the table's own basis, where the path's basis has the auxiliary column at position q.
pub fn turn_by_columns()
    ensures start { (P : Program) (slacks : Columns) (rows : Matrix) (e : ℕ) → e < P.m
        → ((i : ℕ) → i < P.m → slacks i ≡ P.n + i) → AreStarting P rows
        → HoldsBeside P slacks e rows }
    ensures stands { (P : Program) (columns : Columns) (q : ℕ) (rows : Matrix)
        → HoldsBeside P columns q rows
        → StandsBeside P (path_basis P columns q) q (columns q) rows }
    ensures stays { (P : Program) (k : ℕ) (columns : Columns) (q col p : ℕ) (rows rows' : Matrix)
        → Turned P k (path_basis P columns q) → HoldsBeside P columns q rows
        → EntersBeside P q rows col
        → IsBesidePivot P q col rows rows' → IsLeast (auxiliary_of P) (auxiliary_column P) rows' p
        → Turned P (suc k) (path_basis P (turned_columns columns q p col) q)
        × HoldsBeside P (turned_columns columns q p col) q (swapped q p rows') }
    ensures leaves { (P : Program) (k : ℕ) (columns : Columns) (q col : ℕ) (rows rows' : Matrix)
        → Turned P k (path_basis P columns q) → HoldsBeside P columns q rows
        → EntersBeside P q rows col
        → IsBesidePivot P q col rows rows' → HasNoLeast (auxiliary_of P) (auxiliary_column P) rows'
        → Turned P (suc k) (put_at columns q col) × ¬ (HasAuxiliary P (put_at columns q col))
        × StandsMultiple (system_of P) (put_at columns q col) (without_column P rows') }
    ensures same { (S : System) (own own' : Columns) (rows : Matrix)
        → ((i : ℕ) → i ≤ S.m → own' i ≡ own i)
        → HasMultipleRows S own' rows → HasMultipleRows S own rows }
{}

/// The end: where no column enters, the path ends in the first phase, and row q's slack entries in lowest terms are the
/// weights, those of the auxiliary objective's row.
pub fn end_beside()
    ensures ends { (P : Program) (basis : Columns) (q f : ℕ) (rows : Matrix)
        → StandsBeside P basis q f rows
        → Reached P basis → ((k : ℕ) → k < P.n + P.m → pos 0 ≤ℤ rows q k)
        → EndsInFirstPhase P basis }
    ensures weights { (P : Program) (basis : Columns) (q f : ℕ) (rows prim : Matrix) (d : ℤ)
        (w : Vector) → StandsBeside P basis q f rows
        → IsBasis (auxiliary_of P) (own_of (auxiliary_of P) basis) prim → pos 0 <ℤ d
        → ((i : ℕ) → i < P.m → d *ℤ w i ≡ rows q (P.n + i)) → IsPrimitive P.m w
        → (i : ℕ) → i < P.m → prim P.m (P.n + i) ≡ w i }
{}

/// The measure: the rank of the auxiliary objective's row, read off row q, rises with each turn.
pub fn measure_beside()
    ensures within { (P : Program) (h : ℕ) (r : Vector) → r (auxiliary_column P) <ℤ pos 0
        → ((k : ℕ) → k ≤ right (kept_of P) → unsigned_abs (r k) ≤ h)
        → IsWithin (auxiliary_of P) h (beside_objective P r) }
    ensures rises { (P : Program) (h : ℕ) (basis : Columns) (q f col p : ℕ) (rows rows' : Matrix)
        → StandsBeside P basis q f rows → Reached P basis → EntersBeside P q rows col
        → IsBesidePivot P q col rows rows' → IsLeast (auxiliary_of P) (auxiliary_column P) rows' p
        → ((k : ℕ) → k ≤ right (kept_of P) → unsigned_abs (rows q k) ≤ h)
        → ((k : ℕ) → k ≤ right (kept_of P) → unsigned_abs (rows' p k) ≤ h)
        → rank (auxiliary_of P) h (beside_objective P (rows q))
        < rank (auxiliary_of P) h (beside_objective P (rows' p)) }
{}

/// The way back to the explicit form, also where a pivot was begun: one pivot at row q and the auxiliary column,
/// with the row of the auxiliary cost put in and the kept row behind.
pub fn back_from_beside()
    ensures rows { (P : Program) (basis : Columns) (q f col : ℕ) (rows begun new : Matrix)
        (kept : Vector)
        → StandsBeside P basis q f rows → Reached P basis → IsBegun P q col rows begun
        → IsBackPivot P q begun new kept
        → StandsMultiple (auxiliary_of P) basis new
        × IsMultipleRow (kept_of P) (own_of (kept_of P) basis) P.m kept }
    ensures exact { (P : Program) (basis : Columns) (q f col : ℕ) (rows begun new : Matrix)
        (kept : Vector)
        → StandsBeside P basis q f rows → Reached P basis → IsBegun P q col rows begun
        → IsBackPivot P q begun new kept
        → ((i : ℕ) → i ≤ P.m → IsPrimitive (suc (right (kept_of P))) (new i))
        → IsPrimitive (suc (right (kept_of P))) kept
        → StandsWith (auxiliary_of P) basis new
        × RowOf (kept_of P) (own_of (kept_of P) basis) P.m kept }
    ensures wide { (limit : ℕ) (P : Program) (basis : Columns) (q f col : ℕ) (rows begun : Matrix)
        (i : ℕ) (new : Vector)
        → StandsBeside P basis q f rows → IsBegun P q col rows begun → i ≤ P.m → i ≢ q
        → IsClearedBy (suc (right (kept_of P))) (auxiliary_column P) (begun i) (begun q) new
        → IsPrimitive (suc (right (kept_of P))) new → HasWideEntry limit (kept_of P) new
        → IsWideIn limit (kept_of P) basis i }
    ensures wide_cost { (limit : ℕ) (P : Program) (basis : Columns) (q f col : ℕ)
        (rows begun : Matrix) (new : Vector)
        → StandsBeside P basis q f rows → IsBegun P q col rows begun
        → IsClearedBy (suc (right (kept_of P))) (auxiliary_column P) (auxiliary_row P P.m)
        (begun q) new
        → IsPrimitive (suc (right (kept_of P))) new → HasWideEntry limit (auxiliary_of P) new
        → IsWideIn limit (auxiliary_of P) basis P.m }
    ensures needs { (P : Program) (basis : Columns) → Reached P basis → HasAuxiliary P basis
        → NeedsAuxiliary P }
    ensures parallel { (P : Program) (basis : Columns) (q f : ℕ) (rows new : Matrix)
        → StandsBeside P basis q f rows → AreParallel (kept_of P) rows new
        → StandsBeside P basis q f new }
{}

/// After the first phase the rows may stay in the order of the auxiliary form: what is chosen and done there is
/// chosen and done without the auxiliary column. So they may from the start, where no first phase is needed.
pub fn rows_without_the_column()
    ensures start { (P : Program) (slacks : Columns) (rows : Matrix) → StartsAtSlacks P slacks
        → ((i k : ℕ) → i ≤ P.m → k ≤ right (kept_of P) → k ≢ auxiliary_column P
        → rows i k ≡ kept_row P i k)
        → StandsMultiple (system_of P) slacks (without_column P rows) }
    ensures enters { (P : Program) (rows : Matrix) (col : ℕ) → col < P.n + P.m
        → rows P.m col <ℤ pos 0
        → ((k : ℕ) → k < col → pos 0 ≤ℤ rows P.m k)
        → Enters (system_of P) (without_column P rows) col }
    ensures leaves { (P : Program) (rows : Matrix) (col e : ℕ) → col < P.n + P.m
        → Leaves (kept_of P) rows col e → Leaves (system_of P) (without_column P rows) col e }
    ensures cleared { (P : Program) (col : ℕ) (low top new : Vector) → col < P.n + P.m
        → IsClearedBy (suc (right (kept_of P))) col low top new
        → IsClearedBy (suc (right (system_of P))) col (λ k. low (auxiliary_place P k))
        (λ k. top (auxiliary_place P k)) (λ k. new (auxiliary_place P k)) }
    ensures parallel { (P : Program) (r s : Vector) → IsParallel (suc (right (kept_of P))) r s
        → IsParallel (suc (right (system_of P))) (λ k. r (auxiliary_place P k))
        (λ k. s (auxiliary_place P k)) }
{}

/// The explicit form on rows up to factors: the kept row turns with the others, the phase changes, and the ending shows
/// the weights.
pub fn explicit_up_to_factors()
    ensures kept { (P : Program) (own own' : Columns) (rows : Matrix) (kept new : Vector)
        (e col : ℕ)
        → HasMultipleRows (auxiliary_of P) own rows → IsMultipleRow (kept_of P) own P.m kept
        → e < P.m → own' e ≡ col → ((j : ℕ) → j ≢ e → own' j ≡ own j)
        → IsClearedBy (suc (right (kept_of P))) col kept (rows e) new
        → IsMultipleRow (kept_of P) own' P.m new }
    ensures change { (P : Program) (basis : Columns) (rows : Matrix) (kept : Vector)
        → StandsMultiple (auxiliary_of P) basis rows
        → IsMultipleRow (kept_of P) (own_of (kept_of P) basis) P.m kept → ¬ (HasAuxiliary P basis)
        → StandsMultiple (system_of P) basis (without_auxiliary P rows kept) }
    ensures ends { (P : Program) (basis : Columns) (rows : Matrix)
        → StandsMultiple (auxiliary_of P) basis rows
        → HasAuxiliary P basis → IsNonnegative (suc (P.n + P.m)) (rows P.m)
        → EndsInFirstPhase P basis }
    ensures weights { (P : Program) (basis : Columns) (rows prim : Matrix) (d : ℤ) (w : Vector)
        → HasMultipleRows (auxiliary_of P) (own_of (auxiliary_of P) basis) rows
        → HasAuxiliary P basis
        → IsBasis (auxiliary_of P) (own_of (auxiliary_of P) basis) prim → pos 0 <ℤ d
        → ((i : ℕ) → i < P.m → d *ℤ w i ≡ rows P.m (P.n + i)) → IsPrimitive P.m w
        → (i : ℕ) → i < P.m → prim P.m (P.n + i) ≡ w i }
{}
