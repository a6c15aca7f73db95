//! Condensed rows: only the entries of the columns that are not basic, and each row's own entry. Read as functions
//! of the column they are whole rows.

ghost use Rattle.std.specs.Prelude.{◌≡◌, ◌≢◌, ℕ, suc, ◌+◌, ◌<◌, ◌≤◌, ℤ, pos, ◌*ℤ◌, ◌<ℤ◌, ◌≤ℤ◌};
ghost use Rattle.std.specs.Int.RustNames.{unsigned_abs};
ghost use Rattle.std.specs.Int.{◌∣◌};
ghost use Rattle.rob_linear.specs.Paths.{auxiliary_column};
ghost use Rattle.rob_linear.specs.Vectors.{Columns, Matrix, Vector};
ghost use Rattle.rob_linear.specs.Multiples.{IsClearedBy};
ghost use Rattle.rob_linear.specs.Beside.{exchanged};
ghost use Rattle.rob_linear.specs.CondensedRows.{entry_of, IsPlaced, IsReplaced, IsTurnedRow, IsClearedRow, start_places, start_at, start_near};
ghost use Rattle.rob_linear.specs.Systems.{right, IsPrimitive};
ghost use Rattle.rob_linear.specs.Programs.{Program, system_of, auxiliary_tag, auxiliary_place, kept_row, kept_of};

/// The column that leaves takes the place of the one that enters: the maps stay inverse to one another, the leaving
/// position's row stays, and each other row is cleared by it.
pub fn condensed_pivot()
    ensures placed { (m w n r e : ℕ) (at near basis at' near' basis' : Columns)
        → IsPlaced m w n at near basis
        → IsReplaced m w n r e at near basis at' near' basis' → IsPlaced m w n at' near' basis' }
    ensures row { (m w n r e : ℕ) (at near basis at' near' basis' : Columns) (table table' : Matrix)
        (own own' : Vector)
        → IsPlaced m w n at near basis → IsReplaced m w n r e at near basis at' near' basis'
        → IsTurnedRow w r (at e) table table' own own'
        → (c : ℕ) → c < n → entry_of w at' table' own' r c ≡ entry_of w at table own r c }
    ensures others { (m w n r e : ℕ) (at near basis at' near' basis' : Columns)
        (table table' : Matrix) (own own' : Vector) (i : ℕ)
        → IsPlaced m w n at near basis → IsReplaced m w n r e at near basis at' near' basis' → i ≤ m
        → i ≢ r → IsClearedRow w r (at e) i table table' own own'
        → IsClearedBy n e (entry_of w at table own i) (entry_of w at table own r)
        (entry_of w at' table' own' i) }
{}

/// Two rows exchanged with their positions' columns.
pub fn condensed_exchange()
    ensures placed { (m w n q p : ℕ) (at near basis at' basis' : Columns) → q ≤ m → p ≤ m
        → IsPlaced m w n at near basis → ((c : ℕ) → at c < w → at' c ≡ at c)
        → ((i : ℕ) → i ≤ m → at' (basis i) ≡ w + exchanged q p i)
        → ((i : ℕ) → i ≤ m → basis' i ≡ basis (exchanged q p i)) → IsPlaced m w n at' near basis' }
    ensures entries { (m w n q p : ℕ) (at near basis at' basis' : Columns) (table table' : Matrix)
        (own own' : Vector) (i : ℕ)
        → q ≤ m → p ≤ m → IsPlaced m w n at near basis → ((c : ℕ) → at c < w → at' c ≡ at c)
        → ((i : ℕ) → i ≤ m → at' (basis i) ≡ w + exchanged q p i)
        → ((i : ℕ) → i ≤ m → basis' i ≡ basis (exchanged q p i)) → i ≤ m
        → ((k : ℕ) → k < w → table' i k ≡ table (exchanged q p i) k)
        → own' i ≡ own (exchanged q p i)
        → (c : ℕ) → c < n
        → entry_of w at' table' own' i c ≡ entry_of w at table own (exchanged q p i) c }
{}

/// The rows of the start, with a place for each structural column, one for the auxiliary column, and one for the right
/// side; the slack columns and the objective's are basic.
pub fn condensed_start()
    ensures placed { (P : Program) → IsPlaced P.m (start_places P) (suc (right (kept_of P)))
        (start_at P) (start_near P) (auxiliary_tag P) }
    ensures entries { (P : Program) (table : Matrix) (own : Vector) (i c : ℕ) → i ≤ P.m
        → c < suc (right (kept_of P))
        → (start_at P c < start_places P → table i (start_at P c) ≡ kept_row P i c) → own i ≡ pos 1
        → entry_of (start_places P) (start_at P) table own i c ≡ kept_row P i c }
{}

/// Where a condensed row is negative: the first such column stands at a negative place.
pub fn condensed_signs()
    ensures first { (m w n : ℕ) (at near basis : Columns) (table : Matrix) (own : Vector) (i k : ℕ)
        → IsPlaced m w n at near basis → k < w → table i k <ℤ pos 0
        → ((j : ℕ) → j < w → near j < near k → pos 0 ≤ℤ table i j) → pos 0 ≤ℤ own i
        → (entry_of w at table own i (near k) <ℤ pos 0)
        × ((c : ℕ) → c < near k → pos 0 ≤ℤ entry_of w at table own i c) }
    ensures none { (m w n : ℕ) (at near basis : Columns) (table : Matrix) (own : Vector)
        (i before : ℕ)
        → IsPlaced m w n at near basis → ((k : ℕ) → k < w → near k < before → pos 0 ≤ℤ table i k)
        → pos 0 ≤ℤ own i → (c : ℕ) → c < n → c < before → pos 0 ≤ℤ entry_of w at table own i c }
{}

/// The numbers of a condensed row are those of the whole row: its multiples, its divisors, its size.
pub fn condensed_numbers()
    ensures times { (m w n : ℕ) (at near basis : Columns) (table table' : Matrix)
        (own own' : Vector) (i : ℕ) (a b : ℤ)
        → IsPlaced m w n at near basis → ((k : ℕ) → k < w → a *ℤ table' i k ≡ b *ℤ table i k)
        → a *ℤ own' i ≡ b *ℤ own i
        → (c : ℕ) → c < n → a *ℤ entry_of w at table' own' i c ≡ b *ℤ entry_of w at table own i c }
    ensures primitive { (m w n : ℕ) (at near basis : Columns) (table : Matrix) (own : Vector)
        (i : ℕ) → IsPlaced m w n at near basis → i ≤ m
        → ((d : ℕ) → ((k : ℕ) → k < w → d ∣ unsigned_abs (table i k)) → d ∣ unsigned_abs (own i)
        → d ≡ 1)
        → IsPrimitive n (entry_of w at table own i) }
    ensures within { (m w n : ℕ) (at near basis : Columns) (table : Matrix) (own : Vector)
        (i limit : ℕ)
        → IsPlaced m w n at near basis → ((k : ℕ) → k < w → unsigned_abs (table i k) ≤ limit)
        → unsigned_abs (own i) ≤ limit
        → (c : ℕ) → c < n → unsigned_abs (entry_of w at table own i c) ≤ limit }
    ensures without { (P : Program) (r : Vector) → r (auxiliary_column P) ≡ pos 0
        → IsPrimitive (suc (right (kept_of P))) r
        → IsPrimitive (suc (right (system_of P))) (λ k. r (auxiliary_place P k)) }
{}
