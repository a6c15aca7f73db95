//! The rows of a basis. Chvatal, chapter 2 (dictionaries) and chapter 7 (the rows by the columns of
//! a basis).

ghost use Rattle.std.specs.Prelude.{◌≡◌, ◌≢◌, ℕ, ◌≤◌, ℤ, pos, ◌*ℤ◌, List, length};
ghost use Rattle.rob_algebra.specs.Fraction.{Fraction};
ghost use Rattle.rob_linear.specs.Vectors.{at, Columns, Matrix, Vector};
ghost use Rattle.rob_linear.specs.Systems.{System, IsTagged, right, LiesAlong, IsBasis, Meets, Solves, Point, Move};
ghost use Rattle.rob_linear.specs.Programs.{Program, system_of, auxiliary_of, kept_of};
ghost use Rattle.rob_linear.specs.Optimality.{IsBasicPoint};

/// Each position of a basis has one row, and what lies along it is a multiple of it. All rows
/// together say what the starting rows say.
pub fn rows_of_a_basis()
    ensures one { (S : System) (own : Columns) (rows rows' : Matrix) → IsBasis S own rows
        → IsBasis S own rows' → (i : ℕ) → i ≤ S.m → (k : ℕ) → k ≤ right S → rows i k ≡ rows' i k }
    ensures multiple { (S : System) (own : Columns) (rows : Matrix) (i : ℕ) (r : Vector)
        → IsBasis S own rows → i ≤ S.m → LiesAlong S own i r → (k : ℕ) → k ≤ right S
        → r (own i) *ℤ rows i k ≡ rows i (own i) *ℤ r k }
    ensures solutions { (S : System) (own : Columns) (rows : Matrix) (s : ℤ) (z : Vector)
        → IsBasis S own rows → Solves S s z → (i : ℕ) → i ≤ S.m → Meets S (rows i) s z }
    ensures no_others { (S : System) (own : Columns) (rows : Matrix) → IsBasis S own rows
        → (s : ℤ) (z : Vector) → ((i : ℕ) → i ≤ S.m → Meets S (rows i) s z) → Solves S s z }
{}

/// The starting rows are the rows of a basis: of their slack columns and the objective's column.
pub fn starting_rows()
    ensures basis { (S : System) → IsTagged S → IsBasis S S.tag S.start }
    ensures program { (P : Program) → IsTagged (system_of P) }
    ensures auxiliary { (P : Program) → IsTagged (auxiliary_of P) }
    ensures kept { (P : Program) → IsTagged (kept_of P) }
{}

/// Each basis has a basic solution, and a direction along each column that isn't basic.
pub fn basic_solutions()
    ensures point { (S : System) (own : Columns) (rows : Matrix) → IsBasis S own rows → (x : ℕ
        → Fraction) × IsBasicPoint S own rows x }
    ensures scaled_point { (S : System) (own : Columns) (rows : Matrix) → IsBasis S own rows
        → (s : ℤ) × (z : Vector) × Point S own rows s z }
    ensures scaled_move { (S : System) (own : Columns) (rows : Matrix) (col : ℕ)
        → IsBasis S own rows → ((j : ℕ) → j ≤ S.m → col ≢ own j)
        → (s : ℤ) × (z : Vector) × Move S own rows col s z }
{}

/// A list is a vector by its entries, and 0 past its end.
pub fn entries_of_a_list()
    ensures past_the_end { (r : List ℤ) (k : ℕ) → length r ≤ k → at r k ≡ pos 0 }
{}
