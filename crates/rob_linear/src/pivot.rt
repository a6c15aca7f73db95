//! Pivots, the lexicographic rule, and the rank that rises with each turn. Chvatal, chapter 3.

ghost use Rattle.std.specs.Prelude.{ℕ, ◌<◌};
ghost use Rattle.rob_linear.specs.Vectors.{Columns, Matrix, Vector};
ghost use Rattle.rob_linear.specs.Systems.{System, IsTagged, IsBasis};
ghost use Rattle.rob_linear.specs.Turns.{IsPivotable, IsExchange, IsPivot, IsTurn, IsLexFeasible, Rises, own_of, IsSameBasis, TurnsTo};
ghost use Rattle.rob_linear.specs.Rank.{rank, rank_limit, IsWithin};

/// A pivot turns the rows of a basis into the rows of the next, and each pivot at a positive entry
/// can be made.
pub fn pivots()
    ensures rows { (S : System) (own own' : Columns) (rows rows' : Matrix) (e col : ℕ) → IsTagged S
        → IsPivotable S own rows e → IsPivot S own own' rows rows' e col → IsBasis S own' rows' }
    ensures exists { (S : System) (own own' : Columns) (rows : Matrix) (e col : ℕ)
        → IsPivotable S own rows e → IsExchange S own own' rows e col
        → (rows' : Matrix) × IsPivot S own own' rows rows' e col }
{}

/// A turn keeps the lexicographic order of the rows, and the objective's keys rise strictly.
pub fn turns()
    ensures order { (S : System) (own own' : Columns) (rows rows' : Matrix) (e col : ℕ) → IsTagged S
        → IsBasis S own rows → IsLexFeasible S rows → IsTurn S own own' rows rows' e col
        → IsLexFeasible S rows' }
    ensures rises { (S : System) (own own' : Columns) (rows rows' : Matrix) (e col : ℕ) → IsTagged S
        → IsBasis S own rows → IsLexFeasible S rows → IsTurn S own own' rows rows' e col
        → Rises S (rows S.m) (rows' S.m) }
    // A turn of rows is one of bases, and each basis has at most one next.
    ensures bases { (S : System) (basis next : Columns) (rows rows' : Matrix) (e col : ℕ)
        → IsBasis S (own_of S basis) rows
        → IsTurn S (own_of S basis) (own_of S next) rows rows' e col → TurnsTo S basis next }
    ensures one { (S : System) (basis next next' : Columns) → IsTagged S → TurnsTo S basis next
        → TurnsTo S basis next' → IsSameBasis S.m next next' }
{}

/// The rank of the objective's row rises with its keys and is bounded, so it serves as a loop's
/// measure.
pub fn ranks()
    ensures rises { (S : System) (h : ℕ) (r r' : Vector) → IsWithin S h r → IsWithin S h r'
        → Rises S r r' → rank S h r < rank S h r' }
    ensures bounded { (S : System) (h : ℕ) (r : Vector) → IsWithin S h r
        → rank S h r < rank_limit S h }
{}
