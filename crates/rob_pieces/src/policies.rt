//! Pieces, and the statuses of a model over them.

ghost use Rattle.rob_algebra.specs.Fraction.{Fraction};
ghost use Rattle.rob_meaning.specs.Guarantee.{HasBound, IsNoWorse};
ghost use Rattle.rob_meaning.specs.RobustModel.{RobustModel};
ghost use Rattle.rob_meaning.specs.Status.{IsInfeasible, IsOptimal, IsUnbounded};
ghost use Rattle.rob_meaning.specs.WellFormed.{IsModel};
ghost use Rattle.rob_pieces.specs.Cuts.{AreCuts, Cut};
ghost use Rattle.rob_pieces.specs.Pieces.{IsPieceInfeasible, IsPieceOptimal, IsPieceUnbounded, Piece, PieceBound, plan_of, piece_of, same_in_all};
ghost use Rattle.rob_pieces.specs.SplitModel.{split_model};
ghost use Rattle.std.specs.Prelude.{◌≡◌, [], List, ◌↔◌};

/// The plans of the split model are the pieces of the model.
pub fn piece_laws()
    // A piece with a bound gives a plan of the split model with it,
    ensures plan { (m : RobustModel) (cuts : List Cut) (piece : Piece) (tau : Fraction) → IsModel m
        → m.sets ≡ [] → AreCuts m cuts → PieceBound m cuts piece tau
        → HasBound (split_model m cuts) (plan_of piece tau) tau }
    // and a plan of the split model with a bound gives a piece with it.
    ensures piece { (m : RobustModel) (cuts : List Cut) (all : List Fraction) (tau : Fraction)
        → IsModel m → m.sets ≡ [] → AreCuts m cuts → HasBound (split_model m cuts) all tau
        → PieceBound m cuts (piece_of m cuts all) tau }
    // So the split model has a status exactly where the model has it over pieces.
    ensures optimal { (m : RobustModel) (cuts : List Cut) (v : Fraction) → IsModel m → m.sets ≡ []
        → AreCuts m cuts → IsOptimal (split_model m cuts) v ↔ IsPieceOptimal m cuts v }
    ensures infeasible { (m : RobustModel) (cuts : List Cut) → IsModel m → m.sets ≡ []
        → AreCuts m cuts → IsInfeasible (split_model m cuts) ↔ IsPieceInfeasible m cuts }
    ensures unbounded { (m : RobustModel) (cuts : List Cut) → IsModel m → m.sets ≡ []
        → AreCuts m cuts → IsUnbounded (split_model m cuts) ↔ IsPieceUnbounded m cuts }
    // A plan with a bound is a piece with it, one policy in all cells;
    ensures whole { (m : RobustModel) (cuts : List Cut) (plan : List Fraction) (tau : Fraction)
        → HasBound m plan tau → PieceBound m cuts (same_in_all m cuts plan) tau }
    // so the best value of a piece is never worse.
    ensures never_worse { (m : RobustModel) (cuts : List Cut) (v w : Fraction)
        → IsOptimal m v → IsPieceOptimal m cuts w → IsNoWorse m.sense w v }
{}

/// At most one status holds over pieces, and a model is optimal over them at one value alone.
pub fn piece_status_laws()
    ensures one_value { (m : RobustModel) (cuts : List Cut) (v w : Fraction)
        → IsPieceOptimal m cuts v → IsPieceOptimal m cuts w → v ≡ w }
    ensures not_infeasible { (m : RobustModel) (cuts : List Cut) (v : Fraction)
        → IsPieceOptimal m cuts v → IsPieceInfeasible m cuts → ⊥ }
    ensures not_unbounded { (m : RobustModel) (cuts : List Cut) (v : Fraction)
        → IsPieceOptimal m cuts v → IsPieceUnbounded m cuts → ⊥ }
    ensures not_both { (m : RobustModel) (cuts : List Cut)
        → IsPieceInfeasible m cuts → IsPieceUnbounded m cuts → ⊥ }
{}
