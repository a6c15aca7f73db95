//! The split model of a model and its cuts.

ghost use Rattle.std.specs.Prelude.{◌≡◌, IfOk, MatchResult, length, map};
ghost use Rattle.rob_cells.specs.Meaning.{HasCellSets, HasPieceStatus};
ghost use Rattle.rob_cells.specs.Rules.{CanSplit, HasCause, KeepsRules};
ghost use Rattle.rob_cells.specs.View.{cut_of};
ghost use Rattle.rob_meaning.specs.Named.{IsNamed};
ghost use Rattle.rob_model.specs.Valid.{IsValid};
ghost use Rattle.rob_model.specs.View.{robust};
ghost use Rattle.rob_pieces.specs.SplitModel.{split_model};

use crate::cut::Cut;
use crate::error::CellsErr;
use crate::rules::broken_rule;
use crate::split::split;
use rob_model::Model;
use rob_number::Exact;
use std::alloc::Global;

/// The split model of a model of one set and 1 to 3 cuts: a named set for each cell, with the model's set statements
/// and the cell's sides of the cuts; each row once for each cell, with the cell's own copies of the adaptive variables;
/// and a variable `cells_worst` in the objective's place, which is no better than the objective in any cell. A cut's
/// parameter counts from 0.
///
/// Rule 51 comes exactly where the model has a named set; rule 53 exactly where it has none, and two declared names of
/// the split model are equal or one is over 32 bytes; rule 54 exactly where these are kept, and the split model passes
/// a limit on the size of models. `Memory` comes only where the model has no named set.
pub fn cut_model<N: Exact>(
    alloc: Global,
    model: &Model<N>,
    cuts: &[Cut<N>],
) -> Result<Model<N>, CellsErr>
    requires valid { IsValid N.value model.now }
    requires ready { CanSplit (length cuts.now) (robust N.value model.now)
        (map (cut_of N.value) cuts.now) }
    ensures split { IfOk result (λ other. robust N.value other
        ≡ split_model (robust N.value model.now) (map (cut_of N.value) cuts.now)) }
    ensures valid { IfOk result (λ other. IsValid N.value other) }
    ensures named { IfOk result (λ other. IsNamed (robust N.value model.now)
        → IsNamed (robust N.value other)) }
    // It has the statuses that the model has over pieces, and its sets are the cells.
    ensures pieces { IfOk result (λ other. HasPieceStatus (robust N.value model.now)
        (map (cut_of N.value) cuts.now) (robust N.value other)) }
    ensures cells { IfOk result (λ other. HasCellSets (robust N.value model.now)
        (map (cut_of N.value) cuts.now) (robust N.value other)) }
    ensures rule { MatchResult result
        (λ _. KeepsRules (robust N.value model.now) (map (cut_of N.value) cuts.now))
        (HasCause (robust N.value model.now) (map (cut_of N.value) cuts.now)) }
{
    if let Some(rule) = broken_rule(alloc, model, cuts)? {
        return Err(CellsErr::Rule(rule));
    }
    Ok(split(alloc, model, cuts)?)
}
