//! A cut's numbers: sums over the constant and the parameters of the form's number times the cut's.

ghost use Rattle.std.specs.Prelude.{◌≡◌, ◌≤◌, ◌<◌, suc, ◌∷◌, nat_abs, length, MatchOption};
ghost use Rattle.rob_linear.specs.Vectors.{at};
ghost use Rattle.rob_dualize.specs.Wholes.{AreSound};
ghost use Rattle.rob_cuts.specs.Master.{cut_product, cut_number};
ghost use Rattle.rob_cuts.specs.Rounds.{cut_of, CutFits};
ghost use Rattle.rob_runs.specs.Spots.{HasWidePrefix};

use rob_cert::Round;
use rob_dualize::entries::form_number;
use rob_elab::Forms;
use rob_number::Exact;
use rob_worst::sums::added;

/// What the form is taken with: the base for the constant, and for each parameter its number.
fn multiplier(round: &Round, k: usize) -> i64
    requires inside { k ≤ length round.now.vector }
    ensures number { result ≡ at (round.now.base ∷ round.now.vector) k }
{
    if k == 0 {
        round.base
    } else {
        round.vector.items()[k - 1]
    }
}

/// The cut's number in a column, or none where a prefix of its sum is over the limit. Column 0 is the constant, and
/// the last is `tau`.
pub fn number<N: Exact>(forms: &Forms, round: &Round, j: usize) -> Option<i64>
    requires sound { AreSound forms.now }
    requires form_in { round.now.form < length forms.now.matrices }
    requires fits { CutFits N.limit forms.now.params (cut_of round.now) }
    requires column_in { j < suc (suc forms.now.columns) }
    ensures number { MatchOption result
        (HasWidePrefix N.limit (suc forms.now.params) (cut_product forms.now (cut_of round.now) j))
        (λ z. (z ≡ cut_number forms.now (cut_of round.now) j) × (nat_abs z ≤ N.limit)) }
{
    let mut sum = 0i64;
    for k in 0..forms.params as usize + 1 {
        let entry = form_number(forms, round.form as usize, k, j);
        match added::<N>(sum, entry, multiplier(round, k)) {
            Some(next) => sum = next,
            None => return None,
        }
    }
    Some(sum)
}
