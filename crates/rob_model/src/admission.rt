//! Which set conditions hold: admission of a scenario, and the first condition that a vector breaks.

ghost use Rattle.std.specs.Prelude.{◌≡◌, ◌↔◌, length, map, IfOk, IsTrue};
ghost use Rattle.std.specs.Result.{result_ok};
ghost use Rattle.rob_number.specs.Counts.{CountsTold};
ghost use Rattle.rob_meaning.specs.UncertaintySet.{Admits};
ghost use Rattle.rob_model.specs.FirstBroken.{IsFirstBroken};
ghost use Rattle.rob_model.specs.Valid.{IsValid};
ghost use Rattle.rob_model.specs.View.{robust, scenario_of};
ghost use Rattle.rob_model.specs.Within.{first_broken_within, admits_within};

use crate::bounds::{bound_count, broken_bound};
use crate::model::Model;
use crate::numbers::one;
use crate::plan::Scenario;
use crate::statements::broken_statement;
use rob_number::{Exact, Ledger, Wide};

/// Whether the model admits the scenario: whether it keeps each declared bound of a parameter and each set statement.
pub fn admits<N: Exact, L: Ledger>(
    model: &Model<N>,
    scenario: &Scenario<N>,
    ledger: &mut L,
) -> Result<bool, Wide>
    requires valid { IsValid N.value model.now }
    requires fits { length scenario.now.values ≡ length model.now.params }
    // Condition by condition up to the first that fails; refused exactly where a number on the way is wide.
    ensures exact { result_ok result ≡ admits_within N.limit (robust N.value model.now)
        (scenario_of N.value scenario.now) }
    ensures admitted { IfOk result (λ yes. IsTrue yes
        ↔ Admits (robust N.value model.now) (scenario_of N.value scenario.now)) }
    ensures counted { CountsTold L.ops L.wides ledger.old ledger.new result }
{
    let once = one(ledger);
    let broken = first_broken(model, once, scenario.values.items(), ledger)?;
    Ok(broken.is_none())
}

/// The number of the first set condition that fails at the vector when it is taken `base` times: an expression `e`
/// counts as `e(vector) - e(0) + base * e(0)`, and each bound, centre and budget is multiplied by `base`. With base 1
/// this is admission, with base 0 it tells a ray of the set. `None` where all hold. Conditions count from 0: the
/// declared bounds of the parameters, each lower before upper, and then the statements.
pub fn first_broken<N: Exact, L: Ledger>(
    model: &Model<N>,
    base: N,
    vector: &[N],
    ledger: &mut L,
) -> Result<Option<u32>, Wide>
    requires valid { IsValid N.value model.now }
    requires fits { length vector.now ≡ length model.now.params }
    // Condition by condition up to the first that fails; refused exactly where a number on the way is wide.
    ensures exact { result_ok result ≡ first_broken_within N.limit (robust N.value model.now)
        (N.value base) (map N.value vector.now) }
    ensures first { IfOk result (IsFirstBroken (robust N.value model.now) (N.value base)
        (map N.value vector.now)) }
    ensures counted { CountsTold L.ops L.wides ledger.old ledger.new result }
{
    search(model, base, vector, ledger)
}

/// The search for it: the bounds, and then the statements.
fn search<N: Exact, L: Ledger>(
    model: &Model<N>,
    base: N,
    vector: &[N],
    ledger: &mut L,
) -> Result<Option<u32>, Wide>
    requires valid { IsValid N.value model.now }
    ensures exact { result_ok result ≡ first_broken_within N.limit (robust N.value model.now)
        (N.value base) (map N.value vector.now) }
    ensures counted { CountsTold L.ops L.wides ledger.old ledger.new result }
{
    match broken_bound(model.params.items(), base, vector, ledger)? {
        Some(index) => Ok(Some(index)),
        None => {
            let bounds = bound_count(model.params.items());
            broken_statement(model, bounds, base, vector, ledger)
        }
    }
}
