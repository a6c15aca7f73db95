//! The declared bounds of parameters as set conditions.

ghost use Rattle.std.specs.Prelude.{◌≡◌, ◌≤◌, ◌*◌, length, map, option_map, option_to_list};
ghost use Rattle.std.specs.Result.{result_ok};
ghost use Rattle.rob_number.specs.Counts.{CountsTold};
ghost use Rattle.rob_model.specs.GroupNames.{parameter_bound_names};
ghost use Rattle.rob_meaning.specs.RobustModel.{RobustModel};
ghost use Rattle.rob_meaning.specs.SetConditions.{lower_bound, upper_bound, bounds_from};
ghost use Rattle.rob_model.specs.Limits.{most_parameters};
ghost use Rattle.rob_model.specs.View.{parameter_of};
ghost use Rattle.rob_model.specs.Within.{declared_within, first_within};

use crate::model::Param;
use crate::numbers::{at_most, number_at};
use rob_number::{Exact, Ledger, Wide};

/// The number of the first declared bound of a parameter that fails, each bound being taken `base` times.
pub fn broken_bound<N: Exact, L: Ledger>(
    params: &[Param<N>],
    base: N,
    vector: &[N],
    ledger: &mut L,
) -> Result<Option<u32>, Wide>
    requires few { length params.now ≤ most_parameters }
    ensures exact { (m : RobustModel) → result_ok result
        ≡ first_within N.limit m (N.value base) (map N.value vector.now)
        (bounds_from 0 (map (parameter_of N.value) params.now)) 0 }
    ensures counted { CountsTold L.ops L.wides ledger.old ledger.new result }
{
    let mut index = 0u32;
    for (k, param) in params.iter().enumerate() {
        if !keeps_lower(k, &param.lower, base, vector, ledger)? {
            return Ok(Some(index));
        }
        index += declared(&param.lower);
        if !keeps_upper(k, &param.upper, base, vector, ledger)? {
            return Ok(Some(index));
        }
        index += declared(&param.upper);
    }
    Ok(None)
}

/// The number of declared bounds of parameters.
pub fn bound_count<N: Exact>(params: &[Param<N>]) -> u32
    requires few { length params.now ≤ most_parameters }
    ensures count { result ≡ length
        (parameter_bound_names (map (parameter_of N.value) params.now)) }
    ensures small { result ≤ 2 * length params.now }
{
    let mut count = 0u32;
    for param in params {
        count += declared(&param.lower) + declared(&param.upper);
    }
    count
}

/// 1 for a bound that is declared, else 0.
pub fn declared<N>(bound: &Option<N>) -> u32
    ensures count { result ≡ length (option_to_list bound.now) }
{
    match bound {
        Some(_) => 1,
        None => 0,
    }
}

/// Whether the vector keeps a declared lower bound of parameter `k`.
pub fn keeps_lower<N: Exact, L: Ledger>(
    k: usize,
    bound: &Option<N>,
    base: N,
    vector: &[N],
    ledger: &mut L,
) -> Result<bool, Wide>
    ensures exact { (m : RobustModel) → result_ok result
        ≡ declared_within N.limit m (N.value base) (map N.value vector.now)
        (lower_bound k) (option_map N.value bound.now) }
    ensures counted { CountsTold L.ops L.wides ledger.old ledger.new result }
{
    match bound {
        Some(lower) => {
            let scaled = base.mul(*lower, ledger)?;
            Ok(at_most(scaled, number_at(vector, k, ledger)))
        }
        None => Ok(true),
    }
}

/// Whether the vector keeps a declared upper bound of parameter `k`.
pub fn keeps_upper<N: Exact, L: Ledger>(
    k: usize,
    bound: &Option<N>,
    base: N,
    vector: &[N],
    ledger: &mut L,
) -> Result<bool, Wide>
    ensures exact { (m : RobustModel) → result_ok result
        ≡ declared_within N.limit m (N.value base) (map N.value vector.now)
        (upper_bound k) (option_map N.value bound.now) }
    ensures counted { CountsTold L.ops L.wides ledger.old ledger.new result }
{
    match bound {
        Some(upper) => {
            let scaled = base.mul(*upper, ledger)?;
            Ok(at_most(number_at(vector, k, ledger), scaled))
        }
        None => Ok(true),
    }
}
