//! The written parameters of a model: those of the default set.

ghost use Rattle.std.specs.Prelude.{◌≡◌, ◌%◌, map};
ghost use Rattle.rob_meaning.specs.RobustModel.{written_count, written_parameters};
ghost use Rattle.rob_model.specs.View.{robust, parameter_of};

use rob_model::{Model, Param, written_count};
use rob_number::Exact;

/// The number of the written parameter that a joint parameter is in its set.
pub fn written_number<N: Exact>(model: &Model<N>, k: u32) -> u32
    ensures number { result ≡ k % written_count (robust N.value model.now) }
{
    let count = written_count(model);
    if count == 0 {
        k
    } else {
        (k as usize % count) as u32
    }
}

/// The written parameters.
pub fn written_params<N: Exact>(model: &Model<N>) -> &[Param<N>]
    ensures list { map (parameter_of N.value) result.now
        ≡ written_parameters (robust N.value model.now) }
{
    let params = model.params.items();
    let count = written_count(model);
    if count < params.len() {
        &params[..count]
    } else {
        params
    }
}
