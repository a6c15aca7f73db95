//! The parameters of a cell, and its copies of the adaptive variables.

ghost use Rattle.std.specs.Prelude.{◌≡◌, ◌++◌, IfOk, OnOk, map};
ghost use Rattle.rob_meaning.specs.RobustModel.{RobustModel, in_set};
ghost use Rattle.rob_model.specs.View.{adaptive_of, parameter_of};
ghost use Rattle.rob_pieces.specs.SplitModel as split;

use crate::cell::numbered;
use rob_model::copy::{copy_list, copy_text};
use rob_model::{Adaptive, Param};
use rob_number::{Exact, List, Memory, Text};
use std::alloc::Global;

/// Appends the same parameters.
pub fn append_params<N: Exact>(
    alloc: Global,
    list: &mut List<Param<N>>,
    params: &[Param<N>],
) -> Result<(), Memory>
    ensures appended { OnOk result (list.new ≡ list.old ++ params.now) }
{
    for param in params {
        let next = Param {
            name: copy_text(alloc, &param.name)?,
            lower: param.lower,
            upper: param.upper,
        };
        list.push(next)?;
    }
    Ok(())
}

/// Appends the parameters as a set of that name has them, as `S.d`.
pub fn append_params_in<N: Exact>(
    alloc: Global,
    list: &mut List<Param<N>>,
    params: &[Param<N>],
    set: &Text,
) -> Result<(), Memory>
    ensures appended { OnOk result (map (parameter_of N.value) list.new
        ≡ map (parameter_of N.value) list.old
        ++ map (in_set set.now) (map (parameter_of N.value) params.now)) }
{
    for param in params {
        let next = param_in_set(alloc, param, set)?;
        list.push(next)?;
    }
    Ok(())
}

/// The parameter as a set of that name has it.
fn param_in_set<N: Exact>(alloc: Global, param: &Param<N>, set: &Text) -> Result<Param<N>, Memory>
    ensures of_set { IfOk result (λ joint. parameter_of N.value joint
        ≡ in_set set.now (parameter_of N.value param.now)) }
{
    let mut name = copy_text(alloc, set)?;
    name.push(b".")?;
    name.push(param.name.bytes())?;
    Ok(Param {
        name,
        lower: param.lower,
        upper: param.upper,
    })
}

/// Appends a cell's own copies of the adaptive variables, `y_c`, without bounds.
pub fn append_copies<N: Exact>(
    alloc: Global,
    list: &mut List<Adaptive<N>>,
    adaptives: &[Adaptive<N>],
    c: u32,
) -> Result<(), Memory>
    ensures appended { (m : RobustModel) → OnOk result (map (adaptive_of N.value) list.new
        ≡ map (adaptive_of N.value) list.old
        ++ map (split.copy_in m c) (map (adaptive_of N.value) adaptives.now)) }
{
    for adaptive in adaptives {
        let next = copy_in(alloc, adaptive, c)?;
        list.push(next)?;
    }
    Ok(())
}

/// A cell's own copy of an adaptive variable.
fn copy_in<N: Exact>(alloc: Global, adaptive: &Adaptive<N>, c: u32) -> Result<Adaptive<N>, Memory>
    ensures copied { (m : RobustModel) → IfOk result (λ copy. adaptive_of N.value copy
        ≡ split.copy_in m c (adaptive_of N.value adaptive.now)) }
{
    Ok(Adaptive {
        name: numbered(copy_text(alloc, &adaptive.name)?, c)?,
        on: copy_list(alloc, adaptive.on.items())?,
        lower: None,
        upper: None,
    })
}
