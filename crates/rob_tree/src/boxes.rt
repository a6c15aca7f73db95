//! Boxes: models with a bound replaced.

ghost use Rattle.std.specs.Prelude.{◌≡◌, ◌≤◌, ◌<◌, T, length, map, nat_abs, option_map, IfOk};
ghost use Rattle.rob_model.specs.Valid.{IsValid};
ghost use Rattle.rob_model.specs.View.{robust, variable_of};
ghost use Rattle.rob_reach.specs.Boxes as boxes;
ghost use Rattle.rob_reach.specs.Ranges.{is_bounded};
ghost use Rattle.rob_tree.specs.View.{branch_of};

use crate::tree::Branch;
use crate::whole_number::whole_number;
use rob_model::copy::{append_vars, copy_model, copy_text};
use rob_model::numbers::at_most;
use rob_model::{Model, Var};
use rob_number::{Exact, List, Memory};
use std::alloc::Global;

/// The box behind a branch: the model whose variable has as its upper bound the lesser of its own and the branch's, or
/// as its lower bound the greater of the two. Columns count from 0, and the variable has both bounds. The one error is
/// want of memory.
pub fn behind<N: Exact>(alloc: Global, model: &Model<N>, branch: Branch) -> Result<Model<N>, Memory>
    requires valid { IsValid N.value model.now }
    requires bounded { T (is_bounded (robust N.value model.now).variables branch.column) }
    requires within { nat_abs branch.k ≤ N.limit }
    ensures tightened { IfOk result (λ boxed. robust N.value boxed
        ≡ boxes.behind (robust N.value model.now) (branch_of branch)) }
    ensures valid { IfOk result (λ boxed. IsValid N.value boxed) }
{
    let mut copy = copy_model(alloc, model)?;
    copy.vars = changed(alloc, model.vars.items(), branch)?;
    Ok(copy)
}

/// The variables, that of the branch with its bound.
fn changed<N: Exact>(alloc: Global, vars: &[Var<N>], branch: Branch) -> Result<List<Var<N>>, Memory>
    requires inside { branch.column < length vars.now }
    requires within { nat_abs branch.k ≤ N.limit }
    ensures changed { IfOk result (λ list. map (variable_of N.value) list
        ≡ boxes.change_at (boxes.tightened branch.at_most branch.k) branch.column
        (map (variable_of N.value) vars.now)) }
{
    let column = branch.column as usize;
    let mut list = List::new(alloc);
    append_vars(alloc, &mut list, &vars[..column])?;
    list.push(tightened(alloc, &vars[column], branch)?)?;
    append_vars(alloc, &mut list, &vars[column + 1..])?;
    Ok(list)
}

/// The variable with the branch's bound.
fn tightened<N: Exact>(alloc: Global, var: &Var<N>, branch: Branch) -> Result<Var<N>, Memory>
    requires within { nat_abs branch.k ≤ N.limit }
    ensures tightened { IfOk result (λ x. variable_of N.value x
        ≡ boxes.tightened branch.at_most branch.k (variable_of N.value var.now)) }
{
    let bound = whole_number(branch.k);
    let name = copy_text(alloc, &var.name)?;
    if branch.at_most {
        Ok(Var {
            name,
            lower: var.lower,
            upper: Some(lesser(var.upper, bound)),
        })
    } else {
        Ok(Var {
            name,
            lower: Some(greater(var.lower, bound)),
            upper: var.upper,
        })
    }
}

/// The lesser of a declared bound and a number.
fn lesser<N: Exact>(declared: Option<N>, number: N) -> N
    ensures lesser { N.value result ≡ boxes.lesser (option_map N.value declared) (N.value number) }
{
    match declared {
        None => number,
        Some(bound) => if at_most(bound, number) {
            bound
        } else {
            number
        },
    }
}

/// The greater of a declared bound and a number.
fn greater<N: Exact>(declared: Option<N>, number: N) -> N
    ensures greater { N.value result
        ≡ boxes.greater (option_map N.value declared) (N.value number) }
{
    match declared {
        None => number,
        Some(bound) => if at_most(number, bound) {
            bound
        } else {
            number
        },
    }
}
