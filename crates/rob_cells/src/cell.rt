//! The numbers of parameters and adaptive variables in a cell, and names with a cell's number behind them.

ghost use Rattle.std.specs.Prelude.{◌≡◌, ◌<◌, ◌≤◌, IfOk, length};
ghost use Rattle.rob_model.specs.Valid.{IsValid};
ghost use Rattle.rob_model.specs.View.{robust};
ghost use Rattle.rob_pieces.specs.SplitModel as split;

use itoa::Buffer;
use rob_model::Model;
use rob_number::{Exact, Memory, Text};

/// The number that written parameter `k`, from 0, has in cell `c`, from 1.
pub fn param_in<N: Exact>(model: &Model<N>, c: u32, k: u32) -> u32
    requires valid { IsValid N.value model.now }
    requires few { c ≤ 8 }
    requires inside { k < length model.now.params }
    ensures number { result ≡ split.parameter_in (robust N.value model.now) c k }
{
    c * model.params.items().len() as u32 + k
}

/// The number of cell `c`'s own copy of adaptive variable `y`. Cells count from 1, adaptive variables from 0.
pub fn rule_in<N: Exact>(model: &Model<N>, c: u32, y: u32) -> u32
    requires valid { IsValid N.value model.now }
    requires some { 0 < c }
    requires few { c ≤ 8 }
    requires inside { y < length model.now.adaptives }
    ensures number { result ≡ split.rule_in (robust N.value model.now) c y }
{
    (c - 1) * model.adaptives.items().len() as u32 + y
}

/// The name with a cell's number behind it: `NAME_c`.
pub fn numbered(name: Text, c: u32) -> Result<Text, Memory>
    ensures numbered { IfOk result (λ numbered. numbered ≡ split.numbered name c) }
{
    let mut numbered = name;
    let mut buffer = Buffer::new();
    numbered.push(b"_")?;
    numbered.push(buffer.format(c).as_bytes())?;
    Ok(numbered)
}
