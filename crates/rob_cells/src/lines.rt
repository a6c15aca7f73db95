//! The set statements over a cell.

ghost use Rattle.std.specs.Prelude.{◌≡◌, ◌<◌, ◌≤◌, ◌++◌, IfOk, OnOk, length, map};
ghost use Rattle.rob_cells.specs.View.{cut_of};
ghost use Rattle.rob_meaning.specs.Places.{Each};
ghost use Rattle.rob_meaning.specs.WellFormed.{IsMember, IsSetLine};
ghost use Rattle.rob_model.specs.Valid.{IsValid};
ghost use Rattle.rob_model.specs.View.{member_of, robust, set_line_of};
ghost use Rattle.rob_pieces.specs.Cuts.{AreCuts, bit as bit_of};
ghost use Rattle.rob_pieces.specs.SplitModel as split;

use crate::cell::param_in;
use crate::cut::Cut;
use crate::expression::{expr_over, side};
use rob_model::{Expr, Member, Model, Rel, SetLine};
use rob_number::{Exact, List, Memory};
use std::alloc::Global;

/// Appends the set statements over cell `c`, from 1: the model's, and then the cell's sides of the cuts.
pub fn append_cell_lines<N: Exact>(
    alloc: Global,
    list: &mut List<SetLine<N>>,
    model: &Model<N>,
    cuts: &[Cut<N>],
    c: u32,
) -> Result<(), Memory>
    requires valid { IsValid N.value model.now }
    requires some { 0 < c }
    requires few { c ≤ 8 }
    requires three { length cuts.now ≤ 3 }
    requires cuts { AreCuts (robust N.value model.now) (map (cut_of N.value) cuts.now) }
    ensures appended { OnOk result (map (set_line_of N.value) list.new
        ≡ map (set_line_of N.value) list.old
        ++ split.cell_lines (robust N.value model.now) c (map (cut_of N.value) cuts.now)) }
{
    append_lines(alloc, list, model, c)?;
    append_sides(alloc, list, model, cuts, c)
}

/// Appends the model's set statements, over the cell.
fn append_lines<N: Exact>(
    alloc: Global,
    list: &mut List<SetLine<N>>,
    model: &Model<N>,
    c: u32,
) -> Result<(), Memory>
    requires valid { IsValid N.value model.now }
    requires some { 0 < c }
    requires few { c ≤ 8 }
    ensures appended { OnOk result (map (set_line_of N.value) list.new
        ≡ map (set_line_of N.value) list.old
        ++ map (split.line_over (robust N.value model.now) c)
        (map (set_line_of N.value) model.now.set_lines)) }
{
    for line in model.set_lines.items() {
        let next = line_over(alloc, model, c, line)?;
        list.push(next)?;
    }
    Ok(())
}

/// A set statement over the cell.
fn line_over<N: Exact>(
    alloc: Global,
    model: &Model<N>,
    c: u32,
    line: &SetLine<N>,
) -> Result<SetLine<N>, Memory>
    requires valid { IsValid N.value model.now }
    requires some { 0 < c }
    requires few { c ≤ 8 }
    requires inside { IsSetLine (robust N.value model.now) (set_line_of N.value line.now) }
    ensures over { IfOk result (λ over. set_line_of N.value over
        ≡ split.line_over (robust N.value model.now) c (set_line_of N.value line.now)) }
{
    match line {
        SetLine::Line { left, rel, right } => Ok(SetLine::Line {
            left: expr_over(alloc, model, c, left)?,
            rel: *rel,
            right: expr_over(alloc, model, c, right)?,
        }),
        SetLine::Budget { limit, members } => Ok(SetLine::Budget {
            limit: *limit,
            members: members_over(alloc, model, c, members.items())?,
        }),
    }
}

/// A budget's members over the cell.
fn members_over<N: Exact>(
    alloc: Global,
    model: &Model<N>,
    c: u32,
    members: &[Member<N>],
) -> Result<List<Member<N>>, Memory>
    requires valid { IsValid N.value model.now }
    requires few { c ≤ 8 }
    requires inside { Each (IsMember (robust N.value model.now))
        (map (member_of N.value) members.now) }
    ensures over { IfOk result (λ over. map (member_of N.value) over
        ≡ map (split.member_over (robust N.value model.now) c)
        (map (member_of N.value) members.now)) }
{
    let mut over = List::new(alloc);
    for member in members {
        over.push(Member {
            param: param_in(model, c, member.param),
            centre: member.centre,
            deviation: member.deviation,
        })?;
    }
    Ok(over)
}

/// Appends the cell's sides of the cuts.
fn append_sides<N: Exact>(
    alloc: Global,
    list: &mut List<SetLine<N>>,
    model: &Model<N>,
    cuts: &[Cut<N>],
    c: u32,
) -> Result<(), Memory>
    requires valid { IsValid N.value model.now }
    requires some { 0 < c }
    requires few { c ≤ 8 }
    requires three { length cuts.now ≤ 3 }
    requires cuts { AreCuts (robust N.value model.now) (map (cut_of N.value) cuts.now) }
    ensures appended { OnOk result (map (set_line_of N.value) list.new
        ≡ map (set_line_of N.value) list.old
        ++ split.side_lines (robust N.value model.now) c (map (cut_of N.value) cuts.now)) }
{
    for (j, cut) in cuts.iter().enumerate() {
        let bit = bit(cuts.len() - 1 - j, c - 1);
        let next = side_line(alloc, model, *cut, bit, c)?;
        list.push(next)?;
    }
    Ok(())
}

/// Bit `k` of a number, bit 0 being the lowest.
fn bit(k: usize, n: u32) -> u32
    requires few { k < 32 }
    ensures bit { result ≡ bit_of k n }
{
    (n >> k) % 2
}

/// The side of a cut: `d <= g` where the bit is 0, and `d >= g` otherwise.
fn side_line<N: Exact>(
    alloc: Global,
    model: &Model<N>,
    cut: Cut<N>,
    bit: u32,
    c: u32,
) -> Result<SetLine<N>, Memory>
    requires valid { IsValid N.value model.now }
    requires few { c ≤ 8 }
    requires inside { cut.param < length model.now.params }
    ensures side { IfOk result (λ line. set_line_of N.value line
        ≡ split.side_line (robust N.value model.now) c (cut_of N.value cut) bit) }
{
    Ok(SetLine::Line {
        left: Expr::Param(param_in(model, c, cut.param)),
        rel: if bit == 0 { Rel::AtMost } else { Rel::AtLeast },
        right: side(alloc, cut.at)?,
    })
}
