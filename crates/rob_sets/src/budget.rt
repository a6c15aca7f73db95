//! The set rows of budgets of uncertainty: two for each member, and one for the sum.

ghost use Rattle.std.specs.Prelude.{◌≡◌, ◌<◌, ◌+◌, ◌*◌, ◌++◌, ◌∷◌, [], List, map, length, if◌then◌else◌, IfOk};
ghost use Rattle.rob_number.specs.Counts.{NeverFell};
ghost use Rattle.rob_meaning.specs.RobustModel.{Member as MemberOf};
ghost use Rattle.rob_meaning.specs.SetRows.{budget_row, down_row, member_rows, up_row};
ghost use Rattle.rob_meaning.specs.Places.{Each};
ghost use Rattle.rob_meaning.specs.WellFormed.{IsMember};
ghost use Rattle.rob_model.specs.Valid.{IsValid};
ghost use Rattle.rob_model.specs.View.{robust, member_of};
ghost use Rattle.rob_sets.specs.Appending.{Appends, row_of};
ghost use Rattle.rob_sets.specs.SetForm.{judged_rows};
ghost use Rattle.rob_sets.specs.Tables.{numbers_of};

use crate::error::ElabErr;
use crate::row::append_row;
use crate::set_form::SetRow;
use crate::table::{Cell, Table, signed};
use rob_model::numbers::one;
use rob_model::{Member, Model};
use rob_number::{Exact, Ledger, List, Memory};
use std::alloc::Global;

/// A side of a budget's member, whose column `t` has number `lift`: upward, `d - h t - c` is at most 0, else
/// `-d - h t + c`.
#[derive(Clone, Copy)]
struct Side<'a, N> {
    lift: u32,
    member: &'a Member<N>,
    up: bool,
}

/// The side as a table that is at most 0.
fn member_table<N: Exact, L: Ledger>(
    alloc: Global,
    side: Side<N>,
    ledger: &mut L,
) -> Result<Table<N>, Memory>
    requires few { side.member.now.param < 1000 }
    requires few_lifts { side.lift < 1000 }
    ensures row { IfOk result (λ t. row_of (numbers_of N.value t)
        ≡ (if side.entry.up then up_row side.entry.lift (member_of N.value side.entry.member.now)
        else down_row side.entry.lift (member_of N.value side.entry.member.now))) }
    ensures counted { NeverFell L.ops L.wides ledger.old ledger.new }
{
    let Side { lift, member, up } = side;
    let mut table = Table::new(alloc);
    let unit: N = one(ledger);
    table.put(
        Cell {
            row: member.param + 1,
            column: 0,
        },
        signed(!up, unit),
    )?;
    table.put(
        Cell {
            row: 0,
            column: lift + 1,
        },
        member.deviation.neg(),
    )?;
    table.put(Cell { row: 0, column: 0 }, signed(up, member.centre))?;
    Ok(table)
}

/// A budget's sum, as a table that is at most 0: the sum of the columns `t` of its members, the first of which has
/// number `lift`, less its limit.
fn budget_table<N: Exact, L: Ledger>(
    alloc: Global,
    lift: u32,
    limit: N,
    members: u32,
    ledger: &mut L,
) -> Result<Table<N>, Memory>
    requires few { lift + members < 1000 }
    ensures row { IfOk result (λ t. (hs : List MemberOf) → length hs ≡ members
        → row_of (numbers_of N.value t) ≡ budget_row lift (N.value limit) hs) }
    ensures counted { NeverFell L.ops L.wides ledger.old ledger.new }
{
    let mut table = Table::new(alloc);
    let unit: N = one(ledger);
    for i in 0..members {
        table.put(
            Cell {
                row: 0,
                column: lift + i + 1,
            },
            unit,
        )?;
    }
    table.put(Cell { row: 0, column: 0 }, limit.neg())?;
    Ok(table)
}

/// Clears and appends the row of one side of a member.
fn append_member<N: Exact, L: Ledger>(
    alloc: Global,
    model: &Model<N>,
    side: Side<N>,
    rows: &mut List<SetRow>,
    ledger: &mut L,
) -> Result<(), ElabErr>
    requires valid { IsValid N.value model.now }
    requires few { length rows.old < 1000 }
    requires few_parameters { side.member.now.param < 1000 }
    requires few_lifts { side.lift < 1000 }
    ensures row { Appends N.limit (robust N.value model.now)
        ((if side.entry.up then up_row side.entry.lift (member_of N.value side.entry.member.now)
        else down_row side.entry.lift (member_of N.value side.entry.member.now)) ∷ [])
        (judged_rows (robust N.value model.now) (length rows.old)
        ((if side.entry.up then up_row side.entry.lift (member_of N.value side.entry.member.now)
        else down_row side.entry.lift (member_of N.value side.entry.member.now))
        ∷ []))
        rows.old rows.new (L.wides ledger.old) (L.wides ledger.new) result }
    ensures counted { NeverFell L.ops L.wides ledger.old ledger.new }
{
    let table = member_table(alloc, side, ledger)?;
    append_row(alloc, model, &table, rows, ledger)
}

/// A budget, where the column `t` of its first member has number `lift`.
#[derive(Clone, Copy)]
pub struct Budget<'a, N> {
    pub lift: u32,
    pub limit: N,
    pub members: &'a [Member<N>],
}

/// Clears and appends the rows of a budget.
pub fn append_budget<N: Exact, L: Ledger>(
    alloc: Global,
    model: &Model<N>,
    budget: Budget<N>,
    rows: &mut List<SetRow>,
    ledger: &mut L,
) -> Result<(), ElabErr>
    requires valid { IsValid N.value model.now }
    requires members { Each (IsMember (robust N.value model.now))
        (map (member_of N.value) budget.members.now) }
    requires few { length rows.old + (2 * length budget.members.now + 1) < 1000 }
    requires few_lifts { budget.lift + length budget.members.now < 1000 }
    ensures rows { Appends N.limit (robust N.value model.now)
        (member_rows budget.entry.lift (map (member_of N.value) budget.entry.members.now)
        ++ budget_row budget.entry.lift (N.value budget.entry.limit)
        (map (member_of N.value) budget.entry.members.now) ∷ [])
        (judged_rows (robust N.value model.now) (length rows.old)
        (member_rows budget.entry.lift (map (member_of N.value) budget.entry.members.now)
        ++ budget_row budget.entry.lift (N.value budget.entry.limit)
        (map (member_of N.value) budget.entry.members.now) ∷ []))
        rows.old rows.new (L.wides ledger.old) (L.wides ledger.new) result }
    ensures counted { NeverFell L.ops L.wides ledger.old ledger.new }
{
    let Budget {
        lift,
        limit,
        members,
    } = budget;
    let mut column = lift;
    for member in members {
        let upward = Side {
            lift: column,
            member,
            up: true,
        };
        append_member(alloc, model, upward, rows, ledger)?;
        let downward = Side {
            lift: column,
            member,
            up: false,
        };
        append_member(alloc, model, downward, rows, ledger)?;
        column += 1;
    }
    let table = budget_table(alloc, lift, limit, members.len() as u32, ledger)?;
    append_row(alloc, model, &table, rows, ledger)
}
