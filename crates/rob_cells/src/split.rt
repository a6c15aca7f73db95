//! The split model, built one cell after another.

ghost use Rattle.std.specs.Prelude.{◌≡◌, ◌<◌, ◌≤◌, ◌++◌, [], ◌-◌, IfOk, OnOk, List, length, map};
ghost use Rattle.rob_cells.specs.Building.{split_over, with_cell};
ghost use Rattle.rob_cells.specs.View.{cut_of};
ghost use Rattle.rob_meaning.specs.Places.{tabulate};
ghost use Rattle.rob_model.specs.Valid.{IsValid};
ghost use Rattle.rob_model.specs.View.{robust};
ghost use Rattle.rob_pieces.specs.Cuts.{AreCuts, Cut as PlainCut, cell_count as count_of_cells};
ghost use Rattle.rob_pieces.specs.SplitModel.{split_model};

use crate::cell::numbered;
use crate::copies::{append_copies, append_params, append_params_in};
use crate::cut::Cut;
use crate::lines::append_cell_lines;
use crate::rows::append_cell_rows;
use rob_model::copy::{append_vars, word};
use rob_model::{Expr, Model, Var};
use rob_number::{Exact, List, Memory};
use std::alloc::Global;

/// The split model.
pub fn split<N: Exact>(alloc: Global, model: &Model<N>, cuts: &[Cut<N>]) -> Result<Model<N>, Memory>
    requires valid { IsValid N.value model.now }
    requires three { length cuts.now ≤ 3 }
    requires cuts { AreCuts (robust N.value model.now) (map (cut_of N.value) cuts.now) }
    ensures split { IfOk result (λ other. robust N.value other
        ≡ split_model (robust N.value model.now) (map (cut_of N.value) cuts.now)) }
{
    let mut split = without_cells(alloc, model)?;
    for i in 0..cell_count(cuts) {
        add_cell(alloc, &mut split, model, cuts, i + 1)?;
    }
    Ok(split)
}

/// The number of cells that at most 3 cuts make: 1, 2, 4 or 8.
pub fn cell_count<N: Exact>(cuts: &[Cut<N>]) -> u32
    requires three { length cuts.now ≤ 3 }
    ensures count { result ≡ count_of_cells (map (cut_of N.value) cuts.now) }
    ensures few { result ≤ 8 }
{
    match cuts.len() {
        0 => 1,
        1 => 2,
        2 => 4,
        _ => 8,
    }
}

/// The split model before its first cell.
fn without_cells<N: Exact>(alloc: Global, model: &Model<N>) -> Result<Model<N>, Memory>
    requires valid { IsValid N.value model.now }
    ensures start { (cuts : List PlainCut) → IfOk result (λ other. robust N.value other
        ≡ split_over (robust N.value model.now) cuts []) }
{
    let mut params = List::new(alloc);
    append_params(alloc, &mut params, model.params.items())?;
    let mut vars = List::new(alloc);
    append_vars(alloc, &mut vars, model.vars.items())?;
    vars.push(Var {
        name: word(alloc, b"cells_worst")?,
        lower: None,
        upper: None,
    })?;
    Ok(Model {
        params,
        sets: List::new(alloc),
        set_lines: List::new(alloc),
        line_sets: List::new(alloc),
        vars,
        adaptives: List::new(alloc),
        sense: model.sense,
        objective: Expr::Var(model.vars.items().len() as u32),
        objective_set: 0,
        rows: List::new(alloc),
        row_sets: List::new(alloc),
    })
}

/// Adds cell `c`, from 1: its set with its parameters and statements, its copies of the adaptive variables, and its
/// rows.
fn add_cell<N: Exact>(
    alloc: Global,
    split: &mut Model<N>,
    model: &Model<N>,
    cuts: &[Cut<N>],
    c: u32,
) -> Result<(), Memory>
    requires valid { IsValid N.value model.now }
    requires some { 0 < c }
    requires few { c ≤ 8 }
    requires three { length cuts.now ≤ 3 }
    requires cuts { AreCuts (robust N.value model.now) (map (cut_of N.value) cuts.now) }
    ensures added { OnOk result (robust N.value split.new
        ≡ with_cell (robust N.value model.now) (map (cut_of N.value) cuts.now) c
        (robust N.value split.old)) }
{
    let set = numbered(word(alloc, b"cell")?, c)?;
    append_params_in(alloc, &mut split.params, model.params.items(), &set)?;
    split.sets.push(set)?;
    let lines = split.set_lines.items().len();
    append_cell_lines(alloc, &mut split.set_lines, model, cuts, c)?;
    let count = split.set_lines.items().len() - lines;
    append_number(&mut split.line_sets, c, count)?;
    append_copies(alloc, &mut split.adaptives, model.adaptives.items(), c)?;
    let rows = split.rows.items().len();
    append_cell_rows(alloc, &mut split.rows, model, c)?;
    let count = split.rows.items().len() - rows;
    append_number(&mut split.row_sets, c, count)?;
    Ok(())
}

/// Appends the number so many times.
fn append_number(list: &mut List<u32>, number: u32, count: usize) -> Result<(), Memory>
    ensures appended { OnOk result (list.new ≡ list.old ++ tabulate count (λ _. number)) }
{
    for _ in 0..count {
        list.push(number)?;
    }
    Ok(())
}
