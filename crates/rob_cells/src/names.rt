//! The declared names of the split model, made before it is built.

ghost use Rattle.std.specs.Prelude.{◌≡◌, ◌≤◌, ◌++◌, ℕ, IfOk, OnOk, codes, flat_map, length, map, option_map, suc};
ghost use Rattle.std.specs.Bool.{Decides};
ghost use Rattle.rob_cells.specs.View.{cut_of};
ghost use Rattle.rob_meaning.specs.Named.{AreDistinct, declared_names};
ghost use Rattle.rob_meaning.specs.Places.{Each, tabulate};
ghost use Rattle.rob_meaning.specs.RobustModel.{AdaptiveVariable, RobustModel, Row};
ghost use Rattle.rob_meaning.specs.SetConditions.{if_declared};
ghost use Rattle.rob_model.specs.View.{adaptive_of, robust, row_of};
ghost use Rattle.rob_model.specs.declared.model.Param as parameters;
ghost use Rattle.rob_model.specs.declared.model.Var as variables;
ghost use Rattle.rob_pieces.specs.SplitModel as split;
ghost use Rattle.rob_pieces.specs.SplitNames.{HasGoodNames};

use crate::cell::numbered;
use crate::cut::Cut;
use crate::split::cell_count;
use indexmap::IndexSet;
use rob_model::copy::{copy_text, word};
use rob_model::{Adaptive, Model, Param, RowDef, Var};
use rob_number::{Exact, List, Memory, Text};
use std::alloc::Global;

/// The bytes that a name may have.
const LONGEST_NAME: usize = 32;

/// Whether no two declared names of the split model are equal, and none is over 32 bytes. The one error is want of
/// memory.
pub fn has_good_names<N: Exact>(
    alloc: Global,
    model: &Model<N>,
    cuts: &[Cut<N>],
) -> Result<bool, Memory>
    requires three { length cuts.now ≤ 3 }
    ensures test { IfOk result (λ good. Decides good
        (HasGoodNames (split.split_model (robust N.value model.now)
        (map (cut_of N.value) cuts.now)))) }
{
    let names = split_names(alloc, model, cuts)?;
    let distinct = are_distinct(alloc, names.items())?;
    Ok(distinct && are_short(names.items()))
}

/// The declared names of the split model.
fn split_names<N: Exact>(
    alloc: Global,
    model: &Model<N>,
    cuts: &[Cut<N>],
) -> Result<List<Text>, Memory>
    requires three { length cuts.now ≤ 3 }
    ensures names { IfOk result (λ names. names
        ≡ declared_names
        (split.split_model (robust N.value model.now) (map (cut_of N.value) cuts.now))) }
{
    let cells = cell_count(cuts);
    let mut names = List::new(alloc);
    append_param_names(alloc, &mut names, model.params.items())?;
    append_set_names(alloc, &mut names, cells)?;
    append_row_names(alloc, &mut names, model, cells)?;
    append_var_names(alloc, &mut names, model.vars.items())?;
    names.push(word(alloc, b"cells_worst")?)?;
    append_copy_names(alloc, &mut names, model.adaptives.items(), cells)?;
    Ok(names)
}

/// Appends the parameters' names.
fn append_param_names<N: Exact>(
    alloc: Global,
    names: &mut List<Text>,
    params: &[Param<N>],
) -> Result<(), Memory>
    ensures appended { OnOk result (names.new
        ≡ names.old ++ map (λ (p : parameters.Param N). p.name) params.now) }
{
    for param in params {
        let name = copy_text(alloc, &param.name)?;
        names.push(name)?;
    }
    Ok(())
}

/// Appends the variables' names.
fn append_var_names<N: Exact>(
    alloc: Global,
    names: &mut List<Text>,
    vars: &[Var<N>],
) -> Result<(), Memory>
    ensures appended { OnOk result (names.new
        ≡ names.old ++ map (λ (x : variables.Var N). x.name) vars.now) }
{
    for var in vars {
        let name = copy_text(alloc, &var.name)?;
        names.push(name)?;
    }
    Ok(())
}

/// Appends the names of the cells, so many.
fn append_set_names(alloc: Global, names: &mut List<Text>, cells: u32) -> Result<(), Memory>
    requires few { cells ≤ 8 }
    ensures appended { OnOk result (names.new
        ≡ names.old ++ map (split.numbered (codes "cell")) (tabulate cells suc)) }
{
    for i in 0..cells {
        let name = numbered(word(alloc, b"cell")?, i + 1)?;
        names.push(name)?;
    }
    Ok(())
}

/// Appends the names of the rows of so many cells.
fn append_row_names<N: Exact>(
    alloc: Global,
    names: &mut List<Text>,
    model: &Model<N>,
    cells: u32,
) -> Result<(), Memory>
    requires few { cells ≤ 8 }
    ensures appended { OnOk result (names.new ≡ names.old
        ++ flat_map (λ c. map (λ (r : Row). r.name) (split.cell_rows (robust N.value model.now) c))
        (tabulate cells suc)) }
{
    for i in 0..cells {
        append_cell_row_names(alloc, names, model, i + 1)?;
    }
    Ok(())
}

/// Appends the names of the rows of cell `c`, from 1.
fn append_cell_row_names<N: Exact>(
    alloc: Global,
    names: &mut List<Text>,
    model: &Model<N>,
    c: u32,
) -> Result<(), Memory>
    ensures appended { OnOk result (names.new ≡ names.old
        ++ map (λ (r : Row). r.name) (split.cell_rows (robust N.value model.now) c)) }
{
    let cost = numbered(word(alloc, b"cost")?, c)?;
    names.push(cost)?;
    append_own_row_names(alloc, names, model.rows.items(), c)?;
    append_bound_names(alloc, names, model.adaptives.items(), c)?;
    Ok(())
}

/// Appends the rows' names in cell `c`.
fn append_own_row_names<N: Exact>(
    alloc: Global,
    names: &mut List<Text>,
    rows: &[RowDef<N>],
    c: u32,
) -> Result<(), Memory>
    ensures appended { OnOk result (names.new
        ≡ names.old ++ map (λ (r : Row). split.numbered r.name c) (map (row_of N.value) rows.now)) }
{
    for row in rows {
        let name = numbered(copy_text(alloc, &row.name)?, c)?;
        names.push(name)?;
    }
    Ok(())
}

/// Appends the names of the rows of adaptive variables' bounds in cell `c`.
fn append_bound_names<N: Exact>(
    alloc: Global,
    names: &mut List<Text>,
    adaptives: &[Adaptive<N>],
    c: u32,
) -> Result<(), Memory>
    ensures appended { OnOk result ((m : RobustModel) (k : ℕ) → names.new ≡ names.old
        ++ map (λ (r : Row). r.name)
        (split.bound_rows m c k (map (adaptive_of N.value) adaptives.now))) }
{
    for adaptive in adaptives {
        append_bound_name(alloc, names, &adaptive.name, b"_lower", c, adaptive.lower)?;
        append_bound_name(alloc, names, &adaptive.name, b"_upper", c, adaptive.upper)?;
    }
    Ok(())
}

/// Appends the name of the row of a declared bound, where there is one.
fn append_bound_name<N: Exact>(
    alloc: Global,
    names: &mut List<Text>,
    name: &Text,
    end: &[u8],
    c: u32,
    bound: Option<N>,
) -> Result<(), Memory>
    ensures appended { OnOk result (names.new ≡ names.old
        ++ if_declared (λ _. split.numbered (name.now ++ end.now) c) (option_map N.value bound)) }
{
    if bound.is_some() {
        let mut text = copy_text(alloc, name)?;
        text.push(end)?;
        let name = numbered(text, c)?;
        names.push(name)?;
    }
    Ok(())
}

/// Appends the names of the copies of the adaptive variables in so many cells.
fn append_copy_names<N: Exact>(
    alloc: Global,
    names: &mut List<Text>,
    adaptives: &[Adaptive<N>],
    cells: u32,
) -> Result<(), Memory>
    requires few { cells ≤ 8 }
    ensures appended { OnOk result (names.new ≡ names.old
        ++ flat_map (λ c. map (λ (y : AdaptiveVariable). split.numbered y.name c)
        (map (adaptive_of N.value) adaptives.now)) (tabulate cells suc)) }
{
    for i in 0..cells {
        append_cell_copy_names(alloc, names, adaptives, i + 1)?;
    }
    Ok(())
}

/// Appends the names of the copies in cell `c`.
fn append_cell_copy_names<N: Exact>(
    alloc: Global,
    names: &mut List<Text>,
    adaptives: &[Adaptive<N>],
    c: u32,
) -> Result<(), Memory>
    ensures appended { OnOk result (names.new ≡ names.old
        ++ map (λ (y : AdaptiveVariable). split.numbered y.name c)
        (map (adaptive_of N.value) adaptives.now)) }
{
    for adaptive in adaptives {
        let name = numbered(copy_text(alloc, &adaptive.name)?, c)?;
        names.push(name)?;
    }
    Ok(())
}

/// Whether no name is over 32 bytes.
fn are_short(names: &[Text]) -> bool
    ensures test { Decides result (Each (λ name. length name ≤ 32) names.now) }
{
    for name in names {
        if name.bytes().len() > LONGEST_NAME {
            return false;
        }
    }
    true
}

/// Whether no name stands there twice.
fn are_distinct(alloc: Global, names: &[Text]) -> Result<bool, Memory>
    ensures test { IfOk result (λ distinct. Decides distinct (AreDistinct names.now)) }
{
    let mut seen: IndexSet<Vec<u8>> = IndexSet::new(alloc);
    for name in names {
        let key = Vec::from_slice(alloc, name.bytes())?;
        if !seen.insert(key)? {
            return Ok(false);
        }
    }
    Ok(true)
}
