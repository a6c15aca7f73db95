//! How large the split model is, counted before it is built.

ghost use Rattle.std.specs.Prelude.{◌≡◌, ◌≤◌, length, map};
ghost use Rattle.std.specs.Bool.{Decides};
ghost use Rattle.rob_meaning.specs.Sizes.{adaptive_bounds as count_of_adaptive_bounds, variable_bounds as count_of_variable_bounds};
ghost use Rattle.rob_cells.specs.Counts.{AreCountsOf, AreSmall};
ghost use Rattle.rob_cells.specs.View.{cut_of};
ghost use Rattle.rob_meaning.specs.RobustModel.{RobustModel};
ghost use Rattle.rob_meaning.specs.SetRows.{lift_count};
ghost use Rattle.rob_model.specs.Limits.{IsWithinLimits};
ghost use Rattle.rob_model.specs.Valid.{IsValid};
ghost use Rattle.rob_model.specs.View.{adaptive_of, robust, set_line_of, variable_of};
ghost use Rattle.rob_pieces.specs.SplitModel.{split_model};

use crate::cut::Cut;
use crate::split::cell_count;
use rob_model::bounds::{bound_count, declared};
use rob_model::limits::{
    GREATEST_SIZE, MOST_COLUMNS, MOST_MEMBERS, MOST_PARAMETERS, MOST_ROWS, MOST_SET_LINES,
};
use rob_model::{Adaptive, Model, SetLine, Var, column_count, form_count, set_row_count};
use rob_number::Exact;

/// What is counted of a model.
#[derive(Clone, Copy)]
pub struct Counts {
    /// The joint parameters.
    pub parameters: u64,
    /// The decision columns.
    pub columns: u64,
    pub rows: u64,
    /// Set statements and budgets.
    pub set_lines: u64,
    /// The members of all budgets.
    pub members: u64,
    pub forms: u64,
    /// The rows of the lifted set.
    pub set_rows: u64,
}

/// Whether the split model passes no limit on the size of models. It takes no memory.
pub fn is_split_within<N: Exact>(model: &Model<N>, cuts: &[Cut<N>]) -> bool
    requires valid { IsValid N.value model.now }
    requires three { length cuts.now ≤ 3 }
    ensures test { Decides result (IsWithinLimits
        (split_model (robust N.value model.now) (map (cut_of N.value) cuts.now))) }
{
    split_counts(model, cuts).are_within()
}

impl Counts {
    /// Whether no limit is passed. The cells of at most three cuts are never too many.
    fn are_within(self) -> bool
        requires small { AreSmall self }
        ensures test { (m : RobustModel) → AreCountsOf m self → length m.sets ≤ 8
            → Decides result (IsWithinLimits m) }
    {
        let rows_and_bounds = self.set_rows + 2 * (self.parameters + self.members) + 1;
        self.parameters <= MOST_PARAMETERS
            && self.columns <= MOST_COLUMNS
            && self.rows <= MOST_ROWS
            && self.set_lines <= MOST_SET_LINES
            && self.members <= MOST_MEMBERS
            && self.forms * rows_and_bounds <= GREATEST_SIZE
    }
}

/// The counts of the split model.
fn split_counts<N: Exact>(model: &Model<N>, cuts: &[Cut<N>]) -> Counts
    requires valid { IsValid N.value model.now }
    requires three { length cuts.now ≤ 3 }
    ensures counts { AreCountsOf (split_model (robust N.value model.now)
        (map (cut_of N.value) cuts.now)) result }
    ensures small { AreSmall result }
{
    let cells = cell_count(cuts) as u64;
    let sides = cuts.len() as u64;
    let parameters = model.params.items().len() as u64;
    let variables = model.vars.items().len() as u64;
    let columns = column_count(model) as u64 - variables;
    let parameter_bounds = bound_count(model.params.items()) as u64;
    let variable_bounds = variable_bounds(model.vars.items());
    let adaptive_bounds = adaptive_bounds(model.adaptives.items());
    let members = members(model.set_lines.items());
    let forms = form_count(model) as u64 - variable_bounds;
    let set_rows = set_row_count(model) as u64 - parameter_bounds;
    Counts {
        parameters: (cells + 1) * parameters,
        columns: variables + 1 + cells * columns,
        rows: cells * (1 + model.rows.items().len() as u64 + adaptive_bounds),
        set_lines: cells * (model.set_lines.items().len() as u64 + sides),
        members: cells * members,
        forms: 1 + cells * forms + variable_bounds,
        set_rows: (cells + 1) * parameter_bounds + cells * (set_rows + sides),
    }
}

/// The declared bounds of the variables.
fn variable_bounds<N: Exact>(vars: &[Var<N>]) -> u64
    requires few { length vars.now ≤ 600 }
    ensures count { result ≡ count_of_variable_bounds (map (variable_of N.value) vars.now) }
    ensures few { result ≤ 1200 }
{
    let mut count = 0;
    for var in vars {
        count += (declared(&var.lower) + declared(&var.upper)) as u64;
    }
    count
}

/// The declared bounds of the adaptive variables.
fn adaptive_bounds<N: Exact>(adaptives: &[Adaptive<N>]) -> u64
    requires few { length adaptives.now ≤ 600 }
    ensures count { result ≡ count_of_adaptive_bounds (map (adaptive_of N.value) adaptives.now) }
    ensures few { result ≤ 1200 }
{
    let mut count = 0;
    for adaptive in adaptives {
        count += (declared(&adaptive.lower) + declared(&adaptive.upper)) as u64;
    }
    count
}

/// The members of all budgets.
fn members<N: Exact>(lines: &[SetLine<N>]) -> u64
    requires few { lift_count (map (set_line_of N.value) lines.now) ≤ 64 }
    ensures count { result ≡ lift_count (map (set_line_of N.value) lines.now) }
{
    let mut count = 0;
    for line in lines {
        if let SetLine::Budget { members, .. } = line {
            count += members.items().len() as u64;
        }
    }
    count
}
