//! How large a model is.

ghost use Rattle.std.specs.Prelude.{◌≡◌};
ghost use Rattle.rob_rules.specs.Sizes.{start_sizes, IsSmall};
ghost use Rattle.rob_rules.specs.Sizes as spec;

use rob_model::limits::{
    GREATEST_SIZE, MOST_COLUMNS, MOST_MEMBERS, MOST_PARAMETERS, MOST_ROWS, MOST_SET_LINES,
    MOST_SETS,
};
use rob_syntax::syntax::{Bounds, Rel, Statement};

/// What is counted of a model.
#[derive(Clone, Copy)]
pub struct Sizes {
    /// The written parameters.
    pub parameters: u64,
    /// The bounds of parameters, as they are written: each set has them.
    pub bounds: u64,
    /// The named sets.
    pub sets: u64,
    pub variables: u64,
    pub adaptives: u64,
    /// One for each variable, one for each adaptive variable and one for each parameter of its list.
    pub columns: u64,
    pub rows: u64,
    /// Set statements and budgets.
    pub set_lines: u64,
    /// The members of all budgets.
    pub members: u64,
    /// One for the objective, one for each inequality of a row and one for each bound of a variable.
    pub forms: u64,
    /// One for each inequality of a set statement, two for each member and one for each budget.
    pub set_rows: u64,
}

impl Sizes {
    /// The sizes in front of the first line: the objective is counted.
    pub fn start() -> Sizes
        ensures sizes { result ≡ start_sizes }
    {
        Sizes {
            parameters: 0,
            bounds: 0,
            sets: 0,
            variables: 0,
            adaptives: 0,
            columns: 0,
            rows: 0,
            set_lines: 0,
            members: 0,
            forms: 1,
            set_rows: 0,
        }
    }

    /// The sizes behind one more statement.
    pub fn counted(self, statement: &Statement) -> Sizes
        requires small { IsSmall self }
        ensures sizes { result ≡ spec.counted self statement.now }
    {
        let mut next = self;
        match statement {
            Statement::Uncertain(parameter) => {
                next.parameters += 1;
                next.bounds += bound_count(parameter.bounds);
            }
            Statement::Over(_) => next.sets += 1,
            Statement::Var(variable) => {
                next.variables += 1;
                next.columns += 1;
                next.forms += bound_count(variable.bounds);
            }
            Statement::Adaptive(policy) => {
                next.adaptives += 1;
                next.columns += 1 + policy.on.items().len() as u64;
                next.forms += bound_count(policy.bounds);
            }
            Statement::Set(relation) => {
                next.set_lines += 1;
                next.set_rows += rel_count(relation.rel);
            }
            Statement::Budget(budget) => {
                let members = budget.members.items().len() as u64;
                next.set_lines += 1;
                next.members += members;
                next.set_rows += 1 + 2 * members;
            }
            Statement::Row(row) => {
                next.rows += 1;
                next.forms += rel_count(row.relation.rel);
            }
            Statement::Goal(_) => {}
        }
        next
    }

    /// Whether no limit is passed.
    pub fn is_within(self) -> bool
        ensures within { result ≡ spec.is_within self }
    {
        if self.sets > MOST_SETS {
            return false;
        }
        let sets = self.sets as u128 + 1;
        let joint = self.parameters as u128 * sets;
        let set_rows = self.bounds as u128 * sets + self.set_rows as u128;
        let rows = set_rows + 2 * (joint + self.members as u128);
        joint <= MOST_PARAMETERS as u128
            && self.columns <= MOST_COLUMNS
            && self.rows <= MOST_ROWS
            && self.set_lines <= MOST_SET_LINES
            && self.members <= MOST_MEMBERS
            && (self.forms as u128).saturating_mul(rows + 1) <= GREATEST_SIZE as u128
    }
}

/// How many bounds there are.
fn bound_count(bounds: Option<Bounds>) -> u64
    ensures count { result ≡ spec.bound_count bounds }
{
    match bounds {
        None => 0,
        Some(Bounds::Between(_)) => 2,
        Some(Bounds::AtLeast(_) | Bounds::AtMost(_)) => 1,
    }
}

/// How many inequalities a relation is.
fn rel_count(rel: Rel) -> u64
    ensures count { result ≡ spec.rel_count rel }
{
    match rel {
        Rel::AtMost | Rel::AtLeast => 1,
        Rel::Equal => 2,
    }
}
