//! What the statements in front of a line, or of a statement, say.

ghost use Rattle.std.specs.Prelude.{◌≡◌, IfOk};
ghost use Rattle.rob_rules.specs.Scopes.{earlier_of};
ghost use Rattle.rob_rules.specs.Scopes as spec;
ghost use Rattle.rob_rules.specs.Sizes.{IsSmall};

use crate::size::Sizes;
use crate::sort::Sort;
use rob_number::Memory;
use rob_syntax::syntax::Statement;
use std::alloc::Global;

/// What is known in front of a line, or of a statement.
pub struct Scope {
    /// What each word stands for, by its number; nothing where it isn't declared yet.
    pub sorts: Vec<Option<Sort>>,
    pub sizes: Sizes,
    /// Whether a goal stands there.
    pub goal: bool,
}

impl Drop for Scope {
    /// Lets go of it in one call. A derived drop would stand in each function that does.
    fn drop(self) {
        let Scope {
            sorts: _sorts,
            sizes: _sizes,
            goal: _goal,
        } = self;
    }
}

impl Scope {
    /// What is known in front of the first line, of a text with so many words.
    pub fn start(alloc: Global, words: usize) -> Result<Scope, Memory>
        ensures start { IfOk result (λ s. earlier_of s ≡ spec.start words) }
    {
        let sorts = vec![in alloc; None; words]?;
        Ok(Scope {
            sorts,
            sizes: Sizes::start(),
            goal: false,
        })
    }

    /// Takes one more statement into account.
    pub fn note(&mut self, statement: &Statement)
        requires small { IsSmall self.old.sizes }
        ensures noted { earlier_of self.new ≡ spec.behind (earlier_of self.old) statement.now }
    {
        declare(&mut self.sorts, declared_by(self.sizes, statement));
        self.sizes = self.sizes.counted(statement);
        if is_goal(statement) {
            self.goal = true;
        }
    }
}

/// The name that a statement declares, if it does, and what it stands for.
pub fn declared_by(sizes: Sizes, statement: &Statement) -> Option<(usize, Sort)>
    requires small { IsSmall sizes }
    ensures declared { result ≡ spec.declared_by sizes statement.now }
{
    match statement {
        Statement::Uncertain(parameter) => {
            Some((parameter.name, Sort::Parameter(sizes.parameters as u32)))
        }
        Statement::Var(variable) => {
            Some((variable.name, Sort::Decision(sizes.variables as u32)))
        }
        Statement::Adaptive(policy) => {
            let depends = has_some(policy.on.items());
            Some((policy.name, Sort::Policy(sizes.adaptives as u32, depends)))
        }
        Statement::Row(row) => Some((row.name, Sort::RowName)),
        Statement::Over(name) => Some((*name, Sort::Set(sizes.sets as u32 + 1))),
        Statement::Set(_) | Statement::Budget(_) | Statement::Goal(_) => None,
    }
}

/// Whether a list has an item.
fn has_some(list: &[usize]) -> bool
    ensures holds { result ≡ spec.has_some list.now }
{
    match list {
        [] => false,
        [..] => true,
    }
}

/// Writes what a declared name stands for.
fn declare(sorts: &mut [Option<Sort>], declared: Option<(usize, Sort)>)
    ensures declared { sorts.new ≡ spec.declare sorts.old declared }
{
    if let Some((name, sort)) = declared {
        if name < sorts.len() {
            sorts[name] = Some(sort);
        }
    }
}

/// Whether a statement is a goal.
pub fn is_goal(statement: &Statement) -> bool
    ensures holds { result ≡ spec.is_goal statement.now }
{
    matches!(statement, Statement::Goal(_))
}
