//! How a run ends.

ghost use Rattle.std.specs.Prelude.{◌≡◌};
ghost use Rattle.rob_commands.specs.Codes.{code_of};

use rob_model::{Place, Spot};
use rob_number::List;
use rob_tree::{Branch, LeafFault};

/// How a run ended. `Model`, `Cert`, `Scenarios` and `Tree` hold the number of the rule that the text breaks, and its
/// line or record, from 1; `Cert` is also of a text that breaks none, of a certificate without a plan.
#[derive(Debug, Drop)]
pub enum Ended {
    /// The model is optimal; at `whole` and `tree` over plans whose named variables are whole, at `cells` over plans
    /// with a policy of their own in each cell, and so the next two.
    Optimal,
    /// No plan keeps every row in every scenario of its set.
    Infeasible,
    /// Every number is a bound of some plan.
    Unbounded,
    /// What was asked for was printed.
    Printed,
    /// The certificate, or the branch tree, proves what it claims.
    Accepted,
    /// The certificate doesn't prove: that condition fails.
    Rejected(Place),
    /// The branch tree doesn't prove: that condition of the leaf of that number, from 1, fails.
    TreeRejected(u32, LeafFault),
    /// The words are no command line.
    Words,
    /// A named file isn't there.
    Missing,
    /// A named file is longer than it may be.
    TooLong,
    /// The model's text can't be read.
    Model(u8, u32),
    /// No joint scenario is admitted: with these weights, one for each set row, the set rows sum to 0 on each column,
    /// and to a negative right side. At `cells` they are the split model's.
    EmptySet(List<i64>),
    /// A number is wider than the program computes with; at `cells` one of the split model.
    TooWide(Spot),
    /// It is, in the box behind these branches.
    WideNode(List<Branch>, Spot),
    /// It is, in the model with the limit of that number among the limits, from 1.
    WideBudget(u32, Spot),
    /// The certificate's text can't be read, or it claims that its model is infeasible, and a plan is asked for.
    Cert(u8, u32),
    /// The scenario file can't be read.
    Scenarios(u8, u32),
    /// The variables that are to take whole numbers break that rule.
    Whole(u8),
    /// No form has the name that is given.
    NoRow,
    /// The branch tree's text can't be read.
    Tree(u8, u32),
    /// The statement or the limits of a sweep break that rule.
    Sweep(u8),
    /// The model, its cuts, or the split model that they make, break that rule.
    Cells(u8),
    /// The outside failed while a file was read.
    ReadFault,
    /// The outside failed while the output was put.
    WriteFault,
    /// Memory was refused.
    Memory,
}

impl Ended {
    /// The exit status.
    pub fn code(&self) -> u8
        ensures code { result ≡ code_of self.now }
    {
        match self {
            Ended::Optimal => 0,
            Ended::Infeasible => 10,
            Ended::Unbounded => 11,
            Ended::Printed => 0,
            Ended::Accepted => 0,
            Ended::Rejected(_) => 12,
            Ended::TreeRejected(_, _) => 12,
            Ended::Words => 20,
            Ended::Missing => 21,
            Ended::TooLong => 22,
            Ended::Model(_, _) => 23,
            Ended::EmptySet(_) => 24,
            Ended::TooWide(_) => 25,
            Ended::WideNode(_, _) => 25,
            Ended::WideBudget(_, _) => 25,
            Ended::Cert(_, _) => 26,
            Ended::Scenarios(_, _) => 27,
            Ended::Whole(_) => 33,
            Ended::NoRow => 29,
            Ended::Tree(_, _) => 34,
            Ended::Sweep(_) => 35,
            Ended::Cells(_) => 32,
            Ended::ReadFault => 30,
            Ended::WriteFault => 31,
            Ended::Memory => 40,
        }
    }
}
