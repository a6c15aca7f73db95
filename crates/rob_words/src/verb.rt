//! The commands: their names, their own words and their options.
//!
//! Each command has one line in each of the three tables below, and in the same three of `specs/Verbs.antt`; nothing
//! else in this crate tells one command from another.

ghost use Rattle.std.specs.Prelude.{◌≡◌, MatchOption};
ghost use Rattle.rob_words.specs.Verbs.{own_of, takes_route, verb_word};
ghost use Rattle.rob_words.specs.declared.verb.Verb.{Verb};

/// A command.
#[derive(Debug, Clone, Copy, PartialEq, Eq)]
pub enum Verb {
    /// Print the set rows and the forms of a model.
    Rows,
    /// Solve a model.
    Solve,
    /// Solve a model and print the certificate of its answer.
    Prove,
    /// Check a certificate against a model.
    Check,
    /// Print the values of a certificate's plan in each scenario of a file.
    Replay,
    /// Print the model of a number.
    Text,
    /// Solve the model of a number by both routes.
    Gen,
    /// Solve a model some of whose variables take whole numbers.
    Whole,
    /// Solve such a model and print the branch tree of its answer.
    Tree,
    /// Print the worst case of a form at a certificate's plan.
    Worst,
    /// Solve a model with a policy of its own in each cell of its set.
    Cells,
    /// Print the split model of a model and its cuts.
    CellText,
    /// Check a branch tree against such a model.
    CheckTree,
    /// Answer a model at several limits of a budget.
    Sweep,
    /// Print a model with another limit in a budget.
    SweepText,
    /// Print how large the numbers of the two programs that a model is solved by can become.
    Narrow,
}

/// What one of a command's own words names.
#[derive(Debug, Clone, Copy, PartialEq, Eq)]
pub enum Own {
    /// The file of a model.
    Model,
    /// The file of a certificate.
    Certificate,
    /// The file of scenarios.
    Scenarios,
    /// A number, and no file.
    Number,
    /// Names of variables, with `,` between them, and no file.
    Names,
    /// A name of a form, and no file.
    Form,
    /// The file of a branch tree.
    Tree,
    /// The number of a statement, and no file.
    Statement,
    /// A limit of a budget, and no file.
    Limit,
    /// Several of them, and no file.
    Limits,
    /// Cuts of the set by a parameter at a number, with `,` between them, and no file.
    Cuts,
}

impl Verb {
    /// The command that the word names.
    pub(crate) fn named(word: &str) -> Option<Verb>
        ensures named { MatchOption result
            ((verb : Verb) → word.now ≡ verb_word verb → ⊥)
            (λ verb. word.now ≡ verb_word verb) }
    {
        match word {
            "rows" => Some(Verb::Rows),
            "solve" => Some(Verb::Solve),
            "prove" => Some(Verb::Prove),
            "check" => Some(Verb::Check),
            "replay" => Some(Verb::Replay),
            "text" => Some(Verb::Text),
            "gen" => Some(Verb::Gen),
            "whole" => Some(Verb::Whole),
            "tree" => Some(Verb::Tree),
            "worst" => Some(Verb::Worst),
            "cells" => Some(Verb::Cells),
            "celltext" => Some(Verb::CellText),
            "checktree" => Some(Verb::CheckTree),
            "sweep" => Some(Verb::Sweep),
            "sweeptext" => Some(Verb::SweepText),
            "narrow" => Some(Verb::Narrow),
            _ => None,
        }
    }

    /// What its own words name, in their order. They are three at most.
    pub fn own(&self) -> &'static [Own]
        ensures own { result.now ≡ own_of self.now }
    {
        match self {
            Verb::Rows => &[Own::Model],
            Verb::Solve => &[Own::Model],
            Verb::Prove => &[Own::Model],
            Verb::Check => &[Own::Model, Own::Certificate],
            Verb::Replay => &[Own::Model, Own::Certificate, Own::Scenarios],
            Verb::Text => &[Own::Number],
            Verb::Gen => &[Own::Number],
            Verb::Whole => &[Own::Model, Own::Names],
            Verb::Tree => &[Own::Model, Own::Names],
            Verb::Worst => &[Own::Model, Own::Certificate, Own::Form],
            Verb::Cells => &[Own::Model, Own::Cuts],
            Verb::CellText => &[Own::Model, Own::Cuts],
            Verb::CheckTree => &[Own::Model, Own::Names, Own::Tree],
            Verb::Sweep => &[Own::Model, Own::Statement, Own::Limits],
            Verb::SweepText => &[Own::Model, Own::Statement, Own::Limit],
            Verb::Narrow => &[Own::Model],
        }
    }

    /// Whether it takes the option `--route`. Each command takes `--bits`.
    pub fn takes_route(&self) -> bool
        ensures takes { result ≡ takes_route self.now }
    {
        match self {
            Verb::Rows => false,
            Verb::Solve => true,
            Verb::Prove => true,
            Verb::Check => false,
            Verb::Replay => false,
            Verb::Text => false,
            Verb::Gen => false,
            Verb::Whole => false,
            Verb::Tree => false,
            Verb::Worst => false,
            Verb::Cells => false,
            Verb::CellText => false,
            Verb::CheckTree => false,
            Verb::Sweep => false,
            Verb::SweepText => false,
            Verb::Narrow => false,
        }
    }
}
