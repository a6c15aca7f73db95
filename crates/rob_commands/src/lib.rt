//! The answers of a call, and the lines that are put for them: of a certificate, a branch tree, a sweep, a text that
//! breaks a rule, and of a number that is wide.
#![tactic(auto)]

pub mod budgets;
pub mod certificates;
mod ended;
mod nodes;
mod paths;
pub mod reply;
pub mod trees;

pub use ended::Ended;
pub use paths::wide_node;
