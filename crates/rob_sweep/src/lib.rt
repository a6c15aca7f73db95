//! The price of robustness: the value of one model for a rising list of limits of one of its budgets.
#![tactic(auto)]

mod answer;
mod budget;
mod limits;
mod solve;
mod sweeping;
mod text;

pub use answer::{SweepAnswer, SweepStop};
pub use budget::with_budget;
pub use sweeping::sweep;
pub use text::sweep_text;
