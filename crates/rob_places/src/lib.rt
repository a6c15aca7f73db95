//! Whether some place of a statement is at fault: an index of a name, or a range, in some setting of the ranges around
//! it.
#![tactic(auto)]

mod around;
pub mod fault;
mod test;
mod walk;
