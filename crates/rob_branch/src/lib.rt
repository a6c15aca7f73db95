//! Branch and bound with whole numbers: a tree is grown, one solve for each node that isn't open, and a tree is
//! checked, leaf by leaf.
#![tactic(auto)]

mod check;
mod grow;
pub mod laws;
mod leaf;
mod path;
mod search;

pub use check::check_tree;
pub use grow::grow_tree;
