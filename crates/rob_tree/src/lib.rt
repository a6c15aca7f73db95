//! Branch trees: what shows a status over plans with whole numbers; the boxes that branches make; and the text of a
//! tree, written and read.
#![tactic(auto)]

pub mod boxes;
pub mod error;
pub mod laws;
mod lines;
mod nodes;
mod part;
pub mod reader;
pub mod rules;
pub mod tree;
pub mod verdict;
mod walk;
pub mod whole_number;
pub mod writer;

pub use boxes::behind;
pub use error::{TreeErr, TreeStop};
pub use reader::read_tree;
pub use rules::whole_rule;
pub use tree::{Branch, Node, Tree, split_node};
pub use verdict::{LeafFault, TreeVerdict};
pub use walk::{Walk, leaf_of};
pub use writer::write_tree;
