//! Rows of whole numbers: the row of a fraction-free pivot in lowest terms, the lexicographic order of rows over their
//! divisors, and linear programs as data.
#![tactic(auto)]

mod combination;
mod divisor;
mod factors;
mod general;
mod laws;
mod narrow;
mod order;
mod pivot_row;
mod program;
mod reduction;
mod sizes;
mod source;

pub use combination::combine_lowest;
pub use factors::{Factors, lowest};
pub use laws::{lexicographic_law, primitive_part_laws, program_law};
pub use narrow::bound_of;
pub use order::{lex_cmp, product};
pub use pivot_row::combine;
pub use program::Lp;
pub use reduction::to_lowest_terms;
pub use sizes::largest;
pub use source::Rows;
