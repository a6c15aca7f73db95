//! Rows of whole numbers of up to 126 bits: the row of a fraction-free pivot in lowest terms, and the lexicographic
//! order of rows over their divisors.
#![tactic(auto)]

mod big;
mod combination;
mod content;
mod division;
mod divisor;
mod factors;
mod halves;
mod narrow;
mod order;
mod quotient;
mod reduction;
mod signed;
mod sizes;

pub use big::Big;
pub use combination::combine_deep;
pub use content::{content_of, is_primitive};
pub use division::{quotient_of, remainder};
pub use factors::{Factors, lowest};
pub use halves::product;
pub use narrow::{bound_of, fused};
pub use order::{lex_cmp, product_order};
pub use reduction::{reduce, to_lowest_terms};
pub use signed::{Signed, combined};
pub use sizes::{is_within, largest};
