//! What every layer above is written with: exact numbers of bounded size, the ledger that counts their operations,
//! lists and texts, want of memory, and the endings of a linear program.
#![tactic(auto)]

pub mod exact;
pub mod fraction;
pub mod gcd;
pub mod ledger;
pub mod list;
pub mod lp_kind;
pub mod memory;
pub mod text;

pub use exact::{Exact, Wide};
pub use fraction::Frac;
pub use gcd::{gcd64, gcd128};
pub use ledger::{Ledger, Tally};
pub use list::List;
pub use lp_kind::LpKind;
pub use memory::Memory;
pub use text::Text;
