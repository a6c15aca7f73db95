//! The texts that are printed: the rows of a model, the report of a certificate, the table of a scenario file, the
//! spots of wide numbers, the places of rejected certificates, the worst case of a form, the rounds of the
//! cutting-plane method, and the weights that show an empty set.
#![tactic(auto)]

mod empty_set;
mod labels;
pub mod laws;
mod names;
mod narrow;
mod places;
mod report;
mod rounds;
mod rows;
mod spots;
mod table;
mod terms;
mod worst;

pub use empty_set::empty_set_text;
pub use narrow::{put_bound, put_narrow};
pub use places::{place_text, put_place};
pub use report::{put_report, report_text};
pub use rounds::put_rounds;
pub use rows::rows_text;
pub use spots::spot_text;
pub use table::table_text;
pub use worst::worst_text;
