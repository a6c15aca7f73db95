//! The uncertainty set in whole numbers, and the tables of coefficients that it and the forms are made from.
#![tactic(auto)]

pub mod bound;
pub mod budget;
pub mod clearing;
pub mod error;
pub mod expression;
pub mod laws;
pub mod line;
pub mod row;
pub mod set;
pub mod set_form;
pub mod table;

pub use error::ElabErr;
pub use expression::coefficients;
pub use set::clear_set;
pub use set_form::{SetForm, SetRow};
pub use table::{Cell, Table};
