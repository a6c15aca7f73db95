//! A robust linear model: its data, values, admission, and the names of its parts.
#![tactic(auto)]

pub mod admission;
pub mod bounds;
pub mod copy;
pub mod expr;
pub mod group;
pub mod groups;
pub mod limits;
pub mod model;
pub mod names;
pub mod numbers;
pub mod place;
pub mod plan;
pub mod policy;
pub mod spelling;
pub mod statements;
pub mod value;

pub use admission::{admits, first_broken};
pub use copy::copy_model;
pub use expr::{Expr, Term};
pub use model::{Adaptive, Member, Model, Param, Rel, RowDef, Sense, SetLine, Var};
pub use names::{
    column_count, find_column, find_form, find_param, find_set_row, form_count, put_column_name,
    put_form_name, put_set_place_name, put_set_row_name, set_place_count, set_row_count,
};
pub use place::{Place, Program, Spot, Where};
pub use plan::{Plan, Scenario};
pub use policy::{policy_at, set_count, written_count};
pub use value::value_at;
