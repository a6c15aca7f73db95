//! The reformulation route: the robust counterpart of a model, solved by the simplex method, and the certificate that
//! is read off its last basis.
#![tactic(auto)]

pub mod bounds;
mod certificate;
mod counterpart;
pub mod elaborated;
pub mod entries;
pub mod infeasible;
pub mod laws;
mod model;
pub mod numbers;
pub mod reading;
mod route;
mod scenario;
pub mod set_lp;
pub mod set_program;
pub mod stop;

pub use bounds::model_bounds;
pub use elaborated::Elaborated;
pub use model::solve_model;
pub use route::solve_dual;
