//! The cutting-plane route: each round solves the master program over the cuts so far, and cuts off its plan or its
//! direction at the worst case of the first form that is broken; where none is, the certificate is read off.
#![tactic(auto)]

mod certificate;
mod clearing;
mod cut;
mod items;
mod kept;
mod look;
mod master;
mod numbers;
mod reading;
mod round;
mod route;
mod run;
mod scan;
mod step;

pub use route::solve_cuts;
