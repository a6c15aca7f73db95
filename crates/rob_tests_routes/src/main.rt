//! The tests of the libraries of branch trees, sweeps, searches and cutting planes: cases from standard input call
//! their public names, and what comes is compared with what is wanted.
#![tactic(auto)]

mod alike;
mod answer;
mod boxes;
mod call;
mod cuts;
mod given;
mod stops;
mod sweep;
mod tree;
mod whole;
mod worst;

use call::Libraries;
use rob_case::run;
use std::process::ExitCode;

fn main(rt: HostRuntime) -> ExitCode {
    ExitCode::from(run::<HostRuntime, Libraries>(&rt))
}
