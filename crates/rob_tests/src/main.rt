//! The tests of the libraries of numbers, programs, words and the outside: cases from standard input call their public
//! names, and what comes is compared with what is wanted.
#![tactic(auto)]

mod call;
mod deep;
mod narrow;
mod number;
mod outside;
mod program;
mod rows;
mod simplex;
mod solver;
mod words;

use call::Libraries;
use rob_case::run;
use std::process::ExitCode;

fn main(rt: HostRuntime) -> ExitCode {
    ExitCode::from(run::<HostRuntime, Libraries>(&rt))
}
