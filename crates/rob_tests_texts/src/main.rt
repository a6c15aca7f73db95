//! The tests of the libraries of texts and models: cases from standard input call their public names, and what comes is
//! compared with what is wanted.
#![tactic(auto)]

mod call;
mod cert;
mod lex;
mod model;
mod parse;
mod replay;

use call::Libraries;
use rob_case::run;
use std::process::ExitCode;

fn main(rt: HostRuntime) -> ExitCode {
    ExitCode::from(run::<HostRuntime, Libraries>(&rt))
}
