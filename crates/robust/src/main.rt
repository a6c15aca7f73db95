//! Exact robust linear optimisation on the command line.
#![tactic(auto)]

use rob_number::Tally;
use rob_outside::{FileShelf, StdSink};
use rob_top::run_here;
use std::env;
use std::io::ErrorKind;
use std::process::ExitCode;

/// The status where memory is refused before the words are known.
const NO_MEMORY: u8 = 40;

/// The status where the words can't be had for another cause, which no answer has.
const NO_WORDS: u8 = 41;

fn main(rt: HostRuntime) -> ExitCode {
    ExitCode::from(answer(&rt))
}

/// Runs over the machine's files and standard output, and gives the status.
fn answer(rt: &HostRuntime) -> u8 {
    match gather(rt) {
        Ok(words) => {
            let mut shelf = FileShelf::new(rt);
            let mut out = StdSink::new(rt);
            let mut ledger = Tally::new();
            run_here(
                rt.alloc(),
                words.as_slice(),
                &mut shelf,
                &mut out,
                &mut ledger,
            )
            .code()
        }
        Err(status) => status,
    }
}

/// The words of the command line behind the program's own name, or the status to end with. Nothing is printed.
fn gather(rt: &HostRuntime) -> Result<Vec<String>, u8> {
    let all = match env::args(rt) {
        Ok(all) => all,
        Err(error) if error.kind() == ErrorKind::OutOfMemory => return Err(NO_MEMORY),
        Err(_) => return Err(NO_WORDS),
    };
    let mut words = Vec::new(rt.alloc());
    for word in all.skip(1) {
        if words.push(word).is_err() {
            return Err(NO_MEMORY);
        }
    }
    Ok(words)
}
