//! Worked cases: each is run in memory, and what it puts and its status are compared with what is wanted.
#![tactic(auto)]

mod case;
mod line;

use case::{Case, Outcome};
use line::{Line, read_line};
use rob_case::Trouble;
use rob_case::text::shown;
use std::alloc::Global;
use std::mem;
use std::process::ExitCode;

fn main(rt: HostRuntime) -> ExitCode {
    match run_all(&rt) {
        Ok(0) => ExitCode::SUCCESS,
        Ok(_) => ExitCode::FAILURE,
        Err(_) => ExitCode::from(2),
    }
}

/// What is kept from line to line.
#[derive(Drop)]
struct Running {
    case: Case,
    /// What the case before put.
    printed: Vec<u8>,
    cases: u64,
    differ: u64,
}

/// Runs the cases of standard input, and gives how many of them differ.
fn run_all(rt: &HostRuntime) -> Result<u64, Trouble> {
    let mut running = Running {
        case: Case::new(rt.alloc(), "")?,
        printed: Vec::new(rt.alloc()),
        cases: 0,
        differ: 0,
    };
    for text in rt.lines(rt.alloc()) {
        let text = text?;
        running.read(rt, text.as_str())?;
    }
    let cases = running.cases;
    let differ = running.differ;
    println!(rt; "{cases} cases, {differ} differ")?;
    Ok(differ)
}

impl Running {
    /// Does what a line says.
    fn read(&mut self, rt: &HostRuntime, text: &str) -> Result<(), Trouble> {
        match read_line(text) {
            Line::Nothing => Ok(()),
            Line::Case(name) => self.begin(rt.alloc(), name),
            Line::Printed(name) => self.case.add_file(name, self.printed.as_slice()),
            Line::Status(status) => self.end(rt, status),
            part => self.case.add(rt.alloc(), &part),
        }
    }

    /// Begins a case of that name.
    fn begin(&mut self, alloc: Global, name: &str) -> Result<(), Trouble> {
        self.case = Case::new(alloc, name)?;
        Ok(())
    }

    /// Runs the case, of which that status is wanted, and begins one without a name.
    fn end(&mut self, rt: &HostRuntime, status: u8) -> Result<(), Trouble> {
        self.cases = self.cases.saturating_add(1);
        let next = Case::new(rt.alloc(), "")?;
        let outcome = mem::replace(&mut self.case, next).run(rt.alloc())?;
        if !report(rt, &outcome, status)? {
            self.differ = self.differ.saturating_add(1);
        }
        self.printed = outcome.put;
        Ok(())
    }
}

/// Prints the line of a case, and says whether it gave what is wanted.
fn report(rt: &HostRuntime, outcome: &Outcome, status: u8) -> Result<bool, Trouble> {
    let name = outcome.name.as_str();
    if outcome.status == status && outcome.put.as_slice() == outcome.wanted.as_slice() {
        println!(rt; "ok {name}")?;
        return Ok(true);
    }
    let got = outcome.status;
    println!(rt; "DIFFERS {name}")?;
    println!(rt; "  status {got}, wanted {status}")?;
    let put = shown(rt.alloc(), outcome.put.as_slice())?;
    println!(rt; "  put    {put}")?;
    let wanted = shown(rt.alloc(), outcome.wanted.as_slice())?;
    println!(rt; "  wanted {wanted}")?;
    Ok(false)
}
