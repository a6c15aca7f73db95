//! A program of cases: the lines of standard input, one after another.

ghost use Rattle.std.specs.Prelude.{◌≤◌};

use crate::case::Case;
use crate::given::give;
use crate::judging::judge;
use crate::text::keyword;
use crate::trouble::Trouble;
use std::io;

/// The calls that the cases of a program make.
pub trait Calls<R> {
    /// The answer of the call of a line: its first word, and what stands behind the space behind it.
    fn answer(rt: &R, case: &Case, word: &str, rest: &str) -> Result<String, Trouble>;
}

/// Runs the cases of standard input, and prints what is said of each, and how many there are and how many differ. The
/// status that the program is to end with is 0 where none differs, 1 where one does, and 2 where they can't be run.
pub fn run<R: AllocGlobal + Input + Print, C: Calls<R>>(rt: &R) -> u8
    ensures status { result ≤ 2 }
{
    match run_all::<R, C>(rt) {
        Ok(0) => 0,
        Ok(_) => 1,
        Err(_) => 2,
    }
}

/// How many cases were run, and how many of them differ.
#[derive(Clone, Copy)]
struct Counts {
    cases: u64,
    differ: u64,
}

/// Runs the cases of standard input, and gives how many of them differ. It alone has the case: what it calls is lent
/// it.
fn run_all<R: AllocGlobal + Input + Print, C: Calls<R>>(rt: &R) -> Result<u64, Trouble> {
    let mut case = Case::new(rt.alloc());
    run_each::<R, C>(rt, &mut case)
}

/// Runs the cases of standard input, each in the same one, and gives how many of them differ.
fn run_each<R: AllocGlobal + Input + Print, C: Calls<R>>(
    rt: &R,
    case: &mut Case,
) -> Result<u64, Trouble> {
    let mut counts = Counts {
        cases: 0,
        differ: 0,
    };
    for line in rt.lines(rt.alloc()) {
        read::<R, C>(rt, case, &mut counts, line)?;
    }
    let cases = counts.cases;
    let differ = counts.differ;
    println!(rt; "{cases} cases, {differ} differ")?;
    Ok(differ)
}

/// Does what a line says that could be read.
fn read<R: AllocGlobal + Print, C: Calls<R>>(
    rt: &R,
    case: &mut Case,
    counts: &mut Counts,
    line: io::Result<String>,
) -> Result<(), Trouble> {
    let line = line?;
    follow::<R, C>(rt, case, counts, line.as_str())
}

/// Does what a line says: ends the case, gives something to its calls, or calls.
fn follow<R: AllocGlobal + Print, C: Calls<R>>(
    rt: &R,
    case: &mut Case,
    counts: &mut Counts,
    line: &str,
) -> Result<(), Trouble> {
    let (word, rest) = keyword(line);
    if word == "gives" {
        end(rt, case, counts, rest)
    } else if give(rt.alloc(), case, word, rest)? {
        Ok(())
    } else {
        call::<R, C>(rt, case, word, rest)
    }
}

/// Adds what the call of a line answers.
fn call<R: AllocGlobal + Print, C: Calls<R>>(
    rt: &R,
    case: &mut Case,
    word: &str,
    rest: &str,
) -> Result<(), Trouble> {
    let answer = C::answer(rt, case, word, rest)?;
    case.add(answer.as_str())
}

/// Says of a case whether it gave what is wanted, counts it, and ends it.
fn end<R: AllocGlobal + Print>(
    rt: &R,
    case: &mut Case,
    counts: &mut Counts,
    wanted: &str,
) -> Result<(), Trouble> {
    let verdict = judge(rt.alloc(), case, wanted)?;
    counts.cases = counts.cases.saturating_add(1);
    counts.differ = counts.differ.saturating_add(u64::from(!verdict.same));
    case.end();
    println!(rt; "{}", verdict.text.as_str())?;
    Ok(())
}
