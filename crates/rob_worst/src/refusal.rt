//! How a stop before a search is counted, and what its places are called.

ghost use Rattle.std.specs.Prelude.{◌≡◌};
ghost use Rattle.rob_dualize.specs.Solving.{CountsStop};
ghost use Rattle.rob_worst.specs.Refusals.{program_for, place_for};

use rob_cert::Stop;
use rob_model::{Program, Where};
use rob_number::Ledger;

/// Counts the stop, where it is a wide number.
pub fn count<L: Ledger>(stop: &Stop, ledger: &mut L)
    ensures counted { CountsStop (L.wides ledger.old) (L.wides ledger.new) stop.now }
    ensures unchanged { L.ops ledger.new ≡ L.ops ledger.old }
{
    match stop {
        Stop::Wide(..) => ledger.wide(),
        Stop::EmptySet(..) | Stop::Memory => {}
    }
}

/// The program of the search for a form at a plan, or at a direction.
pub fn program(by_step: bool, form: u32) -> Program
    ensures program { result ≡ program_for by_step form }
{
    if by_step {
        Program::SearchMove(form)
    } else {
        Program::SearchPlan(form)
    }
}

/// What is cleared: a plan, or a direction.
pub fn place(by_step: bool) -> Where
    ensures place { result ≡ place_for by_step }
{
    if by_step { Where::Move } else { Where::Plan }
}
