//! The route: rounds until the run is finished.

ghost use Rattle.std.specs.Prelude.{◌≡◌, ◌≤◌, ◌<◌, ◌^◌, ◌++◌, ◌∷◌, [], ℕ, length, IfOk, IfErr, MatchResult};
ghost use Rattle.rob_meaning.specs.Places.{Each};
ghost use Rattle.rob_number.specs.Counts.{NeverFell};
ghost use Rattle.rob_cert.specs.View.{certificate_of};
ghost use Rattle.rob_dualize.specs.Solving.{CountsAnswer};
ghost use Rattle.rob_dualize.specs.Wholes.{counterpart_of, IsFew, AreSound, HoldsOfEach};
ghost use Rattle.rob_rows.specs.LinearPrograms.{HasNumbersWithin};
ghost use Rattle.rob_cuts.specs.Master.{IsMasterList, AddsCut};
ghost use Rattle.rob_cuts.specs.Rounds.{cut_of, CutFits, RoundFits};
ghost use Rattle.rob_cuts.specs.Stops.{StopsWith, IsInSum, stop_after};
ghost use Rattle.rob_cuts.specs.Solving.{AreOfModel, IsSolution, HasCause, StopFits};

use crate::master::{append_cut, without_cuts};
use crate::round::{Outcome, next_round};
use crate::run::Run;
use rob_cert::{Cert, Round, Stop, Trace};
use rob_dualize::Elaborated;
use rob_elab::Forms;
use rob_number::{Exact, Ledger, List, Memory};
use rob_sets::SetForm;
use rob_worst::Finder;
use rob_worst::refusal::count;
use std::alloc::Global;

/// Solves the model of the forms and the set rows by cutting planes. Each round solves the master program over the cuts
/// so far. Its direction, where it has no best plan, and then its plan are tried form by form; the first form that is
/// broken gives the next cut: the form at its worst basic scenario, or at a ray along which it has no greatest value. A
/// round without a broken form, or whose master is infeasible, ends the run. The certificate's plan, bound and
/// direction are those of the last master's basis, its items are the cuts with the master's dual values or Farkas
/// weights, and its covers are the dual values of the last searches. `EmptySet` comes only where no scenario is
/// admitted, with the weights of the set rows that show it; `Wide` only where a row on the path of the set's program,
/// or a number of the next round, is over the limit, with the rounds before it. It names a row only where a row of that
/// position has a number of more than 126 bits there, or the last basis tells a number or a weight over the limit. A
/// master whose rows and columns together reach 2^31 is want of memory.
pub fn solve_cuts<N: Exact, L: Ledger>(
    alloc: Global,
    forms: &Forms,
    set: &SetForm,
    ledger: &mut L,
) -> Result<(Cert<N>, Trace), Stop>
    requires model { AreOfModel N.limit forms.now set.now }
    requires few { IsFew (counterpart_of forms.now set.now) }
    // A certificate that proves, read off where the run is finished that the trace tells.
    ensures solved { IfOk result (λ answer. HoldsOfEach forms.now set.now
        (λ m. IsSolution m (certificate_of N.value answer.0) answer.1.rounds)) }
    ensures stopped { IfErr result (λ stop. HoldsOfEach forms.now set.now
        (λ m. HasCause N.limit m stop)) }
    // No number of a told round's cut is over the limit.
    ensures fits { MatchResult result (λ answer. Each (RoundFits N.limit) answer.1.rounds)
        (StopFits N.limit) }
    ensures wides { CountsAnswer (L.wides ledger.old) (L.wides ledger.new) result }
    ensures counted { NeverFell L.ops L.wides ledger.old ledger.new }
{
    let mut finder = match Finder::<N>::new(alloc, set, ledger) {
        Ok(finder) => finder,
        Err(stop) => return Err(stop),
    };
    let mut run = started(alloc, forms)?;
    'rounds: loop {
        match next_round(alloc, Elaborated { forms, set }, &mut finder, &run, ledger) {
            Ok(Outcome::End(cert)) => return Ok((cert, Trace { rounds: run.rounds })),
            Ok(Outcome::Cut(round)) => {
                if let Err(stop) = go_on::<N>(alloc, forms, round, &mut run) {
                    count(&stop, ledger);
                    return Err(after(stop, run.rounds));
                }
            }
            Err(stop) => return Err(after(stop, run.rounds)),
        }
    }
}

/// A run without a round.
fn started(alloc: Global, forms: &Forms) -> Result<Run, Memory>
    ensures master { IfOk result (λ run. IsMasterList forms.now [] run.master) }
    ensures within { IfOk result (λ run. (limit : ℕ) → 1 ≤ limit
        → HasNumbersWithin limit run.master) }
    ensures rounds { IfOk result (λ run. run.rounds ≡ []) }
{
    let master = without_cuts(alloc, forms)?;
    let rounds = List::new(alloc);
    Ok(Run { master, rounds })
}

/// Appends a round to the run, and its cut to the master.
fn go_on<N: Exact>(alloc: Global, forms: &Forms, round: Round, run: &mut Run) -> Result<(), Stop>
    requires sound { AreSound forms.now }
    requires few { forms.now.columns < 2 ^ 31 }
    requires form_in { round.form < length forms.now.matrices }
    requires fits { CutFits N.limit forms.now.params (cut_of round) }
    ensures added { IfOk result (λ _. AddsCut forms.now
        (cut_of round) run.old.master run.new.master) }
    ensures within { IfOk result
        (λ _. HasNumbersWithin N.limit run.old.master → HasNumbersWithin N.limit run.new.master) }
    ensures rounds { MatchResult result (λ _. run.new.rounds ≡ run.old.rounds ++ round ∷ [])
        (λ _. run.new.rounds ≡ run.old.rounds) }
    ensures stopped { IfErr result (StopsWith (IsInSum N.limit forms.now (cut_of round))) }
{
    if let Err(stop) = append_cut::<N>(alloc, forms, &round, &mut run.master) {
        return Err(stop);
    }
    run.rounds.push(round)?;
    Ok(())
}

/// The stop with the rounds before it.
fn after(stop: Stop, rounds: List<Round>) -> Stop
    ensures stop { result ≡ stop_after stop rounds }
{
    match stop {
        Stop::Wide(spot, _) => Stop::Wide(spot, Trace { rounds }),
        Stop::EmptySet(weights) => Stop::EmptySet(weights),
        Stop::Memory => Stop::Memory,
    }
}
