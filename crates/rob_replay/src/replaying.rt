//! Replaying: the table of a scenario file under a plan.

ghost use Rattle.std.specs.Prelude.{◌≡◌, ◌≤◌, map, length, Ok, MatchResult, IfOk, IfErr, List as Items, ℕ};
ghost use Rattle.csv.specs.Records.{fields_of};
ghost use Rattle.rob_model.specs.Valid.{IsValid};
ghost use Rattle.rob_model.specs.View.{robust, plan_of};
ghost use Rattle.rob_meaning.specs.Guarantee.{HasBound};
ghost use Rattle.rob_meaning.specs.Places.{Each};
ghost use Rattle.rob_number.specs.Counts.{NeverFell};
ghost use Rattle.rob_replay.specs.Files.{IsFile};
ghost use Rattle.rob_replay.specs.Replayed.{IsTable, ShowsBound};
ghost use Rattle.rob_replay.specs.Outcome.{outcome, record_outcome, records_outcome};
ghost use Rattle.rob_replay.specs.View.{line_of, Refuses, Gives, FileRefuses, RoseIfWide};

use crate::error::ReplayErr;
use crate::header::read_header;
use crate::line::{Stopped, line_at};
use crate::record::{in_order, read_numbers};
use crate::rows::read_rows;
use crate::table::{Table, TableLine};
use csv::ByteRecord;
use rob_model::{Model, Plan};
use rob_number::{Exact, Ledger, List};
use std::alloc::Global;

/// What a record is replayed with: a model, a plan, and the places of the parameters in the record, as the header tells
/// them.
#[derive(Clone, Copy)]
struct Planned<'a, N> {
    model: &'a Model<N>,
    plan: &'a Plan<N>,
    places: &'a [usize],
}

/// The line of a record.
fn replay_record<N: Exact, L: Ledger>(
    alloc: Global,
    planned: Planned<N>,
    number: u32,
    row: &ByteRecord,
    ledger: &mut L,
) -> Result<TableLine<N>, ReplayErr>
    requires valid { IsValid N.value planned.model.now }
    requires places { length planned.places.now ≡ length planned.model.now.params }
    ensures line { MatchResult result
        (λ line. record_outcome N.limit (robust N.value planned.entry.model.now)
        (plan_of N.value planned.entry.plan.now) planned.entry.places.now number
        (fields_of row.now) ≡ Ok (line_of N.value line))
        (Refuses (record_outcome N.limit (robust N.value planned.entry.model.now)
        (plan_of N.value planned.entry.plan.now) planned.entry.places.now number
        (fields_of row.now))) }
    ensures wide { IfErr result (RoseIfWide (L.wides ledger.old) (L.wides ledger.new)) }
    ensures counted { NeverFell L.ops L.wides ledger.old ledger.new }
{
    let Planned {
        model,
        plan,
        places,
    } = planned;
    if row.len() != places.len() {
        return Err(ReplayErr::Rule(42, number));
    }
    match read_numbers::<N, L>(alloc, row, ledger) {
        Err(_) => Err(ReplayErr::Memory),
        Ok(None) => Err(ReplayErr::Rule(43, number)),
        Ok(Some(numbers)) => match in_order(alloc, places, numbers.items(), ledger) {
            Err(_) => Err(ReplayErr::Memory),
            Ok(scenario) => match line_at(alloc, number, model, plan, &scenario, ledger) {
                Err(Stopped::Wide) => Err(ReplayErr::Wide(number)),
                Err(Stopped::Memory) => Err(ReplayErr::Memory),
                Ok(line) => Ok(line),
            },
        },
    }
}

/// The lines of the records behind the header, which has these places.
fn replay_records<N: Exact, L: Ledger>(
    alloc: Global,
    model: &Model<N>,
    plan: &Plan<N>,
    places: &[usize],
    rows: &[ByteRecord],
    ledger: &mut L,
) -> Result<List<TableLine<N>>, ReplayErr>
    requires valid { IsValid N.value model.now }
    requires places { length places.now ≡ length model.now.params }
    requires few { length rows.now ≤ 10000 }
    ensures lines { MatchResult result
        (λ lines. records_outcome N.limit (robust N.value model.now)
        (plan_of N.value plan.now) places.now 2
        (map fields_of rows.now) ≡ Ok (map (line_of N.value) lines))
        (Refuses (records_outcome N.limit (robust N.value model.now)
        (plan_of N.value plan.now) places.now 2 (map fields_of rows.now))) }
    ensures wide { IfErr result (RoseIfWide (L.wides ledger.old) (L.wides ledger.new)) }
    ensures counted { NeverFell L.ops L.wides ledger.old ledger.new }
{
    let mut lines = List::new(alloc);
    for (i, row) in rows.iter().enumerate() {
        let planned = Planned {
            model,
            plan,
            places,
        };
        match replay_record(alloc, planned, i as u32 + 2, row, ledger) {
            Err(error) => return Err(error),
            Ok(line) => lines.push(line)?,
        }
    }
    Ok(lines)
}

/// The lines of a file's first records, as many as it may have and one more.
fn replay_rows<N: Exact, L: Ledger>(
    alloc: Global,
    model: &Model<N>,
    plan: &Plan<N>,
    rows: &[ByteRecord],
    ledger: &mut L,
) -> Result<List<TableLine<N>>, ReplayErr>
    requires valid { IsValid N.value model.now }
    ensures lines { MatchResult result
        (λ lines. outcome N.limit (robust N.value model.now) (plan_of N.value plan.now)
        (map fields_of rows.now) ≡ Ok (map (line_of N.value) lines))
        (Refuses (outcome N.limit (robust N.value model.now) (plan_of N.value plan.now)
        (map fields_of rows.now))) }
    ensures wide { IfErr result (RoseIfWide (L.wides ledger.old) (L.wides ledger.new)) }
    ensures counted { NeverFell L.ops L.wides ledger.old ledger.new }
{
    if rows.is_empty() {
        return Err(ReplayErr::Rule(41, 1));
    }
    match read_header(alloc, model.params.items(), &rows[0]) {
        Err(_) => Err(ReplayErr::Memory),
        Ok(None) => Err(ReplayErr::Rule(41, 1)),
        Ok(Some(places)) => {
            if rows.len() > 10_001 {
                return Err(ReplayErr::Rule(44, 10_002));
            }
            replay_records(alloc, model, plan, places.items(), &rows[1..], ledger)
        }
    }
}

/// The table of a scenario file under a plan: for each record behind the header whether its joint scenario is admitted,
/// and if so the values of the adaptive variables, the objective, and the slacks. The plan isn't checked.
pub fn replay<N: Exact, L: Ledger>(
    alloc: Global,
    model: &Model<N>,
    plan: &Plan<N>,
    text: &[u8],
    ledger: &mut L,
) -> Result<Table<N>, ReplayErr>
    requires valid { IsValid N.value model.now }
    ensures table { IfOk result (λ table. Gives
        (outcome N.limit (robust N.value model.now) (plan_of N.value plan.now))
        text.now (Ok (map (line_of N.value) table.lines))) }
    ensures refused { IfErr result (FileRefuses
        (outcome N.limit (robust N.value model.now) (plan_of N.value plan.now)) text.now) }
    // So, whatever records the file is: the table or the refusal is theirs, unless memory was refused.
    ensures exact { (rows : Items (Items (Items ℕ))) → IsFile text.now rows → MatchResult result
        (λ table. outcome N.limit (robust N.value model.now) (plan_of N.value plan.now) rows
        ≡ Ok (map (line_of N.value) table.lines))
        (Refuses (outcome N.limit (robust N.value model.now) (plan_of N.value plan.now) rows)) }
    // Each line is that of its record: outside, or inside with the values of the plan in the joint scenario.
    ensures replayed { IfOk result (λ table. (rows : Items (Items (Items ℕ))) × IsFile text.now rows
        × IsTable N.limit (robust N.value model.now) (plan_of N.value plan.now) rows
        (map (line_of N.value) table.lines)) }
    // Where the plan has its bound, no inside line shows a slack below 0, or an objective worse than the bound.
    ensures bounded { HasBound (robust N.value model.now) (plan_of N.value plan.now)
        (N.value plan.now.bound)
        → IfOk result (λ table. Each
        (ShowsBound (robust N.value model.now) (N.value plan.now.bound))
        (map (line_of N.value) table.lines)) }
    ensures wide { IfErr result (RoseIfWide (L.wides ledger.old) (L.wides ledger.new)) }
    ensures counted { NeverFell L.ops L.wides ledger.old ledger.new }
{
    match read_rows(alloc, text) {
        Err(_) => Err(ReplayErr::Memory),
        Ok(rows) => match replay_rows(alloc, model, plan, rows.as_slice(), ledger) {
            Err(error) => Err(error),
            Ok(lines) => Ok(Table { lines }),
        },
    }
}
