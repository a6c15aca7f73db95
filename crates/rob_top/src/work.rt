//! The work of a command line on its texts.

ghost use Rattle.std.specs.Prelude.{◌≡◌, ◌≤◌, IfOk, false};
ghost use Rattle.rob_elab.specs.Elaborated.{IsElaborated};
ghost use Rattle.rob_meaning.specs.Named.{IsNamed};
ghost use Rattle.rob_model.specs.Valid.{IsValid};
ghost use Rattle.rob_model.specs.View.{robust};
ghost use Rattle.rob_report.specs.Places.{IsSpotOf};
ghost use Rattle.rob_report.specs.Rows.{rows_of};
ghost use Rattle.rob_report.specs.Spots.{too_wide_line};
ghost use Rattle.rob_top.specs.Calls.{Call, count};
ghost use Rattle.rob_top.specs.Commands.{IsElaborating, IsOnModel, elaborates as is_elaborating};
ghost use Rattle.rob_top.specs.Headline.{Means};
ghost use Rattle.rob_top.specs.Replies.{HasTexts};
ghost use Rattle.rob_commands.specs.Replies.{Replies};
ghost use Rattle.rob_top.specs.Work.{AnswersModel, AnswersTexts, AnswersWhole, IsShort};
ghost use Rattle.rob_top.specs.WorkStops.{IsRefusedOf, RepliesRefused, RepliesUnread};
ghost use Rattle.rob_words.specs.Answers.{line_of};

use crate::branching::branch_text;
use crate::checking::check_text;
use crate::files::Texts;
use crate::names::own_word;
use crate::narrowing::narrow;
use crate::replaying::replay_text;
use crate::searching::search_text;
use crate::solving::{prove, solve, wide_on_way};
use crate::splitting::split_words;
use crate::sweeping::{limit_words, sweep_words};
use crate::tree_checking::check_tree_text;
use rob_cert::Trace;
use rob_commands::Ended;
use rob_commands::reply::{Reply, broken_rule};
use rob_dualize::Elaborated;
use rob_elab::{ElabErr, written};
use rob_model::{Model, Spot};
use rob_number::{Exact, Ledger, List, Memory};
use rob_parse::read_model;
use rob_quick::Quick;
use rob_report::{rows_text, spot_text};
use rob_rules::ModelErr;
use rob_words::{CommandLine, Own, Route, Verb, Width};
use std::alloc::Global;

/// Does what a command line says whose command reads a model.
pub fn work_at<L: Ledger>(
    alloc: Global,
    line: &CommandLine,
    texts: &Texts,
    ledger: &mut L,
) -> Result<Reply, Memory>
    requires on_model { IsOnModel line.now.verb }
    requires short { IsShort texts.now }
    // The reply is the answer of each call whose words are the command line, and whose files came with the texts.
    ensures means { IfOk result (λ reply. (call : Call) → HasTexts call (line_of line.now) texts.now
        → call.wides ≡ count (L.wides ledger.old) (L.wides ledger.new)
        → Means call reply.ended reply.text) }
    ensures counted { L.wides ledger.old ≤ L.wides ledger.new }
{
    match line.width {
        Width::Eight => work::<Quick<8>, L>(alloc, line, texts, ledger),
        Width::Sixteen => work::<Quick<16>, L>(alloc, line, texts, ledger),
        Width::ThirtyTwo => work::<Quick<32>, L>(alloc, line, texts, ledger),
        Width::SixtyTwo => work::<Quick<62>, L>(alloc, line, texts, ledger),
    }
}

/// Reads the model, and does with it what the command says.
fn work<N: Exact + Drop, L: Ledger>(
    alloc: Global,
    line: &CommandLine,
    texts: &Texts,
    ledger: &mut L,
) -> Result<Reply, Memory>
    requires on_model { IsOnModel line.now.verb }
    requires short { IsShort texts.now }
    ensures answers { IfOk result (AnswersTexts N.limit (count (L.wides ledger.old)
        (L.wides ledger.new)) (line_of line.now) texts.now) }
    ensures counted { L.wides ledger.old ≤ L.wides ledger.new }
{
    match read_model::<N, L>(alloc, texts.model.as_slice(), ledger) {
        Ok(model) => on_model(alloc, &model, line, texts, ledger),
        Err(error) => not_read(alloc, error),
    }
}

/// The answer where the model's text breaks a rule.
fn not_read(alloc: Global, error: ModelErr) -> Result<Reply, Memory>
    ensures unread { IfOk result (RepliesUnread error) }
{
    match error {
        ModelErr::Rule(rule, line) => {
            broken_rule(alloc, Ended::Model(rule, line), b"model ", rule, line)
        }
        ModelErr::Memory => Err(Memory),
    }
}

/// Whether the command works with the set rows and the forms of its model.
fn elaborates(verb: Verb) -> bool
    ensures elaborates { result ≡ is_elaborating verb }
{
    match verb {
        Verb::Rows => true,
        Verb::Solve => true,
        Verb::Prove => true,
        Verb::Check => true,
        Verb::Replay => false,
        Verb::Text => false,
        Verb::Gen => false,
        Verb::Whole => false,
        Verb::Tree => false,
        Verb::Worst => true,
        Verb::CheckTree => false,
        Verb::Sweep => false,
        Verb::SweepText => false,
        Verb::Cells => false,
        Verb::CellText => false,
        Verb::Narrow => true,
    }
}

/// The answer for a model.
fn on_model<N: Exact + Drop, L: Ledger>(
    alloc: Global,
    model: &Model<N>,
    line: &CommandLine,
    texts: &Texts,
    ledger: &mut L,
) -> Result<Reply, Memory>
    requires valid { IsValid N.value model.now }
    requires named { IsNamed (robust N.value model.now) }
    requires on_model { IsOnModel line.now.verb }
    requires short { IsShort texts.now }
    ensures answers { IfOk result (AnswersModel N.limit
        (count (L.wides ledger.old) (L.wides ledger.new))
        (robust N.value model.now) (line_of line.now) texts.now) }
    ensures counted { L.wides ledger.old ≤ L.wides ledger.new }
{
    if elaborates(line.verb) {
        elaborated(alloc, model, line, texts, ledger)
    } else {
        unelaborated(alloc, model, line, texts, ledger)
    }
}

/// The answer of a command that doesn't elaborate the model as it is written.
fn unelaborated<N: Exact + Drop, L: Ledger>(
    alloc: Global,
    model: &Model<N>,
    line: &CommandLine,
    texts: &Texts,
    ledger: &mut L,
) -> Result<Reply, Memory>
    requires valid { IsValid N.value model.now }
    requires named { IsNamed (robust N.value model.now) }
    requires on_model { IsOnModel line.now.verb }
    requires short { IsShort texts.now }
    requires unmade { is_elaborating line.now.verb ≡ false }
    ensures answers { IfOk result (AnswersModel N.limit
        (count (L.wides ledger.old) (L.wides ledger.new))
        (robust N.value model.now) (line_of line.now) texts.now) }
    ensures counted { L.wides ledger.old ≤ L.wides ledger.new }
{
    let words = line.own.as_slice();
    let names = own_word(Own::Names, line.verb, words);
    match line.verb {
        Verb::Replay => {
            let certificate = texts.certificate.as_slice();
            let scenarios = texts.scenarios.as_slice();
            replay_text(alloc, model, certificate, scenarios, ledger)
        }
        Verb::Whole => branch_text(alloc, model, line.verb, names, ledger),
        Verb::Tree => branch_text(alloc, model, line.verb, names, ledger),
        Verb::CheckTree => {
            let tree = texts.tree.as_slice();
            check_tree_text(alloc, model, names, tree, ledger)
        }
        Verb::Sweep => sweep_words(alloc, model, words, ledger),
        Verb::SweepText => limit_words(alloc, model, words, ledger),
        Verb::Cells => split_words(alloc, model, line.verb, words, ledger),
        Verb::CellText => split_words(alloc, model, line.verb, words, ledger),
        _ => unreachable!(),
    }
}

/// The answer of a command that elaborates the model: its set rows come first, then its forms.
fn elaborated<N: Exact + Drop, L: Ledger>(
    alloc: Global,
    model: &Model<N>,
    line: &CommandLine,
    texts: &Texts,
    ledger: &mut L,
) -> Result<Reply, Memory>
    requires valid { IsValid N.value model.now }
    requires named { IsNamed (robust N.value model.now) }
    requires short { IsShort texts.now }
    requires elaborates { IsElaborating line.now.verb }
    ensures answers { IfOk result (AnswersModel N.limit
        (count (L.wides ledger.old) (L.wides ledger.new))
        (robust N.value model.now) (line_of line.now) texts.now) }
    ensures counted { L.wides ledger.old ≤ L.wides ledger.new }
{
    match written(alloc, model, ledger) {
        Ok((forms, set)) => {
            let elaborated = Elaborated {
                forms: &forms,
                set: &set,
            };
            on_forms(alloc, model, elaborated, line, texts, ledger)
        }
        Err(error) => not_elaborated(alloc, model, line.route, error),
    }
}

/// The answer for a model with its whole numbers.
fn on_forms<N: Exact + Drop, L: Ledger>(
    alloc: Global,
    model: &Model<N>,
    elaborated: Elaborated,
    line: &CommandLine,
    texts: &Texts,
    ledger: &mut L,
) -> Result<Reply, Memory>
    requires valid { IsValid N.value model.now }
    requires named { IsNamed (robust N.value model.now) }
    requires elaborated { IsElaborated N.limit (robust N.value model.now)
        elaborated.forms.now elaborated.set.now }
    requires short { IsShort texts.now }
    requires elaborates { IsElaborating line.now.verb }
    ensures answers { IfOk result (AnswersWhole N.limit
        (count (L.wides ledger.old) (L.wides ledger.new))
        (robust N.value model.now) (line_of line.now) texts.now) }
    ensures counted { L.wides ledger.old ≤ L.wides ledger.new }
{
    match line.verb {
        Verb::Rows => rows(alloc, model, elaborated),
        Verb::Solve => solve(alloc, model, elaborated, line.route, ledger),
        Verb::Prove => prove(alloc, model, elaborated, line.route, ledger),
        Verb::Check => {
            let text = texts.certificate.as_slice();
            check_text(alloc, model, elaborated, text, ledger)
        }
        Verb::Worst => {
            let text = texts.certificate.as_slice();
            let name = own_word(Own::Form, line.verb, line.own.as_slice());
            search_text(alloc, model, elaborated, text, name.as_bytes(), ledger)
        }
        Verb::Narrow => narrow::<N>(alloc, elaborated),
        _ => unreachable!(),
    }
}

/// The answer of `rows`.
fn rows<N: Exact>(alloc: Global, model: &Model<N>, elaborated: Elaborated) -> Result<Reply, Memory>
    requires valid { IsValid N.value model.now }
    requires elaborated { IsElaborated N.limit (robust N.value model.now)
        elaborated.forms.now elaborated.set.now }
    ensures rows { IfOk result (Replies Ended.Printed (rows_of (robust N.value model.now))) }
{
    let text = rows_text(alloc, model, elaborated.forms, elaborated.set)?;
    Ok(Reply {
        ended: Ended::Printed,
        text,
    })
}

/// The answer where set rows or forms were refused: no round comes before that.
fn not_elaborated<N: Exact>(
    alloc: Global,
    model: &Model<N>,
    route: Route,
    error: ElabErr,
) -> Result<Reply, Memory>
    requires valid { IsValid N.value model.now }
    requires named { IsRefusedOf (robust N.value model.now) error }
    ensures refused { IfOk result (RepliesRefused (robust N.value model.now) route error) }
{
    match error {
        ElabErr::Wide(spot) => {
            let rounds = List::new(alloc);
            wide_on_way(alloc, model, route, spot, &Trace { rounds })
        }
        ElabErr::Memory => Err(Memory),
    }
}

/// The answer where a number is too wide.
pub fn too_wide<N: Exact>(alloc: Global, model: &Model<N>, spot: Spot) -> Result<Reply, Memory>
    requires valid { IsValid N.value model.now }
    requires named { IsSpotOf (robust N.value model.now) spot }
    ensures spot { IfOk result (Replies (Ended.TooWide spot)
        (too_wide_line (robust N.value model.now) spot)) }
{
    let text = spot_text(alloc, model, &spot)?;
    Ok(Reply {
        ended: Ended::TooWide(spot),
        text,
    })
}
