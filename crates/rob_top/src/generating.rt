//! The commands on a number: `text`, the model of a number; and `gen`, which solves it.

ghost use Rattle.std.specs.Prelude.{◌≡◌, ◌≤◌, ◌∷◌, [], IfOk, false};
ghost use Rattle.rob_gen.specs.Generated.{generated};
ghost use Rattle.rob_top.specs.Calls.{count};
ghost use Rattle.rob_top.specs.Commands.{reads_model};
ghost use Rattle.rob_top.specs.ComparedWork.{AnswersNumber};
ghost use Rattle.rob_top.specs.Generated.{TellsNumber};
ghost use Rattle.rob_top.specs.Replies.{IsRead};
ghost use Rattle.rob_commands.specs.Replies.{Replies};
ghost use Rattle.rob_top.specs.Work.{RepliesGenerated};
ghost use Rattle.rob_words.specs.Answers.{line_of};
ghost use Rattle.rob_words.specs.Verbs.{own_of};
ghost use Rattle.rob_words.specs.declared.verb.Own.TheVariants.{Number};
ghost use Rattle.rob_words.specs.declared.verb.Verb.TheVariants.{Text as TextVerb};
ghost use Rattle.rob_write.specs.Canonical.{model_text};

use crate::comparing::compare_routes;
use rob_commands::Ended;
use rob_commands::reply::{Reply, printed_model};
use rob_gen::generate;
use rob_number::{Ledger, Memory};
use rob_quick::Quick;
use rob_words::{CommandLine, Verb, number};
use std::alloc::Global;

/// The answer of a command that reads no model.
pub fn on_number<L: Ledger>(
    alloc: Global,
    line: &CommandLine,
    ledger: &mut L,
) -> Result<Reply, Memory>
    requires read { IsRead line.now }
    requires on_number { reads_model line.now.verb ≡ false }
    ensures answers { IfOk result (AnswersNumber (line_of line.now)
        (count (L.wides ledger.old) (L.wides ledger.new))) }
    ensures counted { L.wides ledger.old ≤ L.wides ledger.new }
{
    match line.verb {
        Verb::Text => print_generated(alloc, line, ledger),
        Verb::Gen => compare_routes(alloc, told_number(line), line.width, ledger),
        _ => unreachable!(),
    }
}

/// The answer of `text`. The model's numbers fit each width, so it is the same at each.
fn print_generated<L: Ledger>(
    alloc: Global,
    line: &CommandLine,
    ledger: &mut L,
) -> Result<Reply, Memory>
    requires read { IsRead line.now }
    requires is_text { line.now.verb ≡ TextVerb }
    ensures generated { IfOk result (RepliesGenerated (line_of line.now)) }
    ensures counted { L.wides ledger.old ≤ L.wides ledger.new }
{
    print_model(alloc, told_number(line), ledger)
}

/// The number that the command line tells.
fn told_number(line: &CommandLine) -> u32
    requires read { IsRead line.now }
    requires numbered { own_of line.now.verb ≡ Number ∷ [] }
    ensures number { TellsNumber (line_of line.now) result }
{
    match line.own.as_slice() {
        [word, ..] => match number(word.as_str()) {
            Some(number) => number,
            None => unreachable!(),
        },
        [] => unreachable!(),
    }
}

/// The answer with the canonical text of the number's model.
fn print_model<L: Ledger>(alloc: Global, number: u32, ledger: &mut L) -> Result<Reply, Memory>
    ensures printed { IfOk result (Replies Ended.Printed (model_text (generated number))) }
    ensures counted { L.wides ledger.old ≤ L.wides ledger.new }
{
    let model = generate::<Quick<62>, L>(alloc, number, ledger)?;
    printed_model(alloc, &model)
}
