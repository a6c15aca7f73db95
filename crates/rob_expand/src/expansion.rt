//! The plain statements that a statement stands for. By hand:
//! `row cap[t]: sum(i = t to 2: x[i, t]) <= 1 for t = 1 to 3` stands for three rows, in which the sum has two values,
//! one and none:
//!
//!     row cap_1: x_1_1 + x_2_1 <= 1
//!     row cap_2: x_2_2 <= 1
//!     row cap_3: 0 <= 1
//!
//! Behind the words of the text come `cap_1`, `x_1_1`, `x_2_1`, `cap_2`, `x_2_2` and `cap_3`, in this order.

ghost use Rattle.std.specs.Prelude.{◌≡◌, ◌++◌, [], List as Items, false, fold, map, IfOk, MatchResult, OnOk};
ghost use Rattle.std.specs.List.{list_any};
ghost use Rattle.rob_index.specs.Expansion as index;
ghost use Rattle.rob_index.specs.Expansion.{ranges_of};
ghost use Rattle.rob_index.specs.Fast.{nest_of};
ghost use Rattle.rob_index.specs.Forms.{extensions};
ghost use Rattle.rob_index.specs.Statements.{Name};
ghost use Rattle.rob_index.specs.Places.{places};
ghost use Rattle.rob_index.specs.Rules.{is_no_statement, is_out};
ghost use Rattle.rob_syntax.specs.Known.{texts};
ghost use Rattle.rob_syntax.specs.Numbered.{numbered};
ghost use Rattle.rob_syntax.specs.Seen.{seen_statement};
ghost use Rattle.rob_expand.specs.Growing.{is_bare, printed, HasRefusal};
ghost use Rattle.rob_expand.specs.Growing as spec;
ghost use Rattle.rob_expand.specs.Instances.{instance};
ghost use Rattle.rob_expand.specs.Names.{grown};
ghost use Rattle.rob_expand.specs.Statements.{IsLineOf};

use crate::grow::grow_lines;
use crate::instance::{Names, append_instances};
use crate::line::Line;
use crate::lines::line_of;
use crate::name::Refusal;
use rob_number::{List, Memory};
use rob_ranges::Whole;
use rob_settings::item::Item;
use rob_settings::settings::all_settings;
use rob_settings::spot::spots_of;
use rob_syntax::Words;
use rob_syntax::syntax::{Indexed, Statement};
use std::alloc::Global;

/// Appends the plain statements that a statement stands for, in order. `own` are the words of the text, which the
/// statement's names are numbers of; names that are none of `words` come behind these, in the order in which they
/// stand. First all names are added, then the statements are made: so each number is one among all words.
/// Behind a refusal it is open what `words` and `list` have. `limit` is what digits have to be within where tokens are
/// counted; nothing that is answered depends on it.
pub fn expand(
    alloc: Global,
    limit: u64,
    own: &Words,
    words: &mut Words,
    statement: &Indexed,
    list: &mut List<Statement>,
) -> Result<(), Refusal>
    requires within { list_any is_out (places (seen_statement statement.now)) ≡ false }
    ensures words { OnOk result (texts words.new.keys
        ≡ fold grown (texts words.old.keys) (index.expand (texts own.now.keys) (seen_statement statement.now))) }
    ensures list { OnOk result (list.new ≡ list.old
        ++ map (numbered (texts words.new.keys)) (index.expand (texts own.now.keys) (seen_statement statement.now))) }
    ensures refused { MatchResult result
        (λ _. list_any is_no_statement (index.expand (texts own.now.keys) (seen_statement statement.now)) ≡ false)
        (λ e. HasRefusal
        (list_any is_no_statement (index.expand (texts own.now.keys) (seen_statement statement.now))) e) }
{
    let (ranges, line) = line_of(alloc, limit, statement)?;
    let settings = all_settings(alloc, ranges.items(), &[])?;
    let lacking = lacks_members(alloc, statement, &line)?;
    if lacking {
        return Err(Refusal::NoStatement);
    }
    let spots = spots_of(alloc, line.items.items(), settings.items())?;
    let long = grow_lines(alloc, own, words, &line, spots.items())?;
    if long {
        return Err(Refusal::NoStatement);
    }
    let names = Names { own, words };
    append_instances(list, alloc, names, statement, &line, spots.items())?;
    Ok(())
}

/// Whether the statement is a budget that has no member.
fn lacks_members(alloc: Global, statement: &Indexed, line: &Line) -> Result<bool, Memory>
    requires line { IsLineOf (seen_statement statement.now) line.now }
    ensures lacks { IfOk result (λ lacks. (own : Items Name) → lacks
        ≡ list_any spec.lacks_members (map (instance own printed (seen_statement statement.now))
        (extensions (nest_of [] (ranges_of (seen_statement statement.now))) []))) }
{
    match statement {
        Indexed::Budget(_) => are_bare(alloc, line.items.items(), &[]),
        _ => Ok(false),
    }
}

/// Whether none of some items has a setting.
fn are_bare(alloc: Global, items: &[Item], values: &[Whole]) -> Result<bool, Memory>
    ensures bare { IfOk result (λ bare. bare ≡ is_bare items.now values.now) }
{
    for item in items {
        let settings = item.ranges.settings(alloc, values)?;
        if !settings.items().is_empty() {
            return Ok(false);
        }
    }
    Ok(true)
}
