//! Statements with indices, ranges and sums: lines of either version.

ghost use Rattle.std.specs.Prelude.{◌≡◌, [], ◌∷◌, List, MatchOption, MatchResult};
ghost use Rattle.rob_index.specs.Symbols.{word};
ghost use Rattle.rob_index.specs.Symbols as is;
ghost use Rattle.rob_index.specs.Lines.{IsStatement};
ghost use Rattle.rob_syntax.specs.Fronts.{EndsLine, HasCause, Reads};
ghost use Rattle.rob_syntax.specs.Parts.{spell_goal, tree_goal, spell_row, tree_row};
ghost use Rattle.rob_syntax.specs.SeenSymbols.{seen_keyword, seen_line};
ghost use Rattle.rob_syntax.specs.Seen.{seen_over, seen_ranges, seen_ref, seen_sides, seen_statement, seen_tree};
ghost use Rattle.rob_syntax.specs.Whole.{ReadsLine, HasLineCause, HasStatementCause};

use crate::error::ParseErr;
use crate::indexed::budget::budget;
use crate::indexed::few::has_few_indices;
use crate::indexed::front::behind_mark;
use crate::indexed::index::reference;
use crate::indexed::limits::is_line;
use crate::indexed::line::{declared, ending, last_ranges, named, related};
use crate::indexed::policy::policy;
use crate::symbol::{Keyword, Mark, Symbol};
use crate::syntax::{Indexed, Ranged, Ref, Sense, Sides, Target};
use std::alloc::Global;

/// The statement that the symbols of a line are.
pub fn read_statement(alloc: Global, symbols: &[Symbol]) -> Result<Indexed, ParseErr>
    ensures read { MatchResult result
        (λ s. IsStatement (seen_line symbols.now) (seen_statement s))
        (λ e. HasStatementCause (seen_line symbols.now) e) }
{
    let statement = read_line(alloc, symbols)?;
    if is_line(&statement) {
        if has_few_indices(&statement) {
            Ok(statement)
        } else {
            Err(ParseErr::NotAStatement)
        }
    } else {
        Err(ParseErr::NotAStatement)
    }
}

/// The line that the symbols are, with any number of ranges beside each other, and of members.
fn read_line(alloc: Global, symbols: &[Symbol]) -> Result<Indexed, ParseErr>
    ensures read { MatchResult result
        (λ s. ReadsLine (seen_line symbols.now) (seen_statement s))
        (λ e. HasLineCause (seen_line symbols.now) e) }
{
    let Some((keyword, rest)) = front_word(symbols) else {
        return Err(ParseErr::NotAStatement);
    };
    match keyword {
        Keyword::Uncertain => Ok(Indexed::Uncertain(declared(alloc, rest)?)),
        Keyword::Var => Ok(Indexed::Var(declared(alloc, rest)?)),
        Keyword::Over => Ok(Indexed::Over(named(alloc, rest)?)),
        Keyword::Set => Ok(Indexed::Set(related(alloc, rest)?)),
        Keyword::Budget => Ok(Indexed::Budget(budget(alloc, rest)?)),
        Keyword::Adaptive => Ok(Indexed::Adaptive(policy(alloc, rest)?)),
        Keyword::Minimise => Ok(Indexed::Goal(goal(alloc, Sense::Minimise, rest)?)),
        Keyword::Maximise => Ok(Indexed::Goal(goal(alloc, Sense::Maximise, rest)?)),
        Keyword::Row => {
            let (name, sides) = row(alloc, rest)?;
            Ok(Indexed::Row(name, sides))
        }
        Keyword::In => Err(ParseErr::NotAStatement),
        Keyword::At => Err(ParseErr::NotAStatement),
        Keyword::By => Err(ParseErr::NotAStatement),
        Keyword::Sum => Err(ParseErr::NotAStatement),
        Keyword::For => Err(ParseErr::NotAStatement),
        Keyword::To => Err(ParseErr::NotAStatement),
        Keyword::Model => Err(ParseErr::NotAStatement),
        Keyword::Unused => Err(ParseErr::NotAStatement),
    }
}

/// The keyword that is the first symbol, and the symbols behind it.
fn front_word(symbols: &[Symbol]) -> Option<(Keyword, &[Symbol])>
    ensures read { MatchOption result
        ((w : is.Keyword) (rest : List is.Symbol) → seen_line symbols.now ≡ word w ∷ rest → ⊥)
        (λ p. seen_line symbols.now ≡ word (seen_keyword p.0) ∷ seen_line p.1.now) }
{
    match symbols {
        [Symbol::Reserved(keyword), rest @ ..] => Some((*keyword, rest)),
        _ => None,
    }
}

/// The goal whose objective, set and ranges are the rest of the line.
fn goal(alloc: Global, sense: Sense, symbols: &[Symbol]) -> Result<Target, ParseErr>
    ensures read { MatchResult result
        (λ g. Reads spell_goal EndsLine tree_goal (seen_line symbols.now) []
        (seen_tree g.objective, (seen_over g.over, seen_ranges g.ranges)) × (g.sense ≡ sense))
        (λ e. HasCause spell_goal EndsLine (seen_line symbols.now) e) }
{
    let ((objective, over), rest) = ending(alloc, symbols)?;
    let ranges = last_ranges(alloc, rest)?;
    Ok(Target {
        sense,
        objective,
        over,
        ranges,
    })
}

/// A row's name, and what it demands with its ranges, as the rest of a line.
fn row(alloc: Global, symbols: &[Symbol]) -> Result<(Ref, Ranged<Sides>), ParseErr>
    ensures read { MatchResult result
        (λ r. Reads spell_row EndsLine tree_row (seen_line symbols.now) []
        (seen_ref r.0, (seen_sides r.1.item, seen_ranges r.1.ranges)))
        (λ e. HasCause spell_row EndsLine (seen_line symbols.now) e) }
{
    let (name, rest) = reference(alloc, symbols)?;
    let Some(rest) = behind_mark(rest, Mark::Colon) else {
        return Err(ParseErr::NotAStatement);
    };
    let sides = related(alloc, rest)?;
    Ok((name, sides))
}
