//! Which rule of indices a line breaks, as it is named: first what the ends of its ranges show, then whether what it
//! stands for fits, then place by place. A line with `for s = 1 to 3900` is refused for it whether it fits or not, and
//! nothing is counted.

ghost use Rattle.std.specs.Prelude.{◌≡◌, ℕ, ◌+◌, ◌≤◌, List, IfOk, MatchOption, None, Some};
ghost use Rattle.rob_index.specs.Counting.{lines_tokens};
ghost use Rattle.rob_index.specs.Expansion.{expand};
ghost use Rattle.rob_index.specs.Places.{places};
ghost use Rattle.rob_index.specs.Rules.{most_tokens, rule_of};
ghost use Rattle.rob_index.specs.Search.{named, named_crowded, search_places};
ghost use Rattle.rob_index.specs.Search as spec;
ghost use Rattle.rob_index.specs.Statements.{Name};
ghost use Rattle.rob_places.specs.Tests.{is_set};
ghost use Rattle.rob_syntax.specs.Seen.{seen_statement};
ghost use Rattle.rob_rules.specs.Indices.{seen_fault, late_fault};
ghost use Rattle.rob_rules.specs.Indices as rules;

use rob_expand::has_room;
use rob_judge::judge;
use rob_lex::MOST_TOKENS;
use rob_number::Memory;
use rob_places::fault::{search_long, some_great_digits, some_out, some_unknown};
use rob_syntax::syntax::Indexed;
use std::alloc::Global;

/// What may be spent on a line that is too much.
const EFFORT: u32 = 500_000;

/// What may be wrong with the indices of a line.
#[derive(Clone, Copy, PartialEq, Eq)]
pub enum IndexFault {
    /// A name in an index isn't that of a range around, or a range's own name is taken.
    Unknown,
    /// A range has more than 100 values.
    TooLong,
    /// An index is below 0 or over 999.
    Out,
    /// The lines up to this one have too many canonical tokens.
    TooMuch,
}

impl IndexFault {
    /// The number of the rule that the fault breaks.
    pub fn rule(self) -> u8
        ensures rule { result ≡ rule_of (seen_fault self) }
    {
        match self {
            IndexFault::Unknown => 25,
            IndexFault::TooLong => 26,
            IndexFault::Out => 27,
            IndexFault::TooMuch => 28,
        }
    }
}

/// The rule of indices that a line breaks, but for the part that is judged on its plain statements. `declared` says of
/// each word whether it is declared on an earlier line, `total` how many canonical tokens the lines before have. Where
/// the line breaks none, `behind` is written: how many they have with those of the line.
pub fn judge_indices(
    alloc: Global,
    limit: u64,
    declared: &[bool],
    total: u32,
    behind: &mut u32,
    statement: &Indexed,
) -> Result<Option<IndexFault>, Memory>
    requires total { total ≤ most_tokens }
    ensures named { IfOk result (λ o. (words : List Name) → MatchOption o
        (named limit words (is_set declared.now) total (seen_statement statement.now)
        ≡ late_fault words (seen_statement statement.now))
        (λ f. named limit words (is_set declared.now) total (seen_statement statement.now)
        ≡ Some (seen_fault f))) }
    ensures behind { IfOk result (λ o. o ≡ None → (words : List Name)
        → behind.new ≡ total + lines_tokens limit (expand words (seen_statement statement.now))) }
{
    let shown = shows_long(alloc, statement)?;
    if shown {
        let early = some_unknown(alloc, declared, statement)?;
        return Ok(Some(long_fault(early)));
    }
    let mut left = MOST_TOKENS - total;
    let fits = has_room(alloc, limit, statement, &mut left)?;
    if !fits {
        let fault = judge_crowded(alloc, declared, statement)?;
        return Ok(Some(fault));
    }
    let unknown = some_unknown(alloc, declared, statement)?;
    if unknown {
        return Ok(Some(IndexFault::Unknown));
    }
    let judged = judge(alloc, limit, statement)?;
    if judged.long {
        return Ok(Some(IndexFault::TooLong));
    }
    let great = some_great_digits(alloc, statement)?;
    if great {
        return Ok(Some(IndexFault::Out));
    }
    if judged.out {
        return Ok(Some(IndexFault::Out));
    }
    *behind = MOST_TOKENS - left;
    Ok(None)
}

/// Whether the ends of the ranges alone show that some range has more than 100 values: where nothing may be spent, no
/// value is put in.
fn shows_long(alloc: Global, statement: &Indexed) -> Result<bool, Memory>
    ensures shown { IfOk result (λ shown.
        shown ≡ (search_places spec.search_long (places (seen_statement statement.now)) 0).found) }
{
    let mut left = 0;
    search_long(alloc, statement, &mut left)
}

/// The fault of a line with a range that is too long, where a name is unknown or none is.
fn long_fault(unknown: bool) -> IndexFault
    ensures fault { seen_fault result ≡ rules.long_fault unknown }
{
    if unknown {
        IndexFault::Unknown
    } else {
        IndexFault::TooLong
    }
}

/// The rule of indices that is named of a line that is too much.
fn judge_crowded(
    alloc: Global,
    declared: &[bool],
    statement: &Indexed,
) -> Result<IndexFault, Memory>
    ensures named { IfOk result (λ f. (limit total : ℕ) (words : List Name)
        → named_crowded limit words (is_set declared.now) total (seen_statement statement.now)
        ≡ seen_fault f) }
{
    let unknown = some_unknown(alloc, declared, statement)?;
    if unknown {
        return Ok(IndexFault::Unknown);
    }
    let mut left = EFFORT;
    let long = search_long(alloc, statement, &mut left)?;
    if long {
        return Ok(IndexFault::TooLong);
    }
    let out = some_out(alloc, statement, left)?;
    if out {
        return Ok(IndexFault::Out);
    }
    Ok(IndexFault::TooMuch)
}
