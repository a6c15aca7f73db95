//! How many ranges may stand beside each other, and that a budget has a member.

ghost use Rattle.std.specs.Prelude.{◌≡◌, map, MatchBool};
ghost use Rattle.rob_index.specs.Lines.{IsLine};
ghost use Rattle.rob_syntax.specs.Few as spec;
ghost use Rattle.rob_syntax.specs.Seen.{seen_ranged, seen_ranges, seen_ref, seen_share, seen_statement};

use crate::syntax::{Indexed, Range, Ranged, Ref, Share};
use rob_number::List;

/// The ranges that may stand beside each other.
const MOST_RANGES: usize = 2;

/// Whether no more than two ranges stand beside each other, and a budget has a member.
pub fn is_line(statement: &Indexed) -> bool
    ensures line { MatchBool result (IsLine (seen_statement statement.now))
        (IsLine (seen_statement statement.now) → ⊥) }
{
    is_within(statement)
}

/// The same, as it is tested.
fn is_within(statement: &Indexed) -> bool
    ensures line { result ≡ spec.is_line (seen_statement statement.now) }
{
    match statement {
        Indexed::Uncertain(d) => are_few(&d.ranges),
        Indexed::Over(x) => are_few(&x.ranges),
        Indexed::Set(x) => are_few(&x.ranges),
        Indexed::Budget(b) => all_members_few(b.members.items()) && has_some(b.members.items()),
        Indexed::Var(d) => are_few(&d.ranges),
        Indexed::Adaptive(p) => all_entries_few(p.on.items()) && are_few(&p.ranges),
        Indexed::Goal(g) => are_few(&g.ranges),
        Indexed::Row(_, x) => are_few(&x.ranges),
    }
}

/// Whether there are at most two ranges.
fn are_few(ranges: &List<Range>) -> bool
    ensures few { result ≡ spec.are_few (seen_ranges ranges.now) }
{
    ranges.items().len() <= MOST_RANGES
}

/// Whether there is a member.
fn has_some(members: &[Ranged<Share>]) -> bool
    ensures some { result ≡ spec.has_some (map (seen_ranged seen_share) members.now) }
{
    !members.is_empty()
}

/// Whether each member has at most two ranges.
fn all_members_few(members: &[Ranged<Share>]) -> bool
    ensures few { result ≡ spec.all_few (map (seen_ranged seen_share) members.now) }
{
    for member in members {
        if !are_few(&member.ranges) {
            return false;
        }
    }
    true
}

/// Whether each entry has at most two ranges.
fn all_entries_few(entries: &[Ranged<Ref>]) -> bool
    ensures few { result ≡ spec.all_few (map (seen_ranged seen_ref) entries.now) }
{
    for entry in entries {
        if !are_few(&entry.ranges) {
            return false;
        }
    }
    true
}
