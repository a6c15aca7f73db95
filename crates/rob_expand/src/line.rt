//! How many tokens the canonical lines of a statement have, counted without making them.

ghost use Rattle.std.specs.Prelude.{◌≡◌, ◌+◌, ◌≤◌, ◌&&◌, map, true, false, Some, IfOk, MatchResult};
ghost use Rattle.rob_settings.specs.Room.{HasStop, left_of};
ghost use Rattle.rob_expand.specs.Lines.{line_left, trees_left, items_left, entries_tokens};
ghost use Rattle.rob_expand.specs.Placed.{placed_of};
ghost use Rattle.rob_settings.specs.Settings.{all_left};
ghost use Rattle.rob_settings.specs.Spots.{IsThinAt, picks};
ghost use Rattle.rob_ranges.specs.Spans.{Every};

use crate::count::count_in;
use crate::placed::Placed;
use rob_number::List;
use rob_ranges::Whole;
use rob_settings::item::{Item, Named};
use rob_settings::room::{Stop, spend};
use rob_settings::settings::Setting;
use rob_settings::spot::{middle, one_at, thin_in};
use std::alloc::Global;

/// What of a statement has tokens or names: so many tokens in any setting, the name that is declared, expressions, the
/// items of a list, and the name behind `over`.
pub struct Line {
    /// What digits have to be within.
    pub limit: u64,
    pub base: u32,
    pub head: Option<Named>,
    pub trees: List<Placed>,
    pub items: List<Item>,
    pub over: Option<Named>,
}

impl Drop for Line {
    /// Lets go of it in one call. A derived drop would stand in each function that does.
    fn drop(self) {
        let Line {
            limit: _limit,
            base: _base,
            head: _head,
            trees: _trees,
            items: _items,
            over: _over,
        } = self;
    }
}

/// What is left behind the lines of some settings, in which no items but those at these places have entries. The
/// settings are parted, and in each part those places are left out that have no entry there: so a count that ends for
/// want of room has told the places of few settings.
pub fn spend_lines(
    alloc: Global,
    line: &Line,
    kept: &[usize],
    settings: &[Setting],
    room: u32,
) -> Result<u32, Stop>
    requires thin { Every (IsThinAt false line.now.items kept.now) settings.now }
    ensures left { MatchResult result
        (λ left. all_left (line_left line.now) settings.now room ≡ Some left)
        (λ e. HasStop (all_left (line_left line.now) settings.now room) e) }
{
    match settings {
        [] => Ok(room),
        [setting] => spend_line(alloc, line, kept, setting.items(), room),
        _ => {
            let (front, behind) = settings.split_at(middle(settings));
            let items = line.items.items();
            let first = thin_in(alloc, false, items, kept, front)?;
            let left = spend_lines(alloc, line, first.items(), front, room)?;
            let second = thin_in(alloc, false, items, kept, behind)?;
            spend_lines(alloc, line, second.items(), behind, left)
        }
    }
}

/// What is left behind a line, where no items but those at these places have entries.
fn spend_line(
    alloc: Global,
    line: &Line,
    kept: &[usize],
    values: &[Whole],
    room: u32,
) -> Result<u32, Stop>
    requires thin { IsThinAt false line.now.items kept.now values.now }
    ensures left { MatchResult result
        (λ left. line_left line.now values.now room ≡ Some left)
        (λ e. HasStop (line_left line.now values.now room) e) }
{
    let left = spend(line.base, room)?;
    let left = spend_trees(alloc, line.limit, line.trees.items(), values, left)?;
    spend_kept(alloc, line.items.items(), kept, values, left)
}

/// What is left behind some expressions.
fn spend_trees(
    alloc: Global,
    limit: u64,
    trees: &[Placed],
    values: &[Whole],
    room: u32,
) -> Result<u32, Stop>
    ensures left { MatchResult result
        (λ left. trees_left limit (map placed_of trees.now) values.now room ≡ Some left)
        (λ e. HasStop (trees_left limit (map placed_of trees.now) values.now room) e) }
{
    let mut left = room;
    for tree in trees {
        let counted = count_in(alloc, limit, tree, values, left)?;
        left = counted.left;
    }
    Ok(left)
}

/// What is left behind the items at some places of a list.
fn spend_kept(
    alloc: Global,
    items: &[Item],
    kept: &[usize],
    values: &[Whole],
    room: u32,
) -> Result<u32, Stop>
    ensures left { MatchResult result
        (λ left. items_left true (picks items.now kept.now) values.now room ≡ Some left)
        (λ e. HasStop (items_left true (picks items.now kept.now) values.now room) e) }
{
    let mut left = room;
    let mut first = true;
    for k in kept {
        let behind = spend_items(alloc, first, one_at(items, *k), values, left)?;
        first = both(first, behind == left);
        left = behind;
    }
    Ok(left)
}

/// Whether both hold.
fn both(first: bool, second: bool) -> bool
    ensures both { result ≡ (first && second) }
{
    first && second
}

/// What is left behind some items of a list, of which the first entry is the first of the list or isn't.
fn spend_items(
    alloc: Global,
    begins: bool,
    items: &[Item],
    values: &[Whole],
    room: u32,
) -> Result<u32, Stop>
    ensures left { MatchResult result
        (λ left. items_left begins items.now values.now room ≡ Some left)
        (λ e. HasStop (items_left begins items.now values.now room) e) }
{
    let mut left = room;
    let mut first = begins;
    for item in items {
        let settings = item.ranges.settings_up_to(alloc, values, left)?;
        let entries = settings.items().len() as u32;
        let behind = spend_entries(first, item.behind, entries, left)?;
        left = behind;
        first = first && entries == 0;
    }
    Ok(left)
}

/// What is left behind some entries, a `,` in front of each but the first of the list.
fn spend_entries(first: bool, behind: u32, entries: u32, room: u32) -> Result<u32, Stop>
    ensures left { MatchResult result
        (λ left. left_of (entries_tokens first (1 + behind) entries) room ≡ Some left)
        (λ e. HasStop (left_of (entries_tokens first (1 + behind) entries) room) e) }
    ensures within { IfOk result (λ left. left ≤ room) }
{
    let tokens = tokens_of_entries(first, behind, entries);
    if tokens <= u64::from(room) {
        Ok(room - tokens as u32)
    } else {
        Err(Stop::TooMuch)
    }
}

/// The tokens of some entries, a `,` in front of each but the first of the list.
fn tokens_of_entries(first: bool, behind: u32, entries: u32) -> u64
    ensures tokens { result ≡ entries_tokens first (1 + behind) entries }
{
    if entries == 0 {
        return 0;
    }
    let all = u64::from(entries) * (2 + u64::from(behind));
    if first { all - 1 } else { all }
}
