//! Whether what a statement stands for fits.

ghost use Rattle.std.specs.Prelude.{◌≡◌, List as Items, true, nat_le, IfOk, MatchResult, Some};
ghost use Rattle.rob_index.specs.Counting.{lines_tokens};
ghost use Rattle.rob_index.specs.Expansion.{expand};
ghost use Rattle.rob_index.specs.Statements.{Name};
ghost use Rattle.rob_settings.specs.Room.{left_of, HasStop};
ghost use Rattle.rob_syntax.specs.Seen.{seen_statement};

use crate::line::spend_lines;
use crate::lines::line_of;
use rob_number::Memory;
use rob_settings::room::Stop;
use rob_settings::settings::settings_of;
use rob_settings::spot::thin_places;
use rob_syntax::syntax::Indexed;
use std::alloc::Global;

/// Whether the canonical lines of all that a statement stands for have at most so many tokens. Nothing of them is made.
/// Where they have, what they leave of the room is written.
pub fn has_room(
    alloc: Global,
    limit: u64,
    statement: &Indexed,
    room: &mut u32,
) -> Result<bool, Memory>
    ensures room { IfOk result (λ has_room. (words : Items Name)
        → has_room ≡ nat_le (lines_tokens limit (expand words (seen_statement statement.now))) room.old) }
    ensures left { IfOk result (λ has_room. has_room ≡ true → (words : Items Name)
        → left_of (lines_tokens limit (expand words (seen_statement statement.now))) room.old ≡ Some room.new) }
{
    match spend_statement(alloc, limit, statement, *room) {
        Ok(left) => {
            *room = left;
            Ok(true)
        }
        Err(Stop::TooMuch) => Ok(false),
        Err(Stop::Memory) => Err(Memory),
    }
}

/// What is left of the room behind all that a statement stands for.
fn spend_statement(alloc: Global, limit: u64, statement: &Indexed, room: u32) -> Result<u32, Stop>
    ensures left { MatchResult result
        (λ left. (words : Items Name)
        → left_of (lines_tokens limit (expand words (seen_statement statement.now))) room ≡ Some left)
        (λ e. (words : Items Name)
        → HasStop (left_of (lines_tokens limit (expand words (seen_statement statement.now))) room) e) }
{
    let (ranges, line) = line_of(alloc, limit, statement)?;
    let settings = settings_of(alloc, ranges.items(), &[], room)?;
    let kept = thin_places(alloc, false, line.items.items(), settings.items())?;
    spend_lines(alloc, &line, kept.items(), settings.items(), room)
}
