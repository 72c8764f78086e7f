// A goal's text, read for a caller that lends rooms of any size: by the predicate of the facts' text, into a room for its cells and one for
// the names that the facts have not. Both are read on this side first, for a goal has at most 32 cells, so that nothing is written where
// anything is refused.
#![tactic(auto)]

ghost use Rattle.std.specs.Prelude.{◌≡◌};
ghost use Rattle.refusal.specs.Refusal.{refused, turned};
ghost use Rattle.refusal.specs.declared.Reason.TheVariants as reason;
ghost use Rattle.refusal.specs.declared.Input.TheVariants as input;
ghost use Rattle.goaltext.specs.Asked.{goal_text_told};
ghost use Rattle.goalroom.specs.Rooms.{GoalInto};

use goaltext::GoalTextSize;
use limits::ROW_CELLS;
use octets::cells::put_cells;
use refusal::{Input, Reason, Refusal};

// A lent room that is too small: so many are needed.
fn no_room(need: usize) -> Result<GoalTextSize, Refusal>
    ensures { goal_text_told result ≡ turned (refused reason.Room input.Lent need) }
{
    Err(Refusal {
        reason: Reason::Room,
        input: Input::Lent,
        place: need,
    })
}

// The cells of a goal and its names that the facts have not, at the front of the two rooms: how many of each.
pub fn read_goal_text(
    text: &[u8],
    names: &[u32],
    goal: &[u8],
    cells: &mut [u32],
    new: &mut [u32],
) -> Result<GoalTextSize, Refusal>
    ensures { GoalInto text.now names.now goal.now cells.old cells.new
        new.old new.new result }
{
    let p = goaltext::predicate_of(text);
    let mut made = [0u32; ROW_CELLS];
    let mut list = [0u32; ROW_CELLS];
    let size = goaltext::read_goal(text, names, p, goal, &mut made, &mut list)?;
    let n = size.cells;
    let k = size.names;
    if cells.len() < n {
        return no_room(n);
    }
    if new.len() < k {
        return no_room(k);
    }
    put_cells(cells, 0, &made[..n]);
    put_cells(new, 0, &list[..k]);
    Ok(size)
}
