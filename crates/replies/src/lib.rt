// What a run's hits say: for each the goal with the row's bindings filled in. The run decides by its plan which rows are hits;
// what follows it tests only how long a reply is.
#![tactic(auto)]

ghost use Rattle.std.specs.Prelude.{List, ℕ, ◌≡◌};
ghost use Rattle.refusal.specs.Refusal.{refused, turned};
ghost use Rattle.instance.specs.Replied.{Replied, replies_told};
ghost use Rattle.instance.specs.code.Passes.{Held, Found};

mod pass;

use instance::ReplyCounts;
use limits::{MEETING_CELLS, ROWS};
use octets::cells::put_cells;
use pass::pass;
use refusal::{Input, Reason, Refusal};

fn turned_away(reason: Reason, input: Input, place: usize) -> Result<ReplyCounts, Refusal>
    ensures { replies_told result ≡ turned (refused reason input place) }
{
    Err(Refusal {
        reason,
        input,
        place,
    })
}

// The replies of the hits of a table. Their cells are put into a list first: there is no knowing before the last whether one has over 1,024, and
// then the room is left as it is. Where the list is too short for them, they are made once more, in the room.
fn put_by(
    table: &[u32],
    starts: &[usize; ROWS],
    rows: usize,
    goal: &[u32],
    hits: &[u8],
    list: &mut [u32],
    room: &mut [u32],
) -> Result<ReplyCounts, Refusal>
    ensures { (plan : List ℕ) → Held table.now starts.now rows
        → Found table.now plan goal.now hits.now → Replied
        table.now plan goal.now room.old room.new result }
{
    match pass(table, starts, rows, goal, hits, list) {
        None => turned_away(Reason::Big, Input::Goal, 0),
        Some(needed) => {
            if room.len() < needed {
                return turned_away(Reason::Room, Input::Lent, needed);
            }
            if needed <= list.len() {
                put_cells(room, 0, &list[..needed]);
                return Ok(ReplyCounts {
                    replies: hits.len(),
                    cells: needed,
                });
            }
            pass(table, starts, rows, goal, hits, room);
            Ok(ReplyCounts {
                replies: hits.len(),
                cells: needed,
            })
        }
    }
}

// The replies by way of a list that is long enough for most replies of so many hits: it is cleared for each goal.
// Table, goal and hits may be anything: what they have to be stands as a premise inside the `ensures`.
pub fn put_replies(
    table: &[u32],
    starts: &[usize; ROWS],
    rows: usize,
    goal: &[u32],
    hits: &[u8],
    room: &mut [u32],
) -> Result<ReplyCounts, Refusal>
    ensures { (plan : List ℕ) → Held table.now starts.now rows
        → Found table.now plan goal.now hits.now → Replied
        table.now plan goal.now room.old room.new result }
{
    if hits.len() <= 8 {
        let mut few = [0u32; 512];
        return put_by(table, starts, rows, goal, hits, &mut few, room);
    }
    let mut many = [0u32; MEETING_CELLS];
    put_by(table, starts, rows, goal, hits, &mut many, room)
}

// The replies of what a run has found.
fn reply_all(
    table: &[u32],
    goal: &[u32],
    hits: &[u8],
    room: &mut [u32],
) -> Result<ReplyCounts, Refusal>
    ensures { (plan : List ℕ) → Found table.now plan goal.now hits.now → Replied
        table.now plan goal.now room.old room.new result }
{
    match table::read_table(table) {
        Ok(read) => put_replies(table, &read.starts, read.rows, goal, hits, room),
        Err(f) => Err(f),
    }
}

// Runs a plan on a goal and writes the reply of each hit, one after another, from the room's first cell on. What is turned away, in this
// order: the table, the plan, the goal; a reply of over 1,024 cells; the room.
pub fn replies(
    table: &[u32],
    plan: &[u32],
    goal: &[u32],
    room: &mut [u32],
) -> Result<ReplyCounts, Refusal>
    ensures { Replied table.now plan.now goal.now room.old room.new result }
{
    let mut hits = [0u8; ROWS];
    let ran = run::run_plan(table, plan, goal, &mut hits)?;
    reply_all(table, goal, &hits[..ran.hits], room)
}
