// A pass over the hits: for each its row and the goal made equal, then put into the room.
// The lists to work in are cleared for each goal, and most replies are far shorter than 1,024 cells: they are made in short lists, and only
// from the first on that these are too short for in lists that are long enough for any.
ghost use Rattle.std.specs.Prelude.{◌≡◌, List, ℕ, ◌≤◌, ◌<◌, length};
ghost use Rattle.table.specs.Table.{table_of, RowPlace};
ghost use Rattle.instance.specs.code.Passes.{Held};
ghost use Rattle.meeting.specs.Ended.{Lent};
ghost use Rattle.replies.specs.code.Sums.{Passing, Upto, Stops, PassedAt};
ghost use Rattle.limits.specs.Limits.{most_meeting_cells};

use limits::{MEETING_CELLS, ROWS};
use plannotes::packed::wide;
use table::Part;

// Where the cells of a hit's row are in an accepted table: a row ends where the next one starts, and the last where the table ends. Numbers
// are cut to what there are places for.
fn row_at(table: &[u32], starts: &[usize; ROWS], rows: usize, hit: u8) -> Part
    ensures { Held table.now starts.now rows → hit < rows → RowPlace (table_of table.now) hit result }
{
    let r = wide(hit) % ROWS;
    let start = starts[r];
    let next = r + 1;
    if next < rows {
        let end = starts[next % ROWS];
        return Part { start, end };
    }
    Part {
        start,
        end: table.len(),
    }
}

// How far a pass has come: so many hits are done, their replies have so many cells together, and the room is filled up to a place.
#[derive(Drop)]
pub struct Done {
    pub hits: usize,
    pub cells: usize,
    pub on: usize,
}

// The replies of the hits, put one after another into the room as far as it goes: up to the first that the two lent lists are too short for.
fn pass_in(
    table: &[u32],
    starts: &[usize; ROWS],
    rows: usize,
    goal: &[u32],
    hits: &[u8],
    cells: &mut [u32],
    other: &mut [u32],
    room: &mut [u32],
) -> Done
    requires { length cells.old ≤ most_meeting_cells }
    ensures { Upto table.now starts.now rows goal.now hits.now room.old room.new result
        × (Lent cells.old other.old → Stops table.now starts.now rows goal.now
        hits.now result) }
{
    let mut sum = 0;
    let mut on = 0;
    if ROWS < hits.len() {
        return Done {
            hits: 0,
            cells: sum,
            on,
        };
    }
    for (i, &hit) in hits.iter().enumerate() {
        let p = row_at(table, starts, rows, hit);
        let row = slices::cells::part(table, p.start, p.end);
        match meeting::common(row, goal, cells, other) {
            Some(n) => {
                on = rewrite::put_numbered(room, on, &cells[..n]);
                sum += n;
            }
            None => {
                return Done {
                    hits: i,
                    cells: sum,
                    on,
                };
            }
        }
    }
    Done {
        hits: hits.len(),
        cells: sum,
        on,
    }
}

// In lists for replies of up to 64 cells or so.
fn pass_short(
    table: &[u32],
    starts: &[usize; ROWS],
    rows: usize,
    goal: &[u32],
    hits: &[u8],
    room: &mut [u32],
) -> Done
    ensures { Upto table.now starts.now rows goal.now hits.now room.old room.new result }
{
    let mut cells = [0u32; 128];
    let mut other = [0u32; 129];
    pass_in(
        table, starts, rows, goal, hits, &mut cells, &mut other, room,
    )
}

// In lists that are long enough for any reply of up to 1,024 cells.
fn pass_long(
    table: &[u32],
    starts: &[usize; ROWS],
    rows: usize,
    goal: &[u32],
    hits: &[u8],
    room: &mut [u32],
) -> Done
    ensures { Upto table.now starts.now rows goal.now hits.now room.old room.new result
        × Stops table.now starts.now rows goal.now hits.now result }
{
    let mut cells = [0u32; MEETING_CELLS];
    let mut other = [0u32; 2049];
    pass_in(
        table, starts, rows, goal, hits, &mut cells, &mut other, room,
    )
}

// The replies of the hits, put one after another into the room as far as it goes: how many cells they have together, or None where one has
// over 1,024.
pub fn pass(
    table: &[u32],
    starts: &[usize; ROWS],
    rows: usize,
    goal: &[u32],
    hits: &[u8],
    room: &mut [u32],
) -> Option<usize>
    ensures { (all : List (List ℕ)) → Passing table.now starts.now rows goal.now hits.now all
        → PassedAt room.old room.new all result }
{
    let short = pass_short(table, starts, rows, goal, hits, room);
    let i = short.hits;
    let on = short.on;
    if i == hits.len() {
        return Some(short.cells);
    }
    let long = pass_long(table, starts, rows, goal, &hits[i..], &mut room[on..]);
    if long.hits < hits.len() - i {
        return None;
    }
    Some(short.cells + long.cells)
}
