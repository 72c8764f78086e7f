// A table's cells with one row put.
ghost use Rattle.std.specs.Prelude.{◌≡◌, cond, suc, ◌+◌, ◌-◌, ◌≤◌, ◌<◌, ltb, length, get_or};
ghost use Rattle.edits.specs.code.Joining.{Joins, Joined};
ghost use Rattle.limits.specs.Limits.{most_rows};

use crate::store::{copy, put};
use limits::ROWS;

// Where a row is put into a table of a width and so many rows: instead of the row with a number, or after the last.
#[derive(Clone, Copy)]
pub struct Place {
    pub width: usize,
    pub count: usize,
    pub number: usize,
}

// How many rows there are then.
fn count_with(at: Place) -> usize
    requires { at.number < most_rows }
    ensures { result ≡ at.number + suc (at.count - suc at.number) }
{
    if at.number < at.count {
        at.count
    } else {
        at.number + 1
    }
}

// Where a row begins, and after the last row where the table ends.
fn edge(cells: &[u32], starts: &[usize; ROWS], count: usize, r: usize) -> usize
    requires { count ≤ most_rows }
    ensures { result ≡ cond (ltb r count) (get_or starts.now r 0) (length cells.now) }
{
    if r < count { starts[r] } else { cells.len() }
}

// The table's cells with a row put, in a room that held 0: those before it, the row, those after it, and the number of rows.
// How many they are.
pub fn join(
    cells: &[u32],
    row: &[u32],
    starts: &[usize; ROWS],
    at: Place,
    next: &mut [u32],
) -> usize
    requires { Joins cells.now row.now starts.now at next.old }
    ensures { (g : Joins cells.now row.now starts.now at next.old)
        → Joined g next.new result }
{
    let start = edge(cells, starts, at.count, at.number);
    let end = edge(cells, starts, at.count, at.number + 1);
    let rest = start + row.len();
    copy(&mut *next, 0, &cells[..start]);
    copy(&mut *next, start, row);
    copy(&mut *next, rest, &cells[end..]);
    put(&mut *next, 1, count_with(at));
    rest + (cells.len() - end)
}
