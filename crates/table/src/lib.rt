// Tables, goals and rows (01, "Tables and goals").
#![tactic(auto)]

mod terms;

ghost use Rattle.std.specs.Prelude.{◌≡◌, [], ◌≤◌, length, drop};
ghost use Rattle.refusal.specs.Refusal.{told, refused};
ghost use Rattle.refusal.specs.declared.Input.TheVariants as input;
ghost use Rattle.refusal.specs.Read.{read, and_then};
ghost use Rattle.table.specs.Table.{table, rows_from, table_of, goal_of, goal_with, row_of, row_in};
ghost use Rattle.samerows.specs.Starts.{rows_lent};
ghost use Rattle.table.specs.Table.{TableReads, RowPlace, goal_told, goal_says, row_told};
ghost use Rattle.limits.specs.Limits.{most_rows};

use limits::{COLUMNS, ROW_CELLS, ROWS, TABLE_CELLS};
use refusal::{Input, Reason, Refusal};

// The size of a table.
#[derive(Clone, Copy)]
pub struct TableSize {
    pub width: usize,
    pub rows: usize,
}

// A table that is read: its size, and where each row starts, as many as there are rows; the rest is 0.
#[derive(Clone, Copy)]
pub struct TableRead {
    pub width: usize,
    pub rows: usize,
    pub starts: [usize; ROWS],
}

// A goal that is read: its number of cells and of variables.
#[derive(Clone, Copy)]
pub struct GoalSize {
    pub cells: usize,
    pub vars: usize,
}

// Where the cells of a row are in the table: from a start up to an end, both 0 where there is no such row.
#[derive(Clone, Copy)]
pub struct Part {
    pub start: usize,
    pub end: usize,
}

// Why a table is turned away.
fn turned(reason: Reason, place: usize) -> Refusal
    ensures { told result ≡ refused reason input.Table place }
{
    Refusal {
        reason,
        input: Input::Table,
        place,
    }
}

// So many rows from the third cell on, and nothing after them.
fn read_rows(cells: &[u32], width: usize, rows: usize) -> Result<TableRead, Refusal>
    requires { (2 ≤ length cells.now) × (rows ≤ most_rows) }
    ensures { TableReads (and_then (rows_from width rows [] (drop 2 cells.now) 2) (λ rows. read (table width rows))) result }
{
    let mut starts = [0; ROWS];
    let mut marks = [0u32; ROWS];
    let mut at: usize = 2;
    for n in 0..rows {
        let row = terms::read_terms(cells, at, width, true)?;
        if row.vars == 0
            && samerows::seen_before(
                &cells[at..row.end],
                row.mark,
                &cells[..at],
                &starts[..n],
                &marks[..n],
            )
        {
            return Err(turned(Reason::Same, at));
        }
        starts[n] = at;
        marks[n] = row.mark;
        at = row.end;
    }
    if at < cells.len() {
        return Err(turned(Reason::Extra, at));
    }
    Ok(TableRead {
        width,
        rows,
        starts,
    })
}

// A table: any cells at all. Each cell of each row is looked at once, in `terms`.
pub fn read_table(cells: &[u32]) -> Result<TableRead, Refusal>
    ensures { TableReads (table_of cells.now) result }
{
    if cells.len() < 2 || TABLE_CELLS < cells.len() {
        return Err(turned(Reason::Length, 0));
    }
    let width = cells[0] as usize;
    if width < 1 || COLUMNS < width {
        return Err(turned(Reason::Width, 0));
    }
    let rows = cells[1] as usize;
    if rows < 1 || ROWS < rows {
        return Err(turned(Reason::Count, 1));
    }
    read_rows(cells, width, rows)
}

// A goal for a table of a width: any width, any cells.
pub fn goal_for(width: usize, goal: &[u32]) -> Result<GoalSize, Refusal>
    ensures { goal_told result ≡ goal_says goal.now (goal_of width goal.now) }
{
    if goal.len() < 1 || ROW_CELLS < goal.len() {
        return Err(terms::refusal(false, Reason::Length, 0));
    }
    let read = terms::read_terms(goal, 0, width, false)?;
    if 0 < goalreader::cells_left(goal, read.end) {
        return Err(terms::refusal(false, Reason::Extra, read.end));
    }
    Ok(GoalSize {
        cells: goal.len(),
        vars: read.vars,
    })
}

// A goal with its table: the table's refusal comes first.
pub fn read_goal(table: &[u32], goal: &[u32]) -> Result<GoalSize, Refusal>
    ensures { goal_told result ≡ goal_says goal.now (goal_with table.now goal.now) }
{
    let read = read_table(table)?;
    goal_for(read.width, goal)
}

// A row for a table of a width, any cells, beside the rows that start at these places of some cells: each ends where the next one starts,
// and the last with the cells. Row `but` is left out: the new one takes its place. How many variables the row has.
pub fn row_beside(
    width: usize,
    cells: &[u32],
    starts: &[usize],
    but: usize,
    row: &[u32],
) -> Result<usize, Refusal>
    ensures { row_told result ≡ row_of width (rows_lent cells.now starts.now but) row.now }
{
    let read = terms::read_terms(row, 0, width, true)?;
    if read.vars == 0 && samerows::stands_among(&row[..read.end], cells, starts, but) {
        return Err(terms::refusal(true, Reason::Same, 0));
    }
    if read.end < row.len() {
        return Err(terms::refusal(true, Reason::Extra, read.end));
    }
    Ok(read.vars)
}

// Where the r-th row is in its table. A row ends where the next one starts, and the last where the table ends.
pub fn row_place(cells: &[u32], r: usize) -> Part
    ensures { RowPlace (table_of cells.now) r result }
{
    let Ok(read) = read_table(cells) else {
        return Part { start: 0, end: 0 };
    };
    if read.rows <= r {
        return Part { start: 0, end: 0 };
    }
    let start = read.starts[r];
    let end = if r + 1 < read.rows {
        read.starts[r + 1]
    } else {
        cells.len()
    };
    Part { start, end }
}

// The r-th row: that part of the lent table and no copy, empty where there is no such row.
pub fn row(cells: &[u32], r: usize) -> &[u32]
    ensures { result.now ≡ row_in (table_of cells.now) r }
{
    let p = row_place(cells, r);
    &cells[p.start..p.end]
}
