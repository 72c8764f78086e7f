// A record, which is a table with what is kept for every run of its rows, worked out and edited. With any record
// at all an edit ends, in bounds: the table's part is read again, so that the rows are where the reading says, whatever the
// rest holds. Where it is no table, its refusal is answered. Nothing is written before the last test.
#![tactic(auto)]

mod rows;
mod store;

ghost use Rattle.std.specs.Prelude.{◌≡◌, List, ℕ, ◌≤◌, ◌<◌, length};
ghost use Rattle.refusal.specs.Refusal.{told, refused};
ghost use Rattle.refusal.specs.declared.Input.TheVariants as input;
ghost use Rattle.refusal.specs.Read.{read};
ghost use Rattle.table.specs.Table.{Table, table_says, table_told};
ghost use Rattle.record.specs.Record.{Holds};
ghost use Rattle.record.specs.Edits.{WorkedOut, Edit, Edited, edit_of, append, drop-last, replace};
ghost use Rattle.record.specs.code.Rows.{table_with, put_row};
ghost use Rattle.record.specs.code.Zeros.{Cleared};
ghost use Rattle.edits.specs.code.Joining.{Ready, Placed};
ghost use Rattle.limits.specs.Limits.{kept_cells, most_rows, most_table_cells};

use least::By;
use limits::{RECORD_CELLS, ROWS, TABLE_CELLS};
use refusal::{Input, Reason, Refusal};
use rows::Place;
use table::TableSize;

// What is kept for the pairs that end at a row becomes 0.
fn clear_pairs(kept: &mut [u32], last: usize)
    requires { (length kept.old ≡ kept_cells) × (last < most_rows) }
    ensures { Cleared last kept.old kept.new }
{
    for first in 0..ROWS {
        let pair = ROWS * first + last;
        kept[pair] = 0;
        kept[4096 + pair] = 0;
        kept[8192 + pair] = 0;
    }
}

// Why an edit is turned away before a row is looked at.
fn turned_away(reason: Reason) -> Refusal
    ensures { told result ≡ refused reason input.Table 0 }
{
    Refusal {
        reason,
        input: Input::Table,
        place: 0,
    }
}

// A record comes to hold the table whose cells are the first in `next`, of which row r alone is new. Only the pairs with that
// row are worked out, those that begin before row r + 1 and end at row r or later; then the cells and their number are put.
fn work_again(
    rec: &mut [u32; RECORD_CELLS],
    next: &[u32; TABLE_CELLS],
    size: usize,
    r: usize,
) -> Result<TableSize, Refusal>
    requires { (size ≤ most_table_cells) × (r < most_rows) }
    ensures { (figure : ℕ) (T : Table) (row : List ℕ) → Holds rec.old figure T → Ready T r row next.now size
        → Holds rec.new figure (table_with T r row) × (table_told result ≡ table_says (read (table_with T r row))) }
{
    let all = &mut rec[..];
    let figure = all[1];
    let room = &next[..];
    let read = paircosts::fill(
        By::Work(figure),
        0,
        &room[..size],
        &mut all[2052..],
        r + 1,
        r,
    )?;
    store::copy(&mut *all, 2, room);
    store::put(&mut *all, 0, size);
    Ok(TableSize {
        width: read.width,
        rows: read.rows,
    })
}

// A row is put at its place: LONG to FRESH, SAME, EXTRA for the row beside the others, and then the record of the table with
// it. The new table's cells are joined in a room of their own, since those of the old one are still to be read.
fn put_row(
    rec: &mut [u32; RECORD_CELLS],
    row: &[u32],
    starts: &[usize; ROWS],
    at: Place,
) -> Result<TableSize, Refusal>
    requires { Placed rec.old starts.now at }
    ensures { (g : Placed rec.old starts.now at) (figure : ℕ) (e : Edit)
        → Holds rec.old figure g.rows.table
        → edit_of e g.rows.table ≡ put_row g.rows.table at.number row.now
        → Edited e figure g.rows.table rec.old rec.new (table_told result) }
{
    let cells = record::table_of(&*rec);
    let noted = &starts[..];
    let count = at.count;
    table::row_beside(at.width, cells, &noted[..count], at.number, row)?;
    let mut next = [0; TABLE_CELLS];
    let size = rows::join(cells, row, starts, at, &mut next[..]);
    work_again(rec, &next, size, at.number)
}

// Works a record out for a table and a figure: any cells, any figure. Whatever it held is cleared, so that there is 0 behind
// the cells and where there is no pair.
pub fn work_out(
    cells: &[u32],
    figure: u32,
    rec: &mut [u32; RECORD_CELLS],
) -> Result<TableSize, Refusal>
    ensures { WorkedOut figure cells.now rec.old rec.new (table_told result) }
{
    let read = measuring::read_by(By::Work(figure), cells)?;
    let all = &mut rec[..];
    store::clear(&mut *all, 2, RECORD_CELLS);
    store::copy(&mut *all, 2, cells);
    let _ = paircosts::fill(By::Work(figure), 0, cells, &mut all[2052..], ROWS, 0);
    store::put(&mut *all, 0, cells.len());
    all[1] = figure;
    Ok(TableSize {
        width: read.width,
        rows: read.rows,
    })
}

// Drops the last row, unless it is the only one: its cells and what is kept for the pairs that end there become 0.
pub fn drop_last(rec: &mut [u32; RECORD_CELLS]) -> Result<TableSize, Refusal>
    ensures { (figure : ℕ) (T : Table) → Holds rec.old figure T
        → Edited drop-last figure T rec.old rec.new (table_told result) }
{
    let cells = record::table_of(&*rec);
    let size = cells.len();
    let read = table::read_table(cells)?;
    if read.rows <= 1 {
        return Err(turned_away(Reason::Last));
    }
    let last = read.rows - 1;
    let start = read.starts[last];
    let all = &mut rec[..];
    store::clear(&mut *all, 2 + start, 2 + size);
    clear_pairs(&mut all[2052..], last);
    store::put(&mut *all, 0, start);
    store::put(&mut *all, 3, last);
    Ok(TableSize {
        width: read.width,
        rows: last,
    })
}

// Appends a row, any cells, to fewer than 64.
pub fn append(rec: &mut [u32; RECORD_CELLS], row: &[u32]) -> Result<TableSize, Refusal>
    ensures { (figure : ℕ) (T : Table) → Holds rec.old figure T
        → Edited (append row.now) figure T rec.old rec.new (table_told result) }
{
    let read = table::read_table(record::table_of(&*rec))?;
    if ROWS <= read.rows {
        return Err(turned_away(Reason::Full));
    }
    let at = Place {
        width: read.width,
        count: read.rows,
        number: read.rows,
    };
    put_row(rec, row, &read.starts, at)
}

// Replaces row r, any number, by a row, any cells.
pub fn replace(rec: &mut [u32; RECORD_CELLS], r: usize, row: &[u32]) -> Result<TableSize, Refusal>
    ensures { (figure : ℕ) (T : Table) → Holds rec.old figure T
        → Edited (replace r row.now) figure T rec.old rec.new (table_told result) }
{
    let read = table::read_table(record::table_of(&*rec))?;
    if read.rows <= r {
        return Err(turned_away(Reason::Index));
    }
    let at = Place {
        width: read.width,
        count: read.rows,
        number: r,
    };
    put_row(rec, row, &read.starts, at)
}
