// A table with what is kept for every run of its rows, as one record of numbers (02, W-207).
#![tactic(auto)]

ghost use Rattle.std.specs.Prelude.{◌≡◌};
ghost use Rattle.record.specs.Record.{table_in};

use limits::{RECORD_CELLS, TABLE_CELLS};

// A cell taken as a plain number.
fn wide(c: u32) -> usize
    ensures { result ≡ c }
{
    c as usize
}

// The table's cells in a record: that part of it and no copy, empty where there can be none.
pub fn table_of(rec: &[u32; RECORD_CELLS]) -> &[u32]
    ensures { result.now ≡ table_in rec.now }
{
    let cells = &rec[..];
    let n = wide(cells[0]);
    if TABLE_CELLS < n {
        return &cells[0..0];
    }
    let end = 2 + n;
    &cells[2..end]
}
