// What is kept for every pair of first and last row of a table.
#![tactic(auto)]

mod arrays;

ghost use Rattle.paircosts.specs.Fill.{Fills};

use arrays::Asked;
use least::By;
use limits::KEPT_CELLS;
use refusal::Refusal;
use table::TableRead;

// Reads a table, any cells at all, and works out the pairs of its rows that begin before row `top` and end at row `since` or
// later, in an array of 12,288 numbers that is lent, in three parts, each pair at 64 times the first row plus the last: what
// its rows cost with nothing closed, which the others are worked out from; the pair's least cost, from 4,096 on; and its
// chosen place, from 8,192 on. These are of plans that look into named columns first, a bit of `named` for each
// column; 0 names none. All other numbers stay as they are; so does every number where the figure or the table is turned away,
// and an array of any other length.
pub fn fill(
    by: By,
    named: u64,
    cells: &[u32],
    kept: &mut [u32],
    top: usize,
    since: usize,
) -> Result<TableRead, Refusal>
    ensures { Fills by named cells.now top since kept.old kept.new result }
{
    let read = measuring::read_by(by, cells)?;
    if kept.len() == KEPT_CELLS {
        let asked = Asked {
            figure: measuring::figure_of(by),
            named,
            count: read.rows,
            top,
            since,
        };
        arrays::asked_pairs(by, cells, &read.starts, kept, asked);
    }
    Ok(read)
}
