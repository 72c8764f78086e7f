// A row's state as a mask of its open cells: bit j is set while cell j of the row is not yet looked at. A row has at most 32 cells.
ghost use Rattle.std.specs.Prelude.{◌≡◌, min, drop};
ghost use Rattle.state.specs.Mask.{bit_at, full, OpenRows, ClosedAt};
ghost use Rattle.state.specs.States.{ClosedRows};
ghost use Rattle.limits.specs.Limits.{most_rows};

use limits::ROWS;

// The mask of a row of n cells, all of them open.
pub fn row_mask(n: usize) -> u32
    ensures { result ≡ full n }
{
    if n < 32 { (1 << n) - 1 } else { 0xffffffff }
}

// The masks of a table's rows, all of their cells open: at most 64 rows that start as given, in a table of `length` cells.
pub fn open_rows(starts: &[usize; ROWS], rows: usize, length: usize) -> [u32; ROWS]
    ensures { OpenRows starts.now rows length result }
{
    let mut masks = [0; ROWS];
    let mut end = length;
    for row in (0..rows.min(ROWS)).rev() {
        let start = starts[row];
        masks[row] = row_mask(end.saturating_sub(start));
        end = start;
    }
    masks
}

// The bit of the cell at open place i of the row that begins at `start`; 32 where there is no such place.
pub fn root_at(cells: &[u32], start: usize, mask: u32, i: u32) -> usize
    ensures { result ≡ bit_at i mask (drop start cells.now) }
{
    if cells.len() <= start {
        return 32;
    }
    let mut left = mask;
    let mut bit = 0;
    let mut owed = i as usize;
    while 0 < left {
        let z = u32::trailing_zeros(left);
        bit += z as usize;
        let at = start + bit;
        if cells.len() <= at {
            return 32;
        }
        if owed == 0 {
            return bit;
        }
        owed = owed - 1 + cell::arity_of(cells[at]);
        left = left >> z >> 1;
        bit += 1;
    }
    32
}

// The cell at an open place, and the mask with that place closed; 0 and the mask itself where there is no such place.
#[derive(Clone, Copy)]
pub struct Closed {
    pub cell: u32,
    pub mask: u32,
}

pub fn close_at(cells: &[u32], start: usize, mask: u32, i: u32) -> Closed
    ensures { ClosedAt i mask (drop start cells.now) result }
{
    let bit = root_at(cells, start, mask, i);
    if bit < 32 {
        let at = start + bit;
        return Closed {
            cell: cells[at],
            mask: mask - (1 << bit),
        };
    }
    Closed { cell: 0, mask }
}

// Closes place i of the rows from first to before end, of 64 at most: the cell that each has there goes into the column, and its bit out of
// its mask. Where end is not after first there is no such row, and nothing changes.
pub fn close_rows(
    cells: &[u32],
    starts: &[usize; ROWS],
    masks: &mut [u32; ROWS],
    column: &mut [u32; ROWS],
    i: u32,
    first: usize,
    end: usize,
)
    ensures { ClosedRows cells.now starts.now masks.old column.old masks.new
        column.new i first (min end most_rows) }
{
    for row in (first..end.min(ROWS)).rev() {
        let closed = close_at(cells, starts[row], masks[row], i);
        column[row] = closed.cell;
        masks[row] = closed.mask;
    }
}
