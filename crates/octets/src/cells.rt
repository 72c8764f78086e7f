// Cells put into a lent room, as bytes or as cells, from a place on. Each function answers the place after them. What has no room is
// left out.
ghost use Rattle.std.specs.Prelude.{[], ◌∷◌};
ghost use Rattle.octets.specs.Octets.{Put, bytes_in, bytes_of};

use super::{put_all, put_byte, put_one};

// The four bytes of a cell, the least significant first.
pub fn write_cell(out: &mut [u8], to: usize, c: u32) -> usize
    ensures { Put out.old out.new to (bytes_in c) result }
{
    let [low, second, third, high] = c.to_le_bytes();
    let a = put_byte(out, to, low);
    let b = put_byte(out, a, second);
    let d = put_byte(out, b, third);
    put_byte(out, d, high)
}

// Those of cells, one after another.
pub fn write_cells(out: &mut [u8], to: usize, cells: &[u32]) -> usize
    ensures { Put out.old out.new to (bytes_of cells.now) result }
{
    let mut on = to;
    for cell in cells {
        on = write_cell(out, on, *cell);
    }
    on
}

// A cell put into a room of cells.
pub fn put_cell(out: &mut [u32], to: usize, c: u32) -> usize
    ensures { Put out.old out.new to (c ∷ []) result }
{
    put_one(out, to, c)
}

// Cells put into it, one after another.
pub fn put_cells(out: &mut [u32], to: usize, cells: &[u32]) -> usize
    ensures { Put out.old out.new to cells.now result }
{
    put_all(out, to, cells)
}
