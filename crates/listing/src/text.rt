// The lines of a listing, put into a lent room as the functions of `octets` put their texts.
ghost use Rattle.octets.specs.Octets.{Put};
ghost use Rattle.listing.specs.Listing.{line, header};

use octets::{put_byte, put_decimal, put_field, put_word};
use printing::put_symbol;

// What a branch's line says: how many branches are above it, the index of its state, its symbol, its first row and its last.
#[derive(Clone, Copy)]
pub struct Branch {
    pub depth: usize,
    pub index: u32,
    pub symbol: u32,
    pub first: usize,
    pub last: usize,
}

// A branch's line.
pub fn put_line(out: &mut [u8], to: usize, branch: Branch) -> usize
    ensures { Put out.old out.new to (line branch.depth branch.index branch.symbol branch.first branch.last) result }
{
    let p = put_field(out, to, branch.depth, b' ');
    let q = put_field(out, p, branch.index as usize, b' ');
    let r = put_symbol(out, q, branch.symbol);
    let s = put_byte(out, r, b' ');
    let t = put_field(out, s, branch.first, b'-');
    put_field(out, t, branch.last, b'\n')
}

// The first line of a listing, at the front of the room.
pub fn put_header(out: &mut [u8], rows: usize, width: usize, cost: usize) -> usize
    ensures { Put out.old out.new 0 (header rows width cost) result }
{
    let p = put_word(out, 0, b"rows ");
    let q = put_decimal(out, p, rows);
    let r = put_word(out, q, b" width ");
    let s = put_decimal(out, r, width);
    let t = put_word(out, s, b" edges ");
    put_field(out, t, cost, b'\n')
}
