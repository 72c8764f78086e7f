// Bytes of numbers and words, and cells read from bytes. Each function that puts something puts it into a lent room from a
// place on and answers the place after it. What has no room is left out, so that nobody has to measure first.
#![tactic(auto)]

pub mod cells;

ghost use Rattle.std.specs.Prelude.{◌≡◌, [], ◌∷◌};
ghost use Rattle.octets.specs.Octets.{Put, decimal, field, cell_of, cells_of};
ghost use Rattle.octets.specs.code.Room.{Puts};

// A byte or a cell, put into a room of them.
fn put_one<T: Copy>(out: &mut [T], to: usize, x: T) -> usize
    ensures { Puts out.old out.new to (x ∷ []) result }
{
    if out.len() <= to {
        return to;
    }
    out[to] = x;
    to + 1
}

// Bytes or cells, as many as there is room for.
fn put_all<T: Copy>(out: &mut [T], to: usize, xs: &[T]) -> usize
    ensures { Puts out.old out.new to xs.now result }
{
    if out.len() <= to {
        return to;
    }
    let n = xs.len().min(out.len() - to);
    for i in 0..n {
        out[to + i] = xs[i];
    }
    to + n
}

pub fn put_byte(out: &mut [u8], to: usize, b: u8) -> usize
    ensures { Put out.old out.new to (b ∷ []) result }
{
    put_one(out, to, b)
}

pub fn put_word(out: &mut [u8], to: usize, word: &[u8]) -> usize
    ensures { Put out.old out.new to word.now result }
{
    put_all(out, to, word)
}

// The decimal digits of n, none to spare. It calls itself once for each digit, so at most 20 deep.
pub fn put_decimal(out: &mut [u8], to: usize, n: usize) -> usize
    ensures { Put out.old out.new to (decimal n) result }
{
    if n < 10 {
        return put_byte(out, to, 48 + n as u8);
    }
    let last = put_decimal(out, to, n / 10);
    put_byte(out, last, 48 + (n % 10) as u8)
}

// A number and the byte that ends it.
pub fn put_field(out: &mut [u8], to: usize, n: usize, end: u8) -> usize
    ensures { Put out.old out.new to (field n end) result }
{
    let on = put_decimal(out, to, n);
    put_byte(out, on, end)
}

// A cell of four bytes, the least significant first.
fn cell_of(a: u8, b: u8, c: u8, d: u8) -> u32
    ensures { result ≡ cell_of a b c d }
{
    u32::from_le_bytes([a, b, c, d])
}

// The cells of the bytes, put at the front of a lent room; how many were put.
pub fn read_cells(bytes: &[u8], cells: &mut [u32]) -> usize
    ensures { Put cells.old cells.new 0 (cells_of bytes.now) result }
{
    let n = cells.len().min(bytes.len() / 4);
    for i in 0..n {
        let at = 4 * i;
        cells[i] = cell_of(bytes[at], bytes[at + 1], bytes[at + 2], bytes[at + 3]);
    }
    n
}
