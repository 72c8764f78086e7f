// Pieces of saving a bad file (02, W-212): the longest run of rows from the top, and the bad blocks.
#![tactic(auto)]

ghost use Rattle.std.specs.Prelude.{◌≡◌, [], ◌∷◌, ◌+◌, ◌/◌, ◌≤◌, min, length, take, drop};
ghost use Rattle.samerows.specs.Starts.{rows_lent};
ghost use Rattle.octets.specs.Octets.{Put};
ghost use Rattle.salvaging.specs.Kept.{kept_from};
ghost use Rattle.mending.specs.Mending.{Keeps, bad_on, NumbersListed};
ghost use Rattle.mending.specs.code.Next.{NextIs};
ghost use Rattle.limits.specs.Limits.{most_rows};

use limits::ROWS;

// How many rows are kept, and where the last of them ends.
#[derive(Drop)]
pub struct Kept {
    pub rows: usize,
    pub end: usize,
}

// Where a row ends that begins at a place, beside the rows before it; none where it is refused. One that has cells after it (EXTRA) ends
// where these begin.
fn next_row(cells: &[u32], at: usize, starts: &[usize], width: usize) -> Option<usize>
    requires { at ≤ length cells.now }
    ensures { NextIs width (rows_lent (take at cells.now) starts.now (length starts.now))
        (drop at cells.now) at result }
{
    match table::row_beside(width, &cells[..at], starts, starts.len(), &cells[at..]) {
        Ok(_) => Some(cells.len()),
        Err(f) => {
            let reason = f.reason;
            let place = f.place;
            if refusal::number_of(reason) == 9 {
                return Some(at + place);
            }
            None
        }
    }
}

// The longest run of rows from the first cell on, at most so many and at most 64: any cells, any width.
pub fn keep_rows(cells: &[u32], width: usize, count: usize) -> Kept
    ensures { Keeps (kept_from width (min count most_rows) [] cells.now) result }
{
    let mut starts = [0; ROWS];
    let mut at = 0;
    let most = count.min(ROWS);
    for n in 0..most {
        match next_row(cells, at, &starts[..n], width) {
            Some(e) => {
                starts[n] = at;
                at = e;
            }
            None => return Kept { rows: n, end: at },
        }
    }
    Kept {
        rows: most,
        end: at,
    }
}

// How many blocks a file has, a part of one with them.
fn blocks_of(file: &[u8]) -> usize
    ensures { result ≡ (length file.now + 511) / 512 }
{
    file.len().div_ceil(512)
}

// A number put into a room, where it has one.
fn put_number(out: &mut [usize], to: usize, n: usize) -> usize
    ensures { Put out.old out.new to (n ∷ []) result }
{
    if out.len() <= to {
        return to;
    }
    out[to] = n;
    to + 1
}

// A block's number, where the file has it, and those of the bad blocks after it, put into a room as far as it goes; how many they are. The
// block itself is known to be bad, so that it is not looked at again. No cells are kept of the sound ones.
pub fn list_bad(file: &[u8], from: usize, room: &mut [usize]) -> usize
    ensures { NumbersListed (bad_on file.now from) room.old room.new result }
{
    let total = blocks_of(file);
    let mut none = [0u32; 0];
    let mut on = 0;
    let mut n = 0;
    let mut i = from;
    while i < total {
        on = put_number(room, on, i);
        n += 1;
        let next = i + 1;
        i = next + blocks::sound_run(file, next, &mut none);
    }
    n
}
