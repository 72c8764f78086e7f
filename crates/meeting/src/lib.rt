// What a row and a goal have in common: the two made equal, cell by cell from the left. Where they differ a variable stands on one
// side, and is replaced everywhere by the term on the other: the run has found that they unify, so only their lengths are tested here. One list
// holds the goal so far, then what is left of the row.
// Row and goal may be anything: what they have to be stands as a premise inside the `ensures`. Where they do not unify the answer is some
// cells, or None. The two lists may be shorter than what is in common may need, since clearing them is most of what a short reply costs.
#![tactic(auto)]

ghost use Rattle.std.specs.Prelude.{◌≡◌, ◌≢◌, true, false, [], ◌∷◌, ◌-◌, ◌<◌, ◌≤◌, length, get_or, take, drop};
ghost use Rattle.cell.specs.Cell.{is_var};
ghost use Rattle.meeting.specs.Ended.{Ended};
ghost use Rattle.meeting.specs.code.Turns.{instead, Swapped, Sound, Binding, Bound, Stepping, Stepped, Starting, Finished};

use limits::{MEETING_CELLS, REPLY_CELLS};
use octets::cells::put_cells;

// The answer of each function below is None where the lists are too short: of two lists of 2,048 and 2,049 cells this says that what row and
// goal have in common has over 1,024 cells, since one of the two then has as many and no cell ever goes away.

// Where the two stand: the goal so far has `len` cells, `at` of them passed; of the row the cells from `i` up to `n` are left; so many
// variables may still be replaced.
#[derive(Drop)]
pub struct Stand {
    pub i: usize,
    pub n: usize,
    pub at: usize,
    pub len: usize,
    pub turns: usize,
}

// A cell, or `c` in the place of `v`.
fn swapped(x: u32, v: u32, c: u32) -> u32
    ensures { result ≡ instead v c x }
{
    if x == v { c } else { x }
}

// The same in the first `n` cells.
fn swap(cells: &mut [u32], n: usize, v: u32, c: u32)
    requires { n ≤ length cells.old }
    ensures { Swapped cells.old cells.new v c n }
{
    for i in 0..n {
        cells[i] = swapped(cells[i], v, c);
    }
}

// The variable `v` replaced by a term that is the cell `c`: it is put in the variable's place, and nothing moves.
fn bind_cell(v: u32, c: u32, cells: &mut [u32], k: Stand) -> Option<Stand>
    requires { Sound (length cells.old) k }
    ensures { Bound cells.old v (c ∷ []) cells.new k result }
{
    if k.turns == 0 {
        return None;
    }
    let n = k.n;
    swap(cells, n, v, c);
    Some(Stand {
        i: k.i,
        n,
        at: k.at,
        len: k.len,
        turns: k.turns - 1,
    })
}

// The variable `v` replaced by the term from `a` up to `e`, in the goal so far and in what is left of the row: put together in another list,
// then put back. That list has one cell more at least, so that a full one is told from one that was too short.
fn bind(v: u32, a: usize, e: usize, cells: &mut [u32], other: &mut [u32], k: Stand) -> Option<Stand>
    requires { Binding cells.old other.old a e k }
    ensures { Bound cells.old v (take (e - a) (drop a cells.old)) cells.new k result }
{
    let passed = k.at;
    let end = k.len;
    let i = k.i;
    let n = k.n;
    if k.turns == 0 {
        return None;
    }
    let all = &cells[..];
    let at = rewrite::put_with(other, 0, &all[..passed], v, &all[a..e]);
    let len = rewrite::put_with(other, at, &all[passed..end], v, &all[a..e]);
    if REPLY_CELLS < len {
        return None;
    }
    let last = rewrite::put_with(other, len, &all[i..n], v, &all[a..e]);
    if REPLY_CELLS < last - len {
        return None;
    }
    if cells.len() < last {
        return None;
    }
    put_cells(cells, 0, &other[..last]);
    Some(Stand {
        i: len,
        n: last,
        at,
        len,
        turns: k.turns - 1,
    })
}

// The row's variable `c` meets a term of the goal.
fn bind_row(c: u32, cells: &mut [u32], other: &mut [u32], k: Stand) -> Option<Stand>
    requires { Stepping cells.old other.old k × (c ≡ get_or cells.old k.i 0) × (is_var c ≡ true)
        × (c ≢ get_or cells.old k.at 0) }
    ensures { Stepped cells.old cells.new k result }
{
    let at = k.at;
    let len = k.len;
    let e = term::term_end(&cells[..len], at)?;
    let next = Stand {
        i: k.i + 1,
        n: k.n,
        at: e,
        len,
        turns: k.turns,
    };
    if e == at + 1 {
        let d = cells[at];
        return bind_cell(c, d, cells, next);
    }
    bind(c, at, e, cells, other, next)
}

// The goal's variable `d` meets a term of the row.
fn bind_goal(d: u32, cells: &mut [u32], other: &mut [u32], k: Stand) -> Option<Stand>
    requires { Stepping cells.old other.old k × (k.at < k.len) × (d ≡ get_or cells.old k.at 0)
        × (is_var (get_or cells.old k.i 0) ≡ false) × (d ≢ get_or cells.old k.i 0) }
    ensures { Stepped cells.old cells.new k result }
{
    let i = k.i;
    let n = k.n;
    let e = term::term_end(&cells[..n], i)?;
    let next = Stand {
        i: e,
        n,
        at: k.at + 1,
        len: k.len,
        turns: k.turns,
    };
    if e == i + 1 {
        let c = cells[i];
        return bind_cell(d, c, cells, next);
    }
    bind(d, i, e, cells, other, next)
}

// One cell of each, or one variable.
fn step(cells: &mut [u32], other: &mut [u32], k: Stand) -> Option<Stand>
    requires { Stepping cells.old other.old k }
    ensures { Stepped cells.old cells.new k result }
{
    let i = k.i;
    let at = k.at;
    if k.len <= at {
        return None;
    }
    let c = cells[i];
    let d = cells[at];
    if c == d {
        return Some(Stand {
            i: i + 1,
            n: k.n,
            at: at + 1,
            len: k.len,
            turns: k.turns,
        });
    }
    if cell::kind(c) == 0 {
        return bind_row(c, cells, other, k);
    }
    bind_goal(d, cells, other, k)
}

// The goal's cells, then the row's up to `n`, their variables apart: the goal becomes the most general common instance.
fn meet(cells: &mut [u32], other: &mut [u32], len: usize, n: usize) -> Option<usize>
    requires { Starting cells.old other.old len n }
    ensures { Finished cells.old cells.new len n result }
{
    let mut k = Stand {
        i: len,
        n,
        at: 0,
        len,
        turns: 64,
    };
    while k.i < k.n {
        k = step(cells, other, k)?;
    }
    Some(k.len)
}

// One hit: the most general common instance of a row and a goal, at the front of `cells`. Of the two lists lent to work in the first has 64
// cells at least, so that row and goal fit, and 2,048 at most; the second has more.
pub fn common(row: &[u32], goal: &[u32], cells: &mut [u32], other: &mut [u32]) -> Option<usize>
    ensures { Ended row.now goal.now cells.old other.old cells.new result }
{
    if cells.len() < 64 {
        return None;
    }
    if MEETING_CELLS < cells.len() {
        return None;
    }
    if other.len() <= cells.len() {
        return None;
    }
    let len = rewrite::put_apart(cells, 0, goal);
    let n = put_cells(cells, len, row);
    meet(cells, other, len, n)
}
