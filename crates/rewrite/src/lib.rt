// Cells put into a lent room from a place on: with a variable replaced, with variables moved apart or renumbered. Each function
// answers the place after them. What has no room is left out, so that nobody has to measure first.
#![tactic(auto)]

ghost use Rattle.std.specs.Prelude.{◌≡◌, [], ◌∷◌, cond, ◌+◌, ◌^◌, ◌≤◌, length, take};
ghost use Rattle.cell.specs.Cell.{is_var};
ghost use Rattle.term.specs.Unify.{renamed};
ghost use Rattle.term.specs.Bind.{bind, id_s};
ghost use Rattle.octets.specs.Octets.{Put};
ghost use Rattle.instance.specs.Rewrite.{put, place, number_at, meet_in, number_in};

use octets::cells::{put_cell, put_cells};

// One cell, which is the variable `v` or is not.
fn put_swapped(out: &mut [u32], to: usize, c: u32, v: u32, term: &[u32]) -> usize
    ensures { Put out.old out.new to (bind v term.now id_s c) result }
{
    if c == v {
        return put_cells(out, to, term);
    }
    put_cell(out, to, c)
}

// The variable `v` replaced by a term. Where the room is full no cell is looked at any more, so that many long terms take no longer than
// what they fill.
pub fn put_with(out: &mut [u32], to: usize, cells: &[u32], v: u32, term: &[u32]) -> usize
    ensures { Put out.old out.new to (put v term.now cells.now) result }
{
    let mut on = to;
    for &c in cells {
        if out.len() <= on {
            return on;
        }
        on = put_swapped(out, on, c, v, term);
    }
    on
}

// A goal's variable gets a number that no row has.
fn moved(c: u32) -> u32
    ensures { result ≡ cond (is_var c) (2 ^ 16 + c) c }
{
    if cell::kind(c) == 0 {
        return 65536 + c;
    }
    c
}

// A goal's variables moved apart from every row's.
pub fn put_apart(out: &mut [u32], to: usize, goal: &[u32]) -> usize
    ensures { Put out.old out.new to (renamed goal.now) result }
{
    let mut on = to;
    for &c in goal {
        on = put_cell(out, on, moved(c));
    }
    on
}

// Where `v` stands among the first `n` variables met; `n` where it is new.
fn find(met: &[u32; 64], n: usize, v: u32) -> usize
    requires { (n ≤ 64) × (length met.now ≡ 64) }
    ensures { result ≡ place v (take n met.now) }
{
    for i in 0..n {
        if met[i] == v {
            return i;
        }
    }
    n
}

// What a cell becomes, and how many variables are met with it.
#[derive(Drop)]
pub struct Numbered {
    pub cell: u32,
    pub many: usize,
}

// A variable becomes its number. A new one is put behind the first `k` that are met, where there is room for it.
fn number(met: &mut [u32; 64], k: usize, c: u32) -> Numbered
    requires { (k ≤ 64) × (length met.old ≡ 64) }
    ensures { (result.cell ≡ number_at (take k met.old) c) × (take result.many met.new ≡ meet_in 64 c
        (take k met.old)) × (result.many ≤ 64) × (length met.new ≡ 64) }
{
    if cell::kind(c) != 0 {
        return Numbered { cell: c, many: k };
    }
    let p = find(&*met, k, c);
    let cell = p as u32;
    if p < k {
        return Numbered { cell, many: k };
    }
    if 64 <= k {
        return Numbered { cell, many: k };
    }
    met[k] = c;
    Numbered { cell, many: k + 1 }
}

// Variables numbered by first appearance. There are numbers for 64 of them.
pub fn put_numbered(out: &mut [u32], to: usize, cells: &[u32]) -> usize
    ensures { Put out.old out.new to (number_in 64 [] cells.now) result }
{
    if out.len() <= to {
        return to;
    }
    let mut met = [0u32; 64];
    let mut k = 0;
    let mut on = to;
    for &c in cells {
        let q = number(&mut met, k, c);
        on = put_cell(out, on, q.cell);
        k = q.many;
    }
    on
}
