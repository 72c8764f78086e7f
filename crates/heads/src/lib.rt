// Heads on the way down a plan: what is decided, with a hole at each open place (answer/specs/Skeleton). They are put into lent rooms as
// the functions of `octets` put their texts: what has no room is left out.
#![tactic(auto)]

ghost use Rattle.std.specs.Prelude.{◌≤◌, eqb, cond, ◌≡◌, length, take, replicate};
ghost use Rattle.answer.specs.Skeleton.{hole};
ghost use Rattle.answer.specs.Skeleton as skeleton;
ghost use Rattle.octets.specs.Octets.{Put};
ghost use Rattle.clauses.specs.Translate.{head_of};
ghost use Rattle.clauses.specs.code.Walk.{hole_at};
ghost use Rattle.heads.specs.Heads.{clause_cells};
ghost use Rattle.limits.specs.Limits.{most_row_cells};

use limits::ROW_CELLS;
use octets::cells::{put_cell, put_cells};
use slices::cells::part;

// What is open in a head.
const HOLE: u32 = 4294967295;

// Where the i-th open place of a head stands; its length where there are not so many.
fn hole_at(head: &[u32], i: usize) -> usize
    ensures { result ≡ hole_at head.now i }
{
    let mut left = i;
    for (at, c) in head.iter().enumerate() {
        if *c == HOLE {
            if left == 0 {
                return at;
            }
            left -= 1;
        }
    }
    head.len()
}

// So many open places.
fn put_holes(out: &mut [u32], to: usize, n: usize) -> usize
    ensures { Put out.old out.new to (replicate n hole) result }
{
    let mut on = to;
    for _ in 0..n {
        on = put_cell(out, on, HOLE);
    }
    on
}

// The i-th open place of a head decided by a cell, with an open place for each of its arguments; where there are not so many, the head.
fn put_decided(out: &mut [u32], head: &[u32], i: usize, c: u32) -> usize
    ensures { Put out.old out.new 0 (skeleton.decide i c head.now) result }
{
    let at = hole_at(head, i);
    if head.len() <= at {
        return put_cells(out, 0, head);
    }
    let a = put_cells(out, 0, &head[..at]);
    let b = put_cell(out, a, c);
    let d = put_holes(out, b, cell::arity_of(c));
    let after = at + 1;
    let n = head.len();
    put_cells(out, d, &head[after..n])
}

// The same in the head's own room, of which the head is the first n cells; how many it then is. A head has at most 32, as a row has.
pub fn decide_in(head: &mut [u32], n: usize, i: usize, c: u32) -> usize
    ensures { Put head.old head.new 0 (take most_row_cells (skeleton.decide i c (take n head.old))) result }
{
    let mut next = [0u32; ROW_CELLS];
    let m = put_decided(&mut next, part(&*head, 0, n), i, c);
    put_cells(head, 0, &next[..m])
}

// How many open places a cell of a head is: one or none.
fn open_places(c: u32) -> u32
    ensures { result ≡ cond (eqb c hole) 1 0 }
{
    if c == HOLE {
        return 1;
    }
    0
}

// A cell of a head as it is said: an open place is a variable.
fn said(c: u32, v: u32) -> u32
    ensures { result ≡ cond (eqb c hole) v c }
{
    if c == HOLE {
        return v;
    }
    c
}

// A head, its open places being the variables 0, 1, 2 from the left.
fn put_head(out: &mut [u32], to: usize, head: &[u32]) -> usize
    requires { length head.now ≤ most_row_cells }
    ensures { Put out.old out.new to (head_of head.now) result }
{
    let mut on = to;
    let mut v = 0;
    for c in head {
        on = put_cell(out, on, said(*c, v));
        v += open_places(*c);
    }
    on
}

// One clause: its four numbers and its head. A head of over 32 cells is none, and nothing is put.
pub fn put_clause(
    out: &mut [u32],
    to: usize,
    predicate: u32,
    called: u32,
    width: u32,
    head: &[u32],
) -> usize
    ensures { Put out.old out.new to (clause_cells predicate called width head.now) result }
{
    if ROW_CELLS < head.len() {
        return to;
    }
    let a = put_cell(out, to, predicate);
    let b = put_cell(out, a, called);
    let c = put_cell(out, b, width);
    let d = put_cell(out, c, head.len() as u32);
    put_head(out, d, head)
}
