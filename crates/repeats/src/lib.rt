// The rest of a row that uses a variable twice from its first branch for a variable on: one branch after another, up to the first
// whose test fails. It works on copies of the walk's arrays, so that nothing is undone. A node's symbol is 0 where it has none; `cls` has for
// each node the one that stands for its class, and `keep` for each of the row's variables the node that it met first.
// The arrays may hold anything: a number is cut to what an array has places for where it is used, so every access is in bounds, and what the
// arrays have to be stands as a premise inside the `ensures`, under which nothing is cut.
#![tactic(auto)]

ghost use Rattle.std.specs.Prelude.{◌≡◌, true, false, cond, List, ℕ, ◌+◌, ◌≤◌, ◌<◌, ltb, length, get_or};
ghost use Rattle.std.proofs.lemmas.List.Edits.{sets};
ghost use Rattle.cell.specs.Cell.{is_var};
ghost use Rattle.table.specs.All.{All};
ghost use Rattle.plan.specs.Notes.{cell_in, slot_in, next_in};
ghost use Rattle.walking.specs.code.Link.{steps, goal_nodes};
ghost use Rattle.alone.specs.code.Alone.{Symbols};
ghost use Rattle.alone.specs.code.Rest.{Safe, Takes, Begins, Walks};
ghost use Rattle.limits.specs.Limits.{most_branches};

use joins::node;
use limits::BRANCHES;
use plannotes::packed::{cell_of, next_of, slot_of, wide, wide16};

// No node.
// Stays: a number, and no Option: `Safe` and `Takes` (crate alone, specs/code/Rest) say of the array itself what stands in it.
const NONE: u8 = 64;

// Where a variable of the row is kept.
fn place(c: u32) -> usize
    ensures { (result < 32) × (c < 32 → result ≡ c) }
{
    (c & 31) as usize
}

// The number that comes after the last branch; none is noted from 2,048 on.
pub fn end_of(to: usize) -> usize
    ensures { (result ≤ most_branches) × (to ≤ most_branches → result ≡ to) × (most_branches ≤ to → result ≡ most_branches) }
{
    to.min(BRANCHES)
}

// The symbol of a node at the branch number `at`: 0 where its binding has ended.
fn symbol(c: u32, until: u16, at: usize) -> u32
    ensures { result ≡ cond (ltb at until) c 0 }
{
    if at < wide16(until) { c } else { 0 }
}

// The symbols of all nodes.
fn symbols(bound: &[u32; 64], until: &[u16; 64], at: usize) -> [u32; 64]
    ensures { length bound.now ≡ 64 → length until.now ≡ 64
        → Symbols at bound.now until.now result }
{
    let mut own = [0u32; 64];
    for r in 0..64 {
        own[r] = symbol(bound[r], until[r], at);
    }
    own
}

// References to `a` terms that stand one after another, the first at `p`, for the slots from `to` on.
pub fn put_terms(refs: &mut [u8; 64], to: usize, a: usize, p: usize, rep: &[u8; 64], sib: &[u8; 64])
    ensures { to + a ≤ 64 → All (λ x. x < 64) (steps sib.now a p)
        → refs.new ≡ sets refs.old to (goal_nodes rep.now sib.now a p) }
{
    let mut j = to;
    let mut q = p;
    for _ in 0..a {
        let r = node(q);
        let slot = node(j);
        refs[slot] = rep[r];
        q = wide(sib[r]);
        j = slot + 1;
    }
}

// A symbol of the row against the node `u`.
fn meets_symbol(
    c: u32,
    u: usize,
    next: usize,
    sib: &[u8; 64],
    own: &mut [u32; 64],
    args: &mut [u8; 64],
    cls: &[u8; 64],
    refs: &mut [u8; 64],
    keep: &[u8; 32],
) -> bool
    requires { (u < 64) × (next < 64) }
    ensures { Safe sib.now own.old args.old cls.now keep.now c u next
        → is_var c ≡ false
        → Takes sib.now c u next own.old args.old cls.now refs.old keep.now
        own.new args.new cls.now refs.new keep.now result }
{
    let x = node(wide(cls[u]));
    let s = own[x];
    if s == c {
        put_terms(refs, next, cell::arity_of(c), wide(args[x]), cls, sib);
        return true;
    }
    if s != 0 {
        return false;
    }
    own[x] = c;
    args[x] = next as u8;
    put_terms(refs, next, cell::arity_of(c), next, cls, sib);
    true
}

// A variable of the row against the node `u`: met first it is kept, met again the two terms are made equal.
fn meets_variable(
    c: u32,
    u: usize,
    sib: &[u8; 64],
    own: &[u32; 64],
    args: &[u8; 64],
    cls: &mut [u8; 64],
    keep: &mut [u8; 32],
) -> bool
    requires { u < 64 }
    ensures { (refs : List ℕ) (next : ℕ)
        → Safe sib.now own.now args.now cls.old keep.old c u next
        → is_var c ≡ true → Takes sib.now c u next own.now args.now cls.old refs
        keep.old own.now args.now cls.new refs keep.new result }
{
    let v = place(c);
    let w = keep[v];
    if w == NONE {
        keep[v] = u as u8;
        return true;
    }
    joins::unify(own, args, sib, cls, wide(w), u)
}

// One branch, noted by `w`.
fn meets(
    w: u64,
    sib: &[u8; 64],
    own: &mut [u32; 64],
    args: &mut [u8; 64],
    cls: &mut [u8; 64],
    refs: &mut [u8; 64],
    keep: &mut [u8; 32],
) -> bool
    ensures { Safe sib.now own.old args.old cls.old keep.old (cell_in w)
        (get_or refs.old (slot_in w) 0) (next_in w)
        → Takes sib.now (cell_in w) (get_or refs.old (slot_in w) 0) (next_in w) own.old args.old
        cls.old refs.old keep.old own.new args.new cls.new refs.new
        keep.new result }
{
    let c = cell_of(w);
    let u = node(wide(refs[slot_of(w)]));
    match cell::kind(c) {
        0 => meets_variable(c, u, sib, &*own, &*args, cls, keep),
        _ => meets_symbol(c, u, next_of(w), sib, own, args, &*cls, refs, &*keep),
    }
}

// How many branches were tried, and how many hits there are: the row or none.
#[derive(Drop)]
pub struct Alone {
    pub tried: usize,
    pub hits: usize,
}

// The rest of a row, whose branches are those from the number `from` to before `to`.
pub fn rest(
    notes: &[u64; BRANCHES],
    from: usize,
    to: usize,
    rep: &[u8; 64],
    sib: &[u8; 64],
    bound: &[u32; 64],
    args: &[u8; 64],
    until: &[u16; 64],
    refs: &[u8; 64],
) -> Alone
    ensures { (result.tried ≤ most_branches) × (result.hits ≤ 1) × ((b : Begins notes.now rep.now sib.now
        bound.now args.now until.now refs.now from to) → Walks b result.tried result.hits) }
{
    let mut own = symbols(bound, until, from);
    let mut kids = *args;
    let mut cls = *rep;
    let mut terms = *refs;
    let mut keep = [NONE; 32];
    let end = end_of(to);
    for i in from..end {
        if !meets(
            notes[i], sib, &mut own, &mut kids, &mut cls, &mut terms, &mut keep,
        ) {
            return Alone {
                tried: i + 1 - from,
                hits: 0,
            };
        }
    }
    Alone {
        tried: end.saturating_sub(from),
        hits: 1,
    }
}
