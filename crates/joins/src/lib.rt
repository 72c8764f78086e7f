// Two terms made equal: a term against a term, a list of arguments against a list, and then the occurs check. Terms are nodes by number,
// and none is written out: `bound` has a node's symbol, 0 where it has none, `args` its first argument, `sib` the next argument, and `rep`
// what stands for its class.
// The arrays may hold anything: a node's number is cut to its low six bits where it is used, so every access is in bounds, and what the arrays
// have to be stands as a premise inside the `ensures`, under which nothing is cut.
#![tactic(auto)]

ghost use Rattle.std.specs.Prelude.{◌≡◌, ◌%◌, ◌<◌, ◌≤◌, length};
ghost use Rattle.classes.specs.code.Nodes.{to, join};
ghost use Rattle.classes.specs.code.Arrays.{classes, Ready, ReadyAll, Unified, UnifiedAll};
ghost use Rattle.classes.specs.code.Search.{Fewer, Searching, SearchingAll, Searched, SearchedAll, Equals};

fn wide(x: u8) -> usize
    ensures { result ≡ x }
{
    x as usize
}

// A number as that of a node, or of a slot.
pub fn node(x: usize) -> usize
    ensures { (result < 64) × (x < 64 → result ≡ x) × (result ≡ x % 64) }
{
    x & 63
}

// What stands for the class of `z` once that of `x` is joined to that of `y`.
fn moved(z: u8, x: u8, y: u8) -> u8
    ensures { result ≡ to x y z }
{
    if z == x { y } else { z }
}

// The class of `x` joined to that of `y`.
fn join_to(rep: &mut [u8; 64], x: u8, y: u8)
    ensures { length rep.old ≡ 64 → rep.new ≡ join x y rep.old }
{
    for z in rep.iter_mut() {
        *z = moved(*z, x, y);
    }
}

// A term against a term. `left` is at least the number of classes. Each joining makes them fewer by one, so this ends, whatever the terms
// look like. What is left is returned, and 0 where the two do not unify. There is always a class, so `left` is 0 only where it was no such
// number.
#[cycle(unify_args_unify_term)]
fn unify_term(
    bound: &[u32; 64],
    args: &[u8; 64],
    sib: &[u8; 64],
    rep: &mut [u8; 64],
    a: usize,
    b: usize,
    left: usize,
) -> usize
    requires { (a < 64) × (b < 64) }
    ensures { (result ≤ left) × (Ready bound.now args.now sib.now rep.old
        → classes rep.old ≤ left
        → Unified bound.now args.now sib.now rep.old rep.new a b result) }
{
    let x = rep[a];
    let y = rep[b];
    if x == y {
        return left;
    }
    if left == 0 {
        return 0;
    }
    let i = node(wide(x));
    let j = node(wide(y));
    let f = bound[i];
    let g = bound[j];
    if f == 0 {
        join_to(rep, x, y);
        return left - 1;
    }
    if g == 0 {
        join_to(rep, y, x);
        return left - 1;
    }
    if f != g {
        return 0;
    }
    let p = wide(args[i]);
    let q = wide(args[j]);
    let k = cell::arity_of(f);
    join_to(rep, x, y);
    unify_args(bound, args, sib, rep, p, q, k, left - 1)
}

// A list of `k` arguments against a list, the first of them at `p` and `q`.
#[cycle(unify_args_unify_term)]
fn unify_args(
    bound: &[u32; 64],
    args: &[u8; 64],
    sib: &[u8; 64],
    rep: &mut [u8; 64],
    p: usize,
    q: usize,
    k: usize,
    left: usize,
) -> usize
    ensures { (result ≤ left) × (ReadyAll bound.now args.now sib.now rep.old p q k
        → classes rep.old ≤ left
        → UnifiedAll bound.now args.now sib.now rep.old rep.new p q k result) }
{
    let mut n = left;
    let mut i = p;
    let mut j = q;
    for _ in 0..k {
        let a = node(i);
        let b = node(j);
        n = unify_term(bound, args, sib, rep, a, b, n);
        if n == 0 {
            return 0;
        }
        i = wide(sib[a]);
        j = wide(sib[b]);
    }
    n
}

// Whether the term at a node is finite: it is not where the way down from it comes to a node on that way. Marks: 0 new, 1 on the way, 2
// finite. Each step down makes the new ones fewer by one, so this ends, whatever the arrays hold.
#[cycle(finite_finite_args)]
fn finite(
    bound: &[u32; 64],
    args: &[u8; 64],
    sib: &[u8; 64],
    rep: &[u8; 64],
    mark: &mut [u8; 64],
    r: usize,
) -> bool
    requires { (r < 64) × (length mark.old ≡ 64) }
    ensures { Fewer mark.old mark.new
        × (Searching bound.now args.now sib.now rep.now mark.old r
        → Searched bound.now args.now sib.now rep.now mark.old mark.new
        r result) }
{
    let x = node(wide(rep[r]));
    let m = mark[x];
    if m == 2 {
        return true;
    }
    if m != 0 {
        return false;
    }
    let k = cell::arity_of(bound[x]);
    let p = wide(args[x]);
    mark[x] = 1;
    if !finite_args(bound, args, sib, rep, mark, p, k) {
        return false;
    }
    mark[x] = 2;
    true
}

// The same of `k` arguments, the first of them at `p`.
#[cycle(finite_finite_args)]
fn finite_args(
    bound: &[u32; 64],
    args: &[u8; 64],
    sib: &[u8; 64],
    rep: &[u8; 64],
    mark: &mut [u8; 64],
    p: usize,
    k: usize,
) -> bool
    requires { length mark.old ≡ 64 }
    ensures { Fewer mark.old mark.new
        × (SearchingAll bound.now args.now sib.now rep.now mark.old p k
        → SearchedAll bound.now args.now sib.now rep.now mark.old mark.new
        p k result) }
{
    let mut q = p;
    for _ in 0..k {
        let r = node(q);
        if !finite(bound, args, sib, rep, mark, r) {
            return false;
        }
        q = wide(sib[r]);
    }
    true
}

// The terms at two nodes made equal, by joining classes; then the search for a cycle, from the joined term. The answer is false where nothing
// makes them equal.
pub fn unify(
    bound: &[u32; 64],
    args: &[u8; 64],
    sib: &[u8; 64],
    rep: &mut [u8; 64],
    a: usize,
    b: usize,
) -> bool
    ensures { Ready bound.now args.now sib.now rep.old → a < 64 → b < 64
        → Equals bound.now args.now sib.now rep.old rep.new a b result }
{
    let x = node(a);
    let y = node(b);
    let some = unify_term(bound, args, sib, rep, x, y, 64);
    if some == 0 {
        return false;
    }
    let mut mark = [0u8; 64];
    finite(bound, args, sib, &*rep, &mut mark, x)
}
