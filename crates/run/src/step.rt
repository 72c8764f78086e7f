// One branch of the walk: the node that it looks at, its test, and what it writes. What a branch binds is bound for the branches below it;
// after them it is unbound by itself, and nothing is undone.
ghost use Rattle.std.specs.Prelude.{◌≡◌, ◌+◌, ◌<◌, get_or};
ghost use Rattle.plan.specs.Notes.{cell_in, skip_in, slot_in, next_in};
ghost use Rattle.walking.specs.code.Steps.{Safe, Step};
ghost use Rattle.run.specs.code.Finds.{Finds};
ghost use Rattle.limits.specs.Limits.{most_branches};

use joins::node;
use plannotes::packed::{cell_of, next_of, skip_of, slot_of, wide, wide16};
use repeats::put_terms;

// What a test finds: a row's variable; another symbol; the same one, and where its arguments are; a node that is to be bound.
#[derive(Clone, Copy)]
pub enum Found {
    Any,
    Other,
    Same(usize),
    Unbound,
}

// The branch number `i`, with the cell `c`, against the node `v`. It is bound exactly when its binding ends after this branch.
fn test(bound: &[u32; 64], args: &[u8; 64], until: &[u16; 64], i: usize, c: u32, v: usize) -> Found
    requires { v < 64 }
    ensures { Finds bound.now args.now until.now i c v result }
{
    match cell::kind(c) {
        1..=3 => {
            if i < wide16(until[v]) {
                if bound[v] == c {
                    Found::Same(wide(args[v]))
                } else {
                    Found::Other
                }
            } else {
                Found::Unbound
            }
        }
        _ => Found::Any,
    }
}

// Whether the branch number `i`, noted by `w`, succeeds. An unbound node is bound to the branch's symbol, and its arguments get their
// slots.
pub fn meets(
    w: u64,
    i: usize,
    rep: &[u8; 64],
    sib: &[u8; 64],
    bound: &mut [u32; 64],
    args: &mut [u8; 64],
    until: &mut [u16; 64],
    refs: &mut [u8; 64],
) -> bool
    requires { i < most_branches }
    ensures { Safe sib.now bound.old args.old until.old i (cell_in w)
        (get_or refs.old (slot_in w) 0) (next_in w)
        → Step rep.now sib.now i (cell_in w) (get_or refs.old (slot_in w) 0) (next_in w) (i + 1 + skip_in w)
        bound.old args.old until.old refs.old bound.new args.new
        until.new refs.new result }
{
    let c = cell_of(w);
    let v = node(wide(refs[slot_of(w)]));
    let seen = test(&*bound, &*args, &*until, i, c, v);
    match seen {
        Found::Any => true,
        Found::Other => false,
        Found::Same(p) => {
            put_terms(refs, next_of(w), cell::arity_of(c), p, rep, sib);
            true
        }
        Found::Unbound => {
            let next = next_of(w);
            let past = i + 1 + skip_of(w);
            bound[v] = c;
            args[v] = next as u8;
            until[v] = past as u16;
            put_terms(refs, next, cell::arity_of(c), next, rep, sib);
            true
        }
    }
}
