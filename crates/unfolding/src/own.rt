// The clauses of one state's predicate: one for each of its branches.
ghost use Rattle.std.specs.Prelude.{◌+◌, ◌≤◌, ◌<◌, eqb, cond, ◌≡◌};
ghost use Rattle.octets.specs.Octets.{Put};
ghost use Rattle.unfolding.specs.Flat.{flat, flat_one};
ghost use Rattle.unfolding.specs.code.Branch.{BranchAt, branch_clause};
ghost use Rattle.unfolding.specs.code.Visits.{Peopled, own_of};

use crate::fold::{Fold, fold_run};
use crate::past::past_state;
use crate::walk::Stand;
use heads::{decide_in, put_clause};
use limits::ROW_CELLS;

// What a branch's clause has from its state: its predicate, the one that is called if the run does not end at a leaf, and its width.
#[derive(Clone, Copy)]
pub struct Own {
    pub predicate: usize,
    pub called: usize,
    pub width: usize,
}

// 0 where no place is open: nothing is called there.
fn called_at(places: usize, called: usize) -> usize
    ensures { result ≡ cond (eqb places 0) 0 called }
{
    if places == 0 {
        return 0;
    }
    called
}

// One branch's clause: its head from the state's open places on, folded.
fn put_branch(plan: &[u32], p: usize, index: usize, o: Own, program: &mut [u32], to: usize) -> usize
    requires { BranchAt plan.now p index o }
    ensures { (w : BranchAt plan.now p index o)
        → Put program.old program.new to (flat_one (branch_clause w)) result }
{
    let c = plan[p];
    let mut head = [4294967295u32; ROW_CELLS];
    let n = decide_in(&mut head, o.width, index, c);
    let start = Fold {
        at: p + 1,
        places: cell::arity_of(c) + o.width - 1,
        cells: n,
    };
    let f = fold_run(plan, &mut head, start);
    let cells = f.cells;
    put_clause(
        program,
        to,
        o.predicate as u32,
        called_at(f.places, o.called) as u32,
        o.width as u32,
        &head[..cells],
    )
}

// The clauses of a state's predicate, put from where the walk stands; the next predicate is the first that they call.
pub fn put_own(plan: &[u32], places: usize, program: &mut [u32], from: Stand) -> usize
    requires { Peopled plan.now from.at places × (0 < places) × (from.number ≤ from.at) }
    ensures { (w : Peopled plan.now from.at places)
        → Put program.old program.new from.to (flat (own_of w.stands.tree from.number (from.number + 1))) result }
{
    let at = from.at;
    let number = from.number;
    let next = number + 1;
    let index = plan[at] as usize;
    let branches = plan[at + 1];
    let mut p = at + 2;
    let mut on = from.to;
    let mut called = next;
    for _ in 0..branches {
        let wider = cell::arity_of(plan[p]) + places - 1;
        let end = past_state(plan, p + 1, wider);
        let o = Own {
            predicate: number,
            called,
            width: places,
        };
        on = put_branch(plan, p, index, o, program, on);
        called += end.splits;
        p = end.at;
    }
    on
}
