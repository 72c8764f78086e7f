// The plan's states and branches in plan order: a branch, then all below it, then the next.
//
// In most plans most states have one branch. Such branches are followed by a loop, with no call for each: those that follow one another have the
// same first row and end together, and are finished together.
ghost use Rattle.std.specs.Prelude.{◌≡◌, ◌&&◌, ◌+◌, ◌^◌, ◌<◌, eqb, ltb, length, get_or};
ghost use Rattle.plannotes.specs.code.Tree.{Ready, ReadyAt, Followed, StateDone, BranchDone};
ghost use Rattle.limits.specs.Limits.{most_plan_cells};

use super::branch::{Past, begin, finish};

// A state that is reached: its first cell in the plan, how many places are open, the next branch's number, the first free slot and the
// first row.
#[derive(Clone, Copy)]
pub struct Reached {
    pub at: usize,
    pub width: usize,
    pub made: usize,
    pub free: usize,
    pub row: usize,
}

// Whether the state has one branch only.
fn single(plan: &[u32], at: usize, width: usize) -> bool
    requires { (at < most_plan_cells) × (0 < width → at + 1 < length plan.now) }
    ensures { result ≡ (ltb 0 width && eqb (get_or plan.now (at + 1) 0) 1) }
{
    if width == 0 {
        return false;
    }
    plan[at + 1] == 1
}

// Down from a state, as long as there is one branch.
fn follow(plan: &[u32], links: &mut [u8; 64], notes: &mut [u64], start: Reached) -> Reached
    requires { Ready plan.now links.old notes.old start.at start.width start.made start.free start.row }
    ensures noted { (w : Ready plan.now links.old notes.old start.at start.width start.made
        start.free start.row) → Followed w links.new notes.new result.at result.width result.made result.free }
    ensures row { result.row ≡ start.row }
{
    let mut here = start;
    while single(plan, here.at, here.width) {
        let i = plan[here.at] as usize;
        let only = Past {
            place: here.at + 2,
            made: here.made,
            row: start.row,
        };
        let a = begin(plan, links, notes, i, here.free, only);
        here = Reached {
            at: here.at + 3,
            width: a + (here.width - 1),
            made: here.made + 1,
            free: here.free + a,
            row: start.row,
        };
    }
    here
}

// The branch that comes next of a state that looks at the open place with index `i`, and all below it.
#[cycle(branch_state)]
fn branch(
    plan: &[u32],
    links: &[u8; 64],
    notes: &mut [u64],
    i: usize,
    width: usize,
    free: usize,
    here: Past,
) -> Past
    requires { ReadyAt plan.now links.now notes.old i here.place width here.made free here.row }
    ensures { (w : ReadyAt plan.now links.now notes.old i here.place width here.made free
        here.row) → BranchDone w notes.new result }
{
    let mut own = *links;
    let a = begin(plan, &mut own, notes, i, free, here);
    let under = Reached {
        at: here.place + 1,
        width: a + (width - 1),
        made: here.made + 1,
        free: free + a,
        row: here.row,
    };
    let lower = follow(plan, &mut own, notes, under);
    let below = state(plan, &own, notes, lower);
    finish(notes, here.made, lower.made, below.made);
    below
}

// A state and all below it.
#[cycle(branch_state)]
pub fn state(plan: &[u32], links: &[u8; 64], notes: &mut [u64], here: Reached) -> Past
    requires { Ready plan.now links.now notes.old here.at here.width here.made here.free here.row }
    ensures { (w : Ready plan.now links.now notes.old here.at here.width here.made here.free here.row) → StateDone w
        notes.new result }
{
    let n = plan[here.at] as usize;
    let first = here.at + 1;
    if here.width == 0 {
        return Past {
            place: first,
            made: here.made,
            row: here.row + n,
        };
    }
    let mut next = Past {
        place: here.at + 2,
        made: here.made,
        row: here.row,
    };
    for _ in 0..plan[first] {
        next = branch(plan, links, notes, n, here.width, here.free, next);
    }
    next
}
