// The walk over a plan that writes its lines. It looks at the plan and at what is noted of its branches, and at no row.
ghost use Rattle.std.specs.Prelude.{◌≡◌, ◌≢◌, cond, ◌<◌, eqb, get_or};
ghost use Rattle.plan.specs.Notes.{row_noted};
ghost use Rattle.listing.specs.code.Walk.{Ready, Walks};
ghost use Rattle.limits.specs.Limits.{most_branches};

use crate::text::{Branch, put_line};
use limits::BRANCHES;
use plannotes::packed::{row_of, skip_of, wide};

// Where the walk stands: the next cell of the plan, the number of the next branch in plan order, and the place of the next line.
#[derive(Clone, Copy)]
pub struct Stand {
    pub at: usize,
    pub number: usize,
    pub to: usize,
}

// The row after those of a branch of a state whose rows are before `stop`, where `left` of its branches are left with this one: the first row of
// the next one, which has the number `next`; after the last one `stop`.
fn row_after(noted: &[u64; BRANCHES], next: usize, left: u32, stop: usize) -> usize
    requires { left ≢ 1 → next < most_branches }
    ensures { result ≡ cond (eqb left 1) stop (row_noted (get_or noted.now next 0)) }
{
    if left == 1 {
        return stop;
    }
    wide(row_of(noted[next]))
}

// The lines below a state with so many open places, whose rows are before `stop`: for each of its branches the branch's own line, then those
// below it.
// Stays: places, depth and stop change at each step, each in its own way: one struct for them would be taken apart and made anew each time.
pub fn state(
    plan: &[u32],
    noted: &[u64; BRANCHES],
    out: &mut [u8],
    places: usize,
    depth: usize,
    stop: usize,
    from: Stand,
) -> Stand
    requires { Ready plan.now noted.now places depth stop from }
    ensures { Walks plan.now noted.now out.old out.new places depth stop from result }
{
    let at = from.at;
    let number = from.number;
    let to = from.to;
    if places == 0 {
        return Stand { at: at + 1, ..from };
    }
    let index = plan[at];
    let branches = plan[at + 1];
    let mut here = Stand {
        at: at + 2,
        number,
        to,
    };
    for passed in 0..branches {
        let p = here.at;
        let c = plan[p];
        let n = here.number;
        let w = noted[n];
        let after = row_after(noted, n + 1 + skip_of(w), branches - passed, stop);
        let branch = Branch {
            depth,
            index,
            symbol: c,
            first: wide(row_of(w)),
            last: after - 1,
        };
        let on = put_line(out, here.to, branch);
        let wider = cell::arity_of(c) + places - 1;
        let below = Stand {
            at: p + 1,
            number: n + 1,
            to: on,
        };
        here = state(plan, noted, out, wider, depth + 1, after, below);
    }
    here
}
