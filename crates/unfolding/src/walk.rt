// The clauses of a plan's states, in the plan's order.
ghost use Rattle.std.specs.Prelude.{◌+◌, ◌≤◌, ◌<◌, length};
ghost use Rattle.plan.specs.Plans.{write};
ghost use Rattle.clauses.specs.code.Walk.{splits, visited};
ghost use Rattle.unfolding.specs.code.Visits.{Peopled, Visits, below_of, splits_below};

use crate::own::put_own;

// Where the walk stands: the next cell of the plan, the number of the next predicate, and the place of the next clause.
#[derive(Clone, Copy)]
pub struct Stand {
    pub at: usize,
    pub number: usize,
    pub to: usize,
}

// The predicates of a state with so many open places and of all below it.
#[cycle(visit_visit_below)]
pub fn visit(plan: &[u32], places: usize, program: &mut [u32], from: Stand) -> Stand
    requires { Peopled plan.now from.at places × (from.number ≤ from.at) }
    ensures { (w : Peopled plan.now from.at places)
        → Visits program.old program.new from (length (write w.stands.tree)) (splits w.stands.tree)
        (visited w.stands.tree from.number) result }
{
    if places == 0 {
        return Stand {
            at: from.at + 1,
            ..from
        };
    }
    let at = from.at;
    if plan[at + 1] == 1 {
        return visit_below(plan, places, program, from);
    }
    let next = from.number + 1;
    let to = put_own(plan, places, program, from);
    let below = Stand {
        number: next,
        to,
        ..from
    };
    visit_below(plan, places, program, below)
}

// Those below its branches.
#[cycle(visit_visit_below)]
pub fn visit_below(plan: &[u32], places: usize, program: &mut [u32], from: Stand) -> Stand
    requires { Peopled plan.now from.at places × (0 < places) × (from.number ≤ from.at + 1) }
    ensures { (w : Peopled plan.now from.at places)
        → Visits program.old program.new from (length (write w.stands.tree)) (splits_below w.stands.tree)
        (below_of w.stands.tree from.number) result }
{
    let first = from.at;
    let branches = plan[first + 1];
    let mut here = Stand {
        at: first + 2,
        ..from
    };
    for _ in 0..branches {
        let p = here.at;
        let wider = cell::arity_of(plan[p]) + places - 1;
        let below = Stand { at: p + 1, ..here };
        here = visit(plan, wider, program, below);
    }
    here
}
