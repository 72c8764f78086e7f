// Where a state of a plan ends, and how many predicates are made of it.
ghost use Rattle.std.specs.Prelude.{◌≡◌, cond, ltb};
ghost use Rattle.unfolding.specs.code.Walk.{Stands, PastOf};

// The place in the plan after a state, and how many states with several branches it has, itself and all below counted.
#[derive(Clone, Copy)]
pub struct Past {
    pub at: usize,
    pub splits: usize,
}

// Whether so many branches are several: one or none.
fn split(branches: u32) -> usize
    ensures { result ≡ cond (ltb 1 branches) 1 0 }
{
    if 1 < branches {
        return 1;
    }
    0
}

pub fn past_state(plan: &[u32], at: usize, places: usize) -> Past
    requires { Stands plan.now at places }
    ensures { (w : Stands plan.now at places) → PastOf w.tree at result }
{
    if places == 0 {
        return Past {
            at: at + 1,
            splits: 0,
        };
    }
    let branches = plan[at + 1];
    let mut here = Past {
        at: at + 2,
        splits: split(branches),
    };
    for _ in 0..branches {
        let p = here.at;
        let wider = cell::arity_of(plan[p]) + places - 1;
        let below = past_state(plan, p + 1, wider);
        here = Past {
            at: below.at,
            splits: here.splits + below.splits,
        };
    }
    here
}
