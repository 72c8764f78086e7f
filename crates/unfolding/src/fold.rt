// A straight run folded into a head (02, W-210, "straight runs folded into heads").
ghost use Rattle.std.specs.Prelude.{◌≡◌};
ghost use Rattle.unfolding.specs.code.Walk.{Stands, goes_on};
ghost use Rattle.unfolding.specs.code.Folds.{Folds, Folded};

use heads::decide_in;

// A head on the way down a straight run: the state's place in the plan, how many places are open, how many cells the head has.
#[derive(Clone, Copy)]
pub struct Fold {
    pub at: usize,
    pub places: usize,
    pub cells: usize,
}

// Whether a state has one branch: then the run goes on.
// Stays: single of plannotes asks it of any place at all, this one of a state that stands there (Stands), by which its clause reads the tree.
fn straight(plan: &[u32], at: usize, places: usize) -> bool
    requires { Stands plan.now at places }
    ensures { (w : Stands plan.now at places) → result ≡ goes_on w.tree }
{
    if places == 0 {
        return false;
    }
    plan[at + 1] == 1
}

// Down to a leaf or to a state with several branches.
pub fn fold_run(plan: &[u32], head: &mut [u32], from: Fold) -> Fold
    requires { Folds plan.now head.old from }
    ensures { (w : Folds plan.now head.old from) → Folded w head.new result }
{
    let mut here = from;
    while straight(plan, here.at, here.places) {
        let at = here.at;
        let c = plan[at + 2];
        let n = decide_in(head, here.cells, plan[at] as usize, c);
        here = Fold {
            at: at + 3,
            places: cell::arity_of(c) + here.places - 1,
            cells: n,
        };
    }
    here
}
