// The branches of a plan, in its order, as a list: what is printed of a plan is printed by it.
#![tactic(auto)]

ghost use Rattle.std.specs.Prelude.{◌≤◌};

use limits::{BRANCHES, COLUMNS, ROW_CELLS, ROWS};
use octets::cells::{put_cell, put_cells};
use shop::{Shop, cell_at};
use slices::cells::part;

// A branch: the state that it leaves, and how many branches lead there; the place that is looked at, the cell found there, and where that
// variable was first met on the way; and the rule at the end of the way, the first being 1. 0 is no place and no rule: where a variable is met
// now, for what is no variable, and where the way goes on. States are numbered in the plan's order, the first being 0, so that the branch with
// number i in the list leads to state i + 1.
//
// A place is 16 times its owner and the number of its argument. The owner is 0 for the rule itself, and one more than the number of a name.
#[derive(Clone, Copy)]
pub struct Branch {
    pub state: u32,
    pub depth: u32,
    pub place: u32,
    pub cell: u32,
    pub first: u32,
    pub rule: u32,
}

// What stands in a list where there is no branch.
pub const NO_BRANCH: Branch = Branch {
    state: 0,
    depth: 0,
    place: 0,
    cell: 0,
    first: 0,
    rule: 0,
};

// A state: its number, how many branches lead there, and the place that it looks at.
#[derive(Clone, Copy)]
struct State {
    number: u32,
    depth: u32,
    place: u32,
}

// One more, and no more than there can be.
fn more(n: u32, most: u32) -> u32 {
    n.saturating_add(1).min(most)
}

// The branches of a shop's plan; how many there are. Each has a symbol of a rule of its own, so that no plan has more than 64 rules have symbols.
// What the list has no room for is left out.
pub fn put_branches(list: &mut [Branch], shop: &Shop<'_>) -> u32 {
    let mut places = [0u32; ROW_CELLS];
    let n = put_arguments(&mut places, 0, 0, cell_at(shop.table, 0) as usize);
    let mut walk = Walk {
        list,
        plan: shop.plan,
        at: 0,
        rule: 1,
        count: 0,
        met: [0; ROW_CELLS],
    };
    walk.branches(part(&places, 0, n), 0, 0);
    walk.count
}

// A branch by its number; one of zeros where there is none.
pub fn branch_at(list: &[Branch], i: u32) -> Branch {
    list.get(i as usize).copied().unwrap_or(NO_BRANCH)
}

// The places of so many arguments: of columns, which are at most COLUMNS, or of a name, which has fewer.
fn put_arguments(places: &mut [u32], to: usize, owner: u32, count: usize) -> usize
    requires { owner ≤ 65536 }
{
    let mut on = to;
    for i in 0..count.min(COLUMNS) {
        on = put_cell(places, on, 16 * owner + i as u32 + 1);
    }
    on
}

// The places that are open below a branch: the one looked at is closed, and the arguments of the name found there stand in its stead.
fn put_below(below: &mut [u32], places: &[u32], index: usize, c: u32) -> usize {
    let a = put_cells(below, 0, part(places, 0, index));
    let b = put_arguments(below, a, cell::number(c) + 1, cell::arity_of(c));
    let end = places.len();
    put_cells(below, b, part(places, index.saturating_add(1), end))
}

// Where a variable was first met, and 0 where that is now, at this place. A variable's cell is its number, and a symbol's is larger than
// any of a rule's.
fn meet(met: &mut [u32], cell: u32, place: u32) -> u32 {
    let v = cell as usize;
    let first = cell_at(met, v);
    if first == 0 {
        put_cell(met, v, place);
    }
    first
}

// A walk over a plan, which lists its branches. It stands at the next cell of the plan and the next rule, and has listed so many branches; and
// each variable of this rule was first met on the way at a place, 0 where it was not. A branch for a variable has one rule, so that all below it is
// that rule's.
// Stays: nothing is allocated, so that the list is a lent array and how much of it is in use; `met` has a place for each variable.
#[derive(Drop)]
struct Walk<'a> {
    list: &'a mut [Branch],
    plan: &'a [u32],
    at: usize,
    rule: u32,
    count: u32,
    met: [u32; ROW_CELLS],
}

impl Walk<'_> {
    // The next cell of the plan; 0 at its end.
    fn take(&mut self) -> u32 {
        let cell = cell_at(self.plan, self.at);
        self.at = self.at.saturating_add(1).min(self.plan.len());
        cell
    }

    // The branches of a state with these open places, and after each of them those below it. A rule has at most 32 symbols, so that no way has
    // more branches.
    fn branches(&mut self, places: &[u32], number: u32, depth: u32) {
        if places.is_empty() {
            self.end_rule();
            return;
        }
        if ROW_CELLS as u32 <= depth {
            return;
        }
        let index = self.take() as usize;
        let place = cell_at(places, index);
        let state = State {
            number,
            depth,
            place,
        };
        let count = self.take();
        for _branch in 0..count {
            let cell = self.take();
            let mut below = [0u32; ROW_CELLS];
            let n = put_below(&mut below, places, index, cell);
            self.put_branch(state, cell, n);
            self.branches(part(&below, 0, n), self.count, depth + 1);
        }
    }

    // The branch of a state for a cell. So many places are open below it: where none is, the rule ends there.
    fn put_branch(&mut self, state: State, cell: u32, open: usize) {
        let first = meet(&mut self.met, cell, state.place);
        let at = self.count as usize;
        if at < self.list.len() {
            self.list[at] = Branch {
                state: state.number,
                depth: state.depth,
                place: state.place,
                cell,
                first,
                rule: if open == 0 { self.rule } else { 0 },
            };
        }
        self.count = more(self.count, BRANCHES as u32);
    }

    // The end of a rule's way: the variables of the next are others. A rule's end is a cell of the plan.
    fn end_rule(&mut self) {
        self.take();
        self.rule = more(self.rule, ROWS as u32);
        self.met = [0; ROW_CELLS];
    }
}
