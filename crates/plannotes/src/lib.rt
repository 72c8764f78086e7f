// What a run needs of an accepted plan: one number for each branch, in plan order, with the answer of the check.
#![tactic(auto)]

mod branch;
pub mod packed;
mod places;
mod tree;

ghost use Rattle.plannotes.specs.Noted.{NotedInto};
ghost use Rattle.plannotes.specs.code.Tree.{Accepted, AllNoted};

use limits::BRANCHES;
use refusal::Refusal;

// The answer of the check; and the width and the number of rows of the table, both 0 where it or the plan is turned away.
// Stays: `run_noted` takes any value of it, also a width beside a refusal, so a Result of the three would ask more of its callers.
#[derive(Clone, Copy)]
pub struct Noted {
    pub answer: Result<usize, Refusal>,
    pub width: usize,
    pub rows: usize,
}

// Notes the branches of an accepted plan for a table of this width.
fn note_plan(plan: &[u32], width: usize, notes: &mut [u64])
    requires { Accepted plan.now notes.old width }
    ensures { (w : Accepted plan.now notes.old width) → AllNoted w notes.new }
{
    let links = places::first_links();
    let whole = tree::Reached {
        at: 0,
        width,
        made: 0,
        free: 32,
        row: 0,
    };
    tree::state(plan, &links, notes, whole);
}

// The check of any plan for a table. Of an accepted plan, what a run needs is noted in the first of the lent numbers, one for each branch.
// Where the table or the plan is turned away, none of them is changed.
pub fn check_noted(table: &[u32], plan: &[u32], notes: &mut [u64; BRANCHES]) -> Noted
    ensures { NotedInto table.now plan.now notes.old notes.new result }
{
    match checker::check_plan(table, plan) {
        Ok(branches) => {
            let width = table[0] as usize;
            let rows = table[1] as usize;
            note_plan(plan, width, notes);
            Noted {
                answer: Ok(branches),
                width,
                rows,
            }
        }
        Err(f) => Noted {
            answer: Err(f),
            width: 0,
            rows: 0,
        },
    }
}
