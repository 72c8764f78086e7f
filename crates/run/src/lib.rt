// A run: the rows that unify with a goal, from the top, and the number of branches tried.
// What is noted of a plan may be anything: a number is cut to what an array has places for where it is used, so every access is in bounds, and
// that it is what the check notes stands as a premise inside the `ensures`, under which nothing is cut.
#![tactic(auto)]

ghost use Rattle.std.specs.Prelude.{List, ℕ};
ghost use Rattle.answer.specs.Run.{Ran};
ghost use Rattle.plannotes.specs.Noted.{NotedInto};
ghost use Rattle.plannotes.specs.code.ForRun.{ForRun};

mod nodes;
mod step;
mod walk;

use answer::RunCounts;
use limits::BRANCHES;
use plannotes::Noted;
use refusal::{Input, Reason, Refusal};

// A run of a plan that the check has accepted, with what is noted of it: the goal, the room, then the walk. The goal of distinct variables,
// which has as many variables as cells, hits every row and tries every branch: it is answered without a walk.
fn run_accepted(
    noted: &[u64; BRANCHES],
    branches: usize,
    width: usize,
    rows: usize,
    goal: &[u32],
    room: &mut [u8],
) -> Result<RunCounts, Refusal>
    ensures { (table plan : List ℕ) → ForRun table plan noted.now branches width rows → Ran table plan
        goal.now room.old room.new result }
{
    match table::goal_for(width, goal) {
        Err(f) => Err(f),
        Ok(size) => {
            if room.len() < rows {
                return Err(Refusal {
                    reason: Reason::Room,
                    input: Input::Lent,
                    place: rows,
                });
            }
            if size.vars == size.cells {
                walk::put_rows(room, 0, rows, 0);
                return Ok(RunCounts {
                    hits: rows,
                    tried: branches,
                });
            }
            Ok(walk::walk(noted, branches, goal, width, room))
        }
    }
}

// A run of a plan by what the check has answered and noted of it: any answer, any numbers.
pub fn run_noted(
    numbers: &[u64; BRANCHES],
    noted: Noted,
    goal: &[u32],
    room: &mut [u8],
) -> Result<RunCounts, Refusal>
    ensures { (table plan before : List ℕ) → NotedInto table plan before numbers.now noted → Ran table plan
        goal.now room.old room.new result }
{
    let answer = noted.answer;
    match answer {
        Err(f) => Err(f),
        Ok(branches) => {
            let width = noted.width;
            let rows = noted.rows;
            run_accepted(numbers, branches, width, rows, goal, room)
        }
    }
}

// A run of any plan for any table on any goal. What is turned away, in this order: the table, the plan, the goal, the room.
pub fn run_plan(
    table: &[u32],
    plan: &[u32],
    goal: &[u32],
    room: &mut [u8],
) -> Result<RunCounts, Refusal>
    ensures { Ran table.now plan.now goal.now room.old room.new result }
{
    let mut numbers = [0u64; BRANCHES];
    let noted = plannotes::check_noted(table, plan, &mut numbers);
    run_noted(&numbers, noted, goal, room)
}
