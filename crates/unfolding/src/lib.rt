// A plan made a program: the walk over the plan's states that makes its clauses.
#![tactic(auto)]

mod fold;
mod own;
mod past;
mod walk;

ghost use Rattle.std.specs.Prelude.{◌<◌};
ghost use Rattle.octets.specs.Octets.{Put};
ghost use Rattle.clauses.specs.Program as translated;
ghost use Rattle.unfolding.specs.Flat.{flat};
ghost use Rattle.unfolding.specs.Unfolds.{Unfolds};
ghost use Rattle.unfolding.specs.code.Visits.{Peopled};

use own::put_own;
use refusal::Refusal;
use walk::{Stand, visit_below};

// The program of an accepted plan for a table of this width.
fn make(plan: &[u32], width: usize, program: &mut [u32]) -> usize
    requires { Peopled plan.now 0 width × (0 < width) }
    ensures { (w : Peopled plan.now 0 width)
        → Put program.old program.new 0 (flat (translated.program w.stands.tree)) result }
{
    let first = Stand {
        at: 0,
        number: 0,
        to: 0,
    };
    let to = put_own(plan, width, program, first);
    let below = Stand {
        number: 1,
        to,
        ..first
    };
    visit_below(plan, width, program, below).to
}

// The program of any plan for a table, any cells at all for both, put into a room: for each clause four numbers and its head's cells
// (specs/Flat). 4,572 cells are enough for every one. Answers where the program ends in the room, or why the table or the plan is turned away.
pub fn unfold(table: &[u32], plan: &[u32], program: &mut [u32]) -> Result<usize, Refusal>
    ensures { Unfolds table.now plan.now program.old program.new result }
{
    checker::check_plan(table, plan)?;
    let width = table[0] as usize;
    Ok(make(plan, width, program))
}
