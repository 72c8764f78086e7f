// The check of any plan for a table, and of plans that look into named columns first.
#![tactic(auto)]

mod check;

ghost use Rattle.std.specs.Prelude.{◌≡◌, ◌<◌, ◌^◌};
ghost use Rattle.refusal.specs.Refusal.{refused, told};
ghost use Rattle.refusal.specs.declared.Input.TheVariants as input;
ghost use Rattle.refusal.specs.declared.Reason.TheVariants as reason;
ghost use Rattle.plan.specs.Check.{plan_of, plan_under};
ghost use Rattle.checker.specs.Checked.{plan_says, plan_told};
ghost use Rattle.checker.specs.code.Steps.{named_plan};
ghost use Rattle.state.specs.code.First.{TableRows};

use check::{Lent, Room};
use limits::{PLAN_CELLS, ROWS};
use refusal::{Input, Reason, Refusal};
use state::flags::{Named, named_of};

// The refusal of a list of columns.
fn no_column() -> Refusal
    ensures { told result ≡ refused reason.Column input.Columns 0 }
{
    Refusal {
        reason: Reason::Column,
        input: Input::Columns,
        place: 0,
    }
}

// The check of a plan for a table that is read: COLUMN, SIZE, the first state, EXTRA.
fn check_rows(
    table: &[u32],
    starts: &[usize; ROWS],
    width: usize,
    rows: usize,
    named: Named,
    plan: &[u32],
) -> Result<usize, Refusal>
    requires { TableRows table.now starts.now width rows × (named.mask < 2 ^ named.past) }
    ensures { plan_told result ≡ plan_says (named_plan named.mask named.past table.now plan.now) }
{
    if width < named.past {
        return Err(no_column());
    }
    if PLAN_CELLS < plan.len() {
        return Err(check::refusal(Reason::Size, 0));
    }
    let lent = Lent {
        table,
        starts,
        plan,
    };
    let mut room = Room {
        masks: state::mask::open_rows(starts, rows, table.len()),
        column: [0; ROWS],
    };
    let seen = check::state(&lent, &mut room, 0, rows, named.mask, width, 0)?;
    if seen.next < plan.len() {
        return Err(check::refusal(Reason::Extra, seen.next));
    }
    Ok(seen.branches)
}

// The check of a plan that chooses only places inside named columns while any of them is open, any cells at all for the table and the plan: its number of branches, or the first refusal. The columns are named by their numbers, in any order and any number of times. It
// keeps nothing of the plan.
pub fn check_for(table: &[u32], columns: &[u32], plan: &[u32]) -> Result<usize, Refusal>
    ensures { plan_told result ≡ plan_says (plan_under table.now columns.now plan.now) }
{
    let read = table::read_table(table)?;
    let named = named_of(columns);
    check_rows(table, &read.starts, read.width, read.rows, named, plan)
}

// The check of any plan: no column is named.
pub fn check_plan(table: &[u32], plan: &[u32]) -> Result<usize, Refusal>
    ensures { plan_told result ≡ plan_says (plan_of table.now plan.now) }
{
    let none = &table[0..0];
    check_for(table, none, plan)
}
