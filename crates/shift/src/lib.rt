// A list of goals, each answered in its record; and what goals try together.
#![tactic(auto)]

ghost use Rattle.answer.specs.Jobs.{JobsRun};
ghost use Rattle.checker.specs.Checked.{plan_told};
ghost use Rattle.shift.specs.Totals.{TriesInAll};

mod jobs;

pub use answer::Job;
pub use jobs::bits;
use limits::BRANCHES;
use refusal::Refusal;

// A run of any plan for any table on every goal of a list. The table and the plan are checked once; where one of them is turned away, no
// record is touched. The goals' cells lie among the lent ones.
pub fn run_jobs(
    table: &[u32],
    plan: &[u32],
    cells: &[u32],
    jobs: &mut [Job],
) -> Result<usize, Refusal>
    ensures { JobsRun table.now plan.now cells.now jobs.old jobs.new (plan_told
        result) }
{
    let mut numbers = [0u64; BRANCHES];
    let noted = plannotes::check_noted(table, plan, &mut numbers);
    if noted.answer.is_ok() {
        jobs::ask_all(&numbers, noted, cells, jobs);
    }
    noted.answer
}

// What the goals of a list try together by any plan for any table. Where the table or the plan is turned away so is each goal, and nothing is
// tried. The goals' cells lie among the lent ones, and two words of the list say where.
pub fn total_tried(table: &[u32], plan: &[u32], cells: &[u32], list: &[usize]) -> usize
    ensures { TriesInAll table.now plan.now cells.now list.now result }
{
    let mut numbers = [0u64; BRANCHES];
    let noted = plannotes::check_noted(table, plan, &mut numbers);
    jobs::add_all(&numbers, noted, cells, list)
}
