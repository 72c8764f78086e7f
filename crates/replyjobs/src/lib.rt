// The replies of every goal of a list, each goal's record saying where they stand in the room. What there is
// to do for a goal is done on a record by value.
#![tactic(auto)]

ghost use Rattle.std.specs.Prelude.{◌≡◌, List, ℕ, ◌≤◌, length};
ghost use Rattle.refusal.specs.Refusal.{reason_number};
ghost use Rattle.table.specs.Table.{table_of, starts_in};
ghost use Rattle.plannotes.specs.Noted.{NotedInto};
ghost use Rattle.checker.specs.Checked.{plan_told};
ghost use Rattle.instance.specs.ReplyJobs.{declined, reply_filled, ReplyAsked, RepliesEach, ReplyJobsRun};
ghost use Rattle.instance.specs.code.Passes.{Held, Found};
ghost use Rattle.replyjobs.specs.code.Shift.{Ready, Placed};

use answer::RunCounts;
use instance::{ReplyCounts, ReplyJob};
use limits::{BRANCHES, ROWS};
use plannotes::Noted;
use refusal::{Reason, Refusal};

// The record of a goal that is turned away.
fn refused(j: ReplyJob, reason: Reason, place: usize) -> ReplyJob
    ensures { result ≡ declined j (reason_number reason) place }
{
    ReplyJob {
        number: refusal::number_of(reason),
        place,
        at: 0,
        replies: 0,
        cells: 0,
        hits: 0,
        tried: 0,
        ..j
    }
}

// The record of a goal that a run has answered, its replies to stand in the room from a place on.
fn found(j: ReplyJob, at: usize, hits: u64, tried: usize) -> ReplyJob
    ensures { result ≡ reply_filled j 0 0 at 0 0 hits tried }
{
    ReplyJob {
        number: 0,
        place: 0,
        at,
        replies: 0,
        cells: 0,
        hits,
        tried,
        ..j
    }
}

// The replies of a run's hits, from the record's place of the room on.
fn put_one(
    table: &[u32],
    starts: &[usize; ROWS],
    rows: usize,
    goal: &[u32],
    hits: &[u8],
    one: ReplyJob,
    room: &mut [u32],
) -> ReplyJob
    ensures { (plan : List ℕ) → Held table.now starts.now rows → Found table.now plan goal.now
        hits.now → one.at ≤ length room.old → Placed table.now plan goal.now room.old
        room.new one result }
{
    let on = one.at.min(room.len());
    match replies::put_replies(table, starts, rows, goal, hits, &mut room[on..]) {
        Err(f) => refused(one, f.reason, f.place),
        Ok(ReplyCounts { replies, cells }) => ReplyJob {
            number: 0,
            place: 0,
            replies,
            cells,
            ..one
        },
    }
}

// One goal, asked by itself with what is left of the room: LENGTH where its cells are not all lent, otherwise what a run of it answers, and the
// replies of its hits. Neither test adds, so that no start and no count is too large.
pub fn reply_one(
    numbers: &[u64; BRANCHES],
    noted: Noted,
    table: &[u32],
    starts: &[usize; ROWS],
    cells: &[u32],
    j: ReplyJob,
    on: usize,
    room: &mut [u32],
) -> ReplyJob
    ensures { (plan before : List ℕ) → NotedInto table.now plan before numbers.now noted
        → starts.now ≡ starts_in (table_of table.now) → on ≤ length room.old
        → ReplyAsked table.now plan cells.now on room.old room.new j result }
{
    let start = j.start;
    let count = j.count;
    if cells.len() < start {
        return refused(j, Reason::Length, 0);
    }
    if cells.len() - start < count {
        return refused(j, Reason::Length, 0);
    }
    let end = start + count;
    let goal = &cells[start..end];
    let mut bytes = [0u8; ROWS];
    match run::run_noted(numbers, noted, goal, &mut bytes) {
        Err(f) => refused(j, f.reason, f.place),
        Ok(RunCounts { hits, tried }) => {
            if ROWS < hits {
                return j;
            }
            let one = found(j, on, shift::bits(&bytes, hits), tried);
            put_one(table, starts, noted.rows, goal, &bytes[..hits], one, room)
        }
    }
}

// Every record of the list, in place, the replies one goal's after another's.
fn reply_each(
    numbers: &[u64; BRANCHES],
    noted: Noted,
    table: &[u32],
    starts: &[usize; ROWS],
    cells: &[u32],
    jobs: &mut [ReplyJob],
    room: &mut [u32],
)
    requires { Ready table.now numbers.now starts.now noted }
    ensures { (plan before : List ℕ) → NotedInto table.now plan before numbers.now noted
        → RepliesEach table.now plan cells.now 0 room.old room.new jobs.old jobs.new }
{
    let mut on = 0;
    for job in jobs.iter_mut() {
        *job = reply_one(numbers, noted, table, starts, cells, *job, on, room);
        on += job.cells;
    }
}

// Where the rows of a table start, 0 for each where it is turned away.
fn starts_of(table: &[u32]) -> [usize; ROWS]
    ensures { result ≡ starts_in (table_of table.now) }
{
    match table::read_table(table) {
        Ok(read) => read.starts,
        Err(_) => [0; ROWS],
    }
}

// A run of any plan for any table on every goal of a list, and the replies of its hits, one goal's after another's in one room. The table and
// the plan are checked once; where one of them is turned away, no record and no cell of the room is touched. The goals' cells lie among the
// lent ones.
pub fn reply_jobs(
    table: &[u32],
    plan: &[u32],
    cells: &[u32],
    jobs: &mut [ReplyJob],
    room: &mut [u32],
) -> Result<usize, Refusal>
    ensures { ReplyJobsRun table.now plan.now cells.now room.old room.new
        jobs.old jobs.new (plan_told result) }
{
    let mut numbers = [0u64; BRANCHES];
    let noted = plannotes::check_noted(table, plan, &mut numbers);
    let starts = starts_of(table);
    if noted.answer.is_ok() {
        reply_each(&numbers, noted, table, &starts, cells, jobs, room);
    }
    noted.answer
}
