// The entries of crate dudowiej, exported to programs in C and Rust under the same names (include/dudowiej.h).
// Stays: the C interface. A crate of Rattle is a library or such an archive, not both: so each function here calls the library's and says what it
// says.
#![tactic(auto)]

ghost use Rattle.std.specs.Prelude.{◌≡◌};
ghost use Rattle.table.specs.Table.{table_of, table_says, goal_with, goal_says};
ghost use Rattle.plan.specs.Check.{plan_of, plan_under};
ghost use Rattle.checker.specs.Checked.{plan_says};
ghost use Rattle.refusal.specs.Coded.{coded};
ghost use Rattle.record.specs.Record.{table_in};
ghost use Rattle.record.specs.Edits.{append, drop-last, replace};
ghost use Rattle.dudowiej.specs.Coded.{row_says, WorkCoded, EditCoded, BuildCoded, RunCoded, TextCoded, JobsCoded, RepliesCoded, ClausesCoded};
ghost use Rattle.dudowiej.specs.Coded.{GoalTextCoded, AnswerCoded};
ghost use Rattle.dudowiej.specs.Coded.{ReplyJobsCoded, FileWriteCoded, FileReadCoded, SalvageCoded, BuildForCoded, LikedCoded};

use instance::ReplyJob;
use limits::RECORD_CELLS;
use shift::Job;

// A table's width and number of rows.
#[unsafe(no_mangle)]
pub extern "C" fn dudowiej_read_table(cells: &[u32]) -> u64
    ensures { result ≡ coded (table_says (table_of cells.now)) }
{
    dudowiej::dudowiej_read_table(cells)
}

// A record worked out for a table and a figure: the table's width and number of rows.
#[unsafe(no_mangle)]
pub extern "C" fn dudowiej_work_out(
    cells: &[u32],
    figure: u32,
    rec: &mut [u32; RECORD_CELLS],
) -> u64
    ensures { WorkCoded figure cells.now rec.old rec.new result }
{
    dudowiej::dudowiej_work_out(cells, figure, rec)
}

// A row appended in a record: the table's width and number of rows then.
#[unsafe(no_mangle)]
pub extern "C" fn dudowiej_append(rec: &mut [u32; RECORD_CELLS], row: &[u32]) -> u64
    ensures { EditCoded (append row.now) rec.old rec.new result }
{
    dudowiej::dudowiej_append(rec, row)
}

// The last row dropped.
#[unsafe(no_mangle)]
pub extern "C" fn dudowiej_drop_last(rec: &mut [u32; RECORD_CELLS]) -> u64
    ensures { EditCoded drop-last rec.old rec.new result }
{
    dudowiej::dudowiej_drop_last(rec)
}

// Row r replaced.
#[unsafe(no_mangle)]
pub extern "C" fn dudowiej_replace(rec: &mut [u32; RECORD_CELLS], r: usize, row: &[u32]) -> u64
    ensures { EditCoded (replace r row.now) rec.old rec.new result }
{
    dudowiej::dudowiej_replace(rec, r, row)
}

// A goal's number of cells and of variables.
#[unsafe(no_mangle)]
pub extern "C" fn dudowiej_read_goal(rec: &[u32; RECORD_CELLS], goal: &[u32]) -> u64
    ensures { result ≡ coded (goal_says goal.now (goal_with (table_in rec.now) goal.now)) }
{
    dudowiej::dudowiej_read_goal(rec, goal)
}

// Where the r-th row's cells start in the table, and how many they are; both 0 where there is no such row.
#[unsafe(no_mangle)]
pub extern "C" fn dudowiej_row(rec: &[u32; RECORD_CELLS], r: usize) -> u64
    ensures { result ≡ coded (row_says (table_of (table_in rec.now)) r) }
{
    dudowiej::dudowiej_row(rec, r)
}

// An accepted plan's number of branches.
#[unsafe(no_mangle)]
pub extern "C" fn dudowiej_check_plan(rec: &[u32; RECORD_CELLS], plan: &[u32]) -> u64
    ensures { result ≡ coded (plan_says (plan_of (table_in rec.now) plan.now)) }
{
    dudowiej::dudowiej_check_plan(rec, plan)
}

// The number of cells of the least plan by the record's figure (W-204), and its cost; its cells are the room's first.
#[unsafe(no_mangle)]
pub extern "C" fn dudowiej_build_plan(rec: &[u32; RECORD_CELLS], room: &mut [u32]) -> u64
    ensures { BuildCoded rec.now room.old room.new result }
{
    dudowiej::dudowiej_build_plan(rec, room)
}

// A run's number of hits and of branches tried; the hits are the room's first bytes.
#[unsafe(no_mangle)]
pub extern "C" fn dudowiej_run_plan(
    rec: &[u32; RECORD_CELLS],
    plan: &[u32],
    goal: &[u32],
    room: &mut [u8],
) -> u64
    ensures { RunCoded (table_in rec.now) plan.now goal.now room.old
        room.new result }
{
    dudowiej::dudowiej_run_plan(rec, plan, goal, room)
}

// A table from Prolog text: the number of its cells and of its names. The cells are the first of one room, the list of names is the first
// of the other.
#[unsafe(no_mangle)]
pub extern "C" fn dudowiej_read_text(text: &[u8], cells: &mut [u32], names: &mut [u32]) -> u64
    ensures { TextCoded text.now cells.old names.old cells.new names.new result }
{
    dudowiej::dudowiej_read_text(text, cells, names)
}

// A goal from its text, by the names of a text of facts and by its predicate: the number of its cells and of its names that the facts have not.
// The cells are the first of one room, the list of these names is the first of the other.
#[unsafe(no_mangle)]
pub extern "C" fn dudowiej_read_goal_text(
    text: &[u8],
    names: &[u32],
    goal: &[u8],
    cells: &mut [u32],
    new: &mut [u32],
) -> u64
    ensures { GoalTextCoded text.now names.now goal.now cells.old cells.new
        new.old new.new result }
{
    dudowiej::dudowiej_read_goal_text(text, names, goal, cells, new)
}

// A reply's cells as text, in the names of the facts and in the goal's own: how many cells are said, and in how many bytes; they are the room's
// first bytes.
#[unsafe(no_mangle)]
pub extern "C" fn dudowiej_put_answer(
    text: &[u8],
    names: &[u32],
    goal: &[u8],
    new: &[u32],
    cells: &[u32],
    room: &mut [u8],
) -> u64
    ensures { AnswerCoded text.now names.now goal.now new.now cells.now
        room.old room.new result }
{
    dudowiej::dudowiej_put_answer(text, names, goal, new, cells, room)
}

// The plan's number of branches; each goal of the list is answered in its record.
#[unsafe(no_mangle)]
pub extern "C" fn dudowiej_run_jobs(
    rec: &[u32; RECORD_CELLS],
    plan: &[u32],
    cells: &[u32],
    jobs: &mut [Job],
) -> u64
    ensures { JobsCoded (table_in rec.now) plan.now cells.now jobs.old
        jobs.new result }
{
    dudowiej::dudowiej_run_jobs(rec, plan, cells, jobs)
}

// How many replies there are and how many cells they have together; they are the room's first cells.
#[unsafe(no_mangle)]
pub extern "C" fn dudowiej_replies(
    rec: &[u32; RECORD_CELLS],
    plan: &[u32],
    goal: &[u32],
    room: &mut [u32],
) -> u64
    ensures { RepliesCoded (table_in rec.now) plan.now goal.now room.old
        room.new result }
{
    dudowiej::dudowiej_replies(rec, plan, goal, room)
}

// The plan's number of branches; each goal of the list is answered in its record, and the replies follow one another in the room.
#[unsafe(no_mangle)]
pub extern "C" fn dudowiej_reply_jobs(
    rec: &[u32; RECORD_CELLS],
    plan: &[u32],
    cells: &[u32],
    jobs: &mut [ReplyJob],
    room: &mut [u32],
) -> u64
    ensures { ReplyJobsCoded (table_in rec.now) plan.now cells.now room.old
        room.new jobs.old jobs.new result }
{
    dudowiej::dudowiej_reply_jobs(rec, plan, cells, jobs, room)
}

// A plan handed back as Prolog: how many clauses it is and how many bytes they have; they are the room's first bytes.
#[unsafe(no_mangle)]
pub extern "C" fn dudowiej_clauses(
    rec: &[u32; RECORD_CELLS],
    plan: &[u32],
    text: &[u8],
    names: &[u32],
    room: &mut [u8],
) -> u64
    ensures { ClausesCoded (table_in rec.now) plan.now text.now names.now
        room.old room.new result }
{
    dudowiej::dudowiej_clauses(rec, plan, text, names, room)
}

// The bytes and the blocks of the file of the record's table and a plan; its bytes are the room's first.
#[unsafe(no_mangle)]
pub extern "C" fn dudowiej_write_file(
    rec: &[u32; RECORD_CELLS],
    plan: &[u32],
    room: &mut [u8],
) -> u64
    ensures { FileWriteCoded (table_in rec.now) plan.now room.old room.new result }
{
    dudowiej::dudowiej_write_file(rec, plan, room)
}

// The number of cells of a file's table and of its plan. The table's are the first of one room, the plan's are the first of the other.
#[unsafe(no_mangle)]
pub extern "C" fn dudowiej_read_file(file: &[u8], table: &mut [u32], plan: &mut [u32]) -> u64
    ensures { FileReadCoded file.now table.old plan.old table.new plan.new result }
{
    dudowiej::dudowiej_read_file(file, table, plan)
}

// What can be had of a bad file: the rows kept and the rows dropped. The table's cells, the plan's and the numbers of the bad blocks are the
// first of their rooms, and the report has the numbers of all.
#[unsafe(no_mangle)]
pub extern "C" fn dudowiej_salvage(
    file: &[u8],
    table: &mut [u32],
    plan: &mut [u32],
    bad: &mut [usize],
    report: &mut [usize; 6],
) -> u64
    ensures { SalvageCoded file.now table.old plan.old bad.old report.old
        table.new plan.new bad.new report.new result }
{
    dudowiej::dudowiej_salvage(file, table, plan, bad, report)
}

// The number of cells of the least plan that looks into named columns first, by the record's figure, and its cost; its cells are the room's
// first. What the record keeps is for plans of any kind, so its table and figure alone are used (02, W-213).
#[unsafe(no_mangle)]
pub extern "C" fn dudowiej_build_for(
    rec: &[u32; RECORD_CELLS],
    columns: &[u32],
    room: &mut [u32],
) -> u64
    ensures { BuildForCoded rec.now columns.now room.old room.new result }
{
    dudowiej::dudowiej_build_for(rec, columns, room)
}

// The number of branches of a plan that looks into named columns first.
#[unsafe(no_mangle)]
pub extern "C" fn dudowiej_check_for(
    rec: &[u32; RECORD_CELLS],
    columns: &[u32],
    plan: &[u32],
) -> u64
    ensures { result ≡ coded (plan_says (plan_under (table_in rec.now) columns.now plan.now)) }
{
    dudowiej::dudowiej_check_for(rec, columns, plan)
}

// The number of cells of the plan that a list of goals likes best, of those for each set of columns, by the record's figure, and its cost; its
// cells are the room's first. Beside it are its columns as a mask, what it tries over the list and what the plain plan tries.
#[unsafe(no_mangle)]
pub extern "C" fn dudowiej_build_liked(
    rec: &[u32; RECORD_CELLS],
    goals: &[u32],
    list: &[usize],
    room: &mut [u32],
    liked: &mut [usize; 3],
) -> u64
    ensures { LikedCoded rec.now goals.now list.now room.old liked.old
        room.new liked.new result }
{
    dudowiej::dudowiej_build_liked(rec, goals, list, room, liked)
}
