// The demands (document 00) and the requests (document 02), tied to the entries that customers link: each function calls one `dudowiej_*` and
// ensures what is said of it (specs/), by the theorem of proofs/; `decoded` is the number read back by the header's masks and shifts. So an
// entry whose contract no longer gives it is an error here. What is no entry is tied to the function that has it: the row as a part of the
// table, a cell's value and symbol, the listing. Nothing calls these functions; they are private, since what they ensure is less than what the
// entries promise.
#![tactic(auto)]

ghost use Rattle.std.specs.Prelude.{ℕ, ◌≡◌, length};
ghost use Rattle.octets.specs.Octets.{AreWords};
ghost use Rattle.refusal.specs.Coded.{decoded};
ghost use Rattle.table.specs.Table.{Table};
ghost use Rattle.record.specs.Record.{Holds, table_in};
ghost use Rattle.record.specs.Edits.{append, drop-last, replace};
ghost use Rattle.demands.specs.Demands.{Demand1Table, Demand1Goal, Demand1Row, Demand1Place, Demand1Check, Demand1Run};
ghost use Rattle.demands.specs.Demands.{Demand2, TriedFew, Demand3Check, Demand3Run};
ghost use Rattle.demands.specs.Listing.{Listing};
ghost use Rattle.demands.specs.Texts.{Request201};
ghost use Rattle.demands.specs.Numbers.{ReadsCell, PrintsSymbol};
ghost use Rattle.demands.specs.Shift.{Shift};
ghost use Rattle.demands.specs.ReplyShift.{ReplyShift};
ghost use Rattle.demands.specs.Knowing.{KnowingMore, Sums};
ghost use Rattle.demands.specs.Replies.{RepliesRefused, Says};
ghost use Rattle.demands.specs.Records.{MakesRecord, EditsRecord, BuildsFrom};
ghost use Rattle.demands.specs.Columns.{ChecksFor, BuildsFor};
ghost use Rattle.demands.specs.Liked.{BuildsLiked};
ghost use Rattle.demands.specs.Clauses.{ClausesRefused, HandsBack};
ghost use Rattle.demands.specs.Files.{WriteRefused, WritesFile, ThereAndBack, ReadRefused, ReadsFile, BackAgain};
ghost use Rattle.demands.specs.Salvage.{SalvageRefused, Salvages, Unchanged, Originals};
ghost use Rattle.demands.specs.Asking.{ReadsGoal, PutsAnswer, ReadsBack};

use cell::Shape;
use instance::ReplyJob;
use limits::RECORD_CELLS;
use shift::Job;

// Demand 1: reading.
fn demand_read_table(cells: &[u32]) -> u64
    ensures { Demand1Table cells.now (decoded result) }
{
    dudowiej::dudowiej_read_table(cells)
}

fn demand_read_goal(rec: &[u32; RECORD_CELLS], goal: &[u32]) -> u64
    ensures { Demand1Goal (table_in rec.now) goal.now (decoded result) }
{
    dudowiej::dudowiej_read_goal(rec, goal)
}

fn demand_row(rec: &[u32; RECORD_CELLS], number: usize) -> u64
    ensures { Demand1Place (table_in rec.now) number (decoded result) }
{
    dudowiej::dudowiej_row(rec, number)
}

fn demand_row_part(cells: &[u32], number: usize) -> &[u32]
    ensures { Demand1Row cells.now number result.now }
{
    table::row(cells, number)
}

// Demands 1 and 3: the check.
fn demand_check_plan(rec: &[u32; RECORD_CELLS], plan: &[u32]) -> u64
    ensures demand1check { Demand1Check (table_in rec.now) plan.now (decoded result) }
    ensures demand3check { Demand3Check (table_in rec.now) plan.now (decoded result) }
{
    dudowiej::dudowiej_check_plan(rec, plan)
}

// Demands 1 and 3: building, by the record's figure (W-204, W-207).
fn demand_build_plan(rec: &[u32; RECORD_CELLS], room: &mut [u32]) -> u64
    ensures { BuildsFrom rec.now room.old room.new (decoded result) }
{
    dudowiej::dudowiej_build_plan(rec, room)
}

// Demand 3 by 01's measure, which the listing keeps.
fn demand_listing(bytes: &[u8], out: &mut [u8; 43035]) -> usize
    ensures { Listing bytes.now out.old out.new result }
{
    listing::list_table(bytes, out)
}

// Demands 1, 2 and 3: a run.
fn demand_run_plan(rec: &[u32; RECORD_CELLS], plan: &[u32], goal: &[u32], room: &mut [u8]) -> u64
    ensures demand1run { Demand1Run (table_in rec.now) plan.now goal.now room.old room.new
        (decoded result) }
    ensures demand2 { Demand2 (table_in rec.now) plan.now goal.now room.old room.new
        (decoded result) }
    ensures tried_few { TriedFew (table_in rec.now) plan.now goal.now room.old (decoded result) }
    ensures demand3run { Demand3Run (table_in rec.now) plan.now goal.now room.old room.new
        (decoded result) }
{
    dudowiej::dudowiej_run_plan(rec, plan, goal, room)
}

// W-201 (specs/Texts)
fn request_read_text(text: &[u8], cells: &mut [u32], names: &mut [u32]) -> u64
    ensures { Request201 text.now cells.old names.old cells.new names.new
        (decoded result) }
{
    dudowiej::dudowiej_read_text(text, cells, names)
}

// W-202 (specs/Shift), and what its records add up to, W-214 (specs/Knowing)
fn request_run_jobs(rec: &[u32; RECORD_CELLS], plan: &[u32], lent: &[u32], jobs: &mut [Job]) -> u64
    ensures { Shift (table_in rec.now) plan.now lent.now jobs.old jobs.new (decoded result)
        × Sums (table_in rec.now) plan.now lent.now jobs.old jobs.new }
{
    dudowiej::dudowiej_run_jobs(rec, plan, lent, jobs)
}

// W-214 (specs/Knowing): one plan, run on two goals, and what it answers to each.
fn request_run_plan(
    rec: &[u32; RECORD_CELLS],
    plan: &[u32],
    wide: &[u32],
    narrow: &[u32],
    room: &mut [u8],
    other: &mut [u8],
) -> Runs
    ensures { KnowingMore (table_in rec.now) plan.now wide.now narrow.now
        room.old room.new other.old other.new (decoded result.first) (decoded result.second) }
{
    let first = dudowiej::dudowiej_run_plan(rec, plan, wide, room);
    let second = dudowiej::dudowiej_run_plan(rec, plan, narrow, other);
    Runs { first, second }
}

#[derive(Drop)]
struct Runs {
    first: u64,
    second: u64,
}

// W-203 (specs/Replies)
fn request_replies(rec: &[u32; RECORD_CELLS], plan: &[u32], goal: &[u32], room: &mut [u32]) -> u64
    ensures replies_refused { RepliesRefused (table_in rec.now) plan.now goal.now room.old
        room.new (decoded result) }
    ensures says { Says (table_in rec.now) plan.now goal.now room.old room.new
        (decoded result) }
{
    dudowiej::dudowiej_replies(rec, plan, goal, room)
}

// A shift's replies in one call (specs/ReplyShift)
fn request_reply_jobs(
    rec: &[u32; RECORD_CELLS],
    plan: &[u32],
    lent: &[u32],
    jobs: &mut [ReplyJob],
    room: &mut [u32],
) -> u64
    ensures { ReplyShift (table_in rec.now) plan.now lent.now room.old room.new
        jobs.old jobs.new (decoded result) }
{
    dudowiej::dudowiej_reply_jobs(rec, plan, lent, jobs, room)
}

// W-206 (specs/Numbers)
fn request_shape(c: u32) -> Shape
    ensures { ReadsCell c result }
{
    cell::shape_of(c)
}

fn request_symbol(out: &mut [u8], to: usize, c: u32) -> usize
    ensures { PrintsSymbol c out.old out.new to result }
{
    printing::put_symbol(out, to, c)
}

// W-207 (specs/Records)
fn request_work_out(cells: &[u32], figure: u32, rec: &mut [u32; RECORD_CELLS]) -> u64
    ensures { MakesRecord figure cells.now rec.old rec.new (decoded result) }
{
    dudowiej::dudowiej_work_out(cells, figure, rec)
}

fn request_append(rec: &mut [u32; RECORD_CELLS], row: &[u32]) -> u64
    ensures { (figure : ℕ) (T : Table) → Holds rec.old figure T
        → EditsRecord (append row.now) figure T rec.old rec.new (decoded result) }
{
    dudowiej::dudowiej_append(rec, row)
}

fn request_drop_last(rec: &mut [u32; RECORD_CELLS]) -> u64
    ensures { (figure : ℕ) (T : Table) → Holds rec.old figure T
        → EditsRecord drop-last figure T rec.old rec.new (decoded result) }
{
    dudowiej::dudowiej_drop_last(rec)
}

fn request_replace(rec: &mut [u32; RECORD_CELLS], number: usize, row: &[u32]) -> u64
    ensures { (figure : ℕ) (T : Table) → Holds rec.old figure T
        → EditsRecord (replace number row.now) figure T rec.old rec.new (decoded result) }
{
    dudowiej::dudowiej_replace(rec, number, row)
}

// W-210 (specs/Clauses)
fn request_clauses(
    rec: &[u32; RECORD_CELLS],
    plan: &[u32],
    text: &[u8],
    names: &[u32],
    room: &mut [u8],
) -> u64
    ensures clauses_refused { ClausesRefused (table_in rec.now) plan.now text.now names.now
        room.old room.new (decoded result) }
    ensures hands_back { HandsBack (table_in rec.now) plan.now text.now names.now
        room.old room.new (decoded result) }
{
    dudowiej::dudowiej_clauses(rec, plan, text, names, room)
}

// W-211 (specs/Files)
fn request_write_file(rec: &[u32; RECORD_CELLS], plan: &[u32], room: &mut [u8]) -> u64
    ensures write_refused { WriteRefused (table_in rec.now) plan.now room.old room.new (decoded result) }
    ensures writes_file { WritesFile (table_in rec.now) plan.now room.old room.new (decoded result) }
    ensures there_and_back { ThereAndBack (table_in rec.now) plan.now room.new (decoded result) }
{
    lent_words(record::table_of(rec));
    dudowiej::dudowiej_write_file(rec, plan, room)
}

fn request_read_file(file: &[u8], table: &mut [u32], plan: &mut [u32]) -> u64
    ensures read_refused { ReadRefused file.now table.old plan.old table.new plan.new (decoded result) }
    ensures reads_file { ReadsFile file.now table.old plan.old table.new plan.new (decoded result) }
    ensures back_again { BackAgain file.now table.new plan.new (decoded result) }
{
    dudowiej::dudowiej_read_file(file, table, plan)
}

// W-212 (specs/Salvage)
fn request_salvage(
    file: &[u8],
    table: &mut [u32],
    plan: &mut [u32],
    bad: &mut [usize],
    report: &mut [usize; 6],
) -> u64
    ensures salvage_refused { SalvageRefused file.now table.old plan.old bad.old report.old
        table.new plan.new bad.new report.new (decoded result) }
    ensures salvages { Salvages file.now table.old plan.old bad.old
        table.new plan.new bad.new report.new (decoded result) }
    ensures unchanged { Unchanged file.now table.old plan.old bad.old
        table.new plan.new bad.new report.new (decoded result) }
    ensures originals { Originals file.now table.new (decoded result) }
{
    dudowiej::dudowiej_salvage(file, table, plan, bad, report)
}

// W-213 (specs/Columns)
fn request_check_for(rec: &[u32; RECORD_CELLS], columns: &[u32], plan: &[u32]) -> u64
    ensures { ChecksFor (table_in rec.now) columns.now plan.now (decoded result) }
{
    dudowiej::dudowiej_check_for(rec, columns, plan)
}

fn request_build_for(rec: &[u32; RECORD_CELLS], columns: &[u32], room: &mut [u32]) -> u64
    ensures { BuildsFor rec.now columns.now room.old room.new (decoded result) }
{
    dudowiej::dudowiej_build_for(rec, columns, room)
}

// The plan that a list of goals likes best (specs/Liked)
fn request_build_liked(
    rec: &[u32; RECORD_CELLS],
    goals: &[u32],
    list: &[usize],
    room: &mut [u32],
    liked: &mut [usize; 3],
) -> u64
    ensures { BuildsLiked rec.now goals.now list.now room.old room.new
        liked.old liked.new (decoded result) }
{
    dudowiej::dudowiej_build_liked(rec, goals, list, room, liked)
}

// What is lent as cells of 32 bits is that, and so can be read back.
fn lent_words(cells: &[u32]) -> usize
    ensures { AreWords cells.now }
{
    count(cells)
}

fn count(cells: &[u32]) -> usize
    ensures { result ≡ length cells.now }
{
    cells.len()
}

// ask (specs/Asking)
fn request_goal(text: &[u8], names: &[u32], goal: &[u8], cells: &mut [u32], new: &mut [u32]) -> u64
    ensures { ReadsGoal text.now names.now goal.now cells.old cells.new
        new.old new.new (decoded result) }
{
    dudowiej::dudowiej_read_goal_text(text, names, goal, cells, new)
}

fn request_answer(
    text: &[u8],
    names: &[u32],
    goal: &[u8],
    new: &[u32],
    cells: &[u32],
    room: &mut [u8],
) -> u64
    ensures puts_answer { PutsAnswer text.now names.now goal.now new.now cells.now
        room.old room.new (decoded result) }
    ensures reads_back { ReadsBack text.now names.now goal.now new.now cells.now
        room.new (decoded result) }
{
    dudowiej::dudowiej_put_answer(text, names, goal, new, cells, room)
}
