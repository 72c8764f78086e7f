// A bad file saved (02, W-212): the rows that can be had from its top, a plan for them, and which of its blocks are bad.
#![tactic(auto)]

ghost use Rattle.std.specs.Prelude.{◌≡◌, List, ℕ, ◌^◌, ◌≤◌, ◌<◌, length};
ghost use Rattle.salvaging.specs.Salvage.{kept_cells, Salvaged};
ghost use Rattle.salvaging.specs.Answers.{salvage_told};
ghost use Rattle.salvage.specs.code.Saving.{Fronted, RowsHad, TopIs, OwnPlan, PlanLaid, Reported, short_of};

use filing::turn;
use least::By;
use limits::{COLUMNS, ROWS};
use refusal::{Input, Reason, Refusal};
use salvaging::Report;

// What was had of a file but the cells: its sound blocks before the first that is not, the rows it says it has and those that were kept,
// where their cells end, where its plan begins, and the size of that.
#[derive(Clone, Copy)]
struct Top {
    good: usize,
    count: usize,
    rows: usize,
    end: usize,
    start: usize,
    plans: usize,
}

// Where a plan lies in a list of cells, and whether it is the file's own.
#[derive(Clone, Copy)]
struct Laid {
    keeps: bool,
    start: usize,
    end: usize,
}

// The rows of a file that has a head, from the front of its cells. 64 rows of 32 cells end before cell 2,052. Where some are kept, their
// number takes the place of the file's, and the cells from the third on are a table.
fn rows_in(good: usize, cells: &mut [u32]) -> Result<Top, Refusal>
    requires { (length cells.old ≡ 2052) × (good < 2 ^ 55) }
    ensures { (file : List ℕ) → Fronted file cells.old good → RowsHad file cells.new result }
{
    let start = 2 + cells[0] as usize;
    let plans = cells[1] as usize;
    let count = cells[3] as usize;
    let m = start.min(125 * good).min(2052);
    if m < 4 {
        return turn(Reason::None, Input::File, 0);
    }
    let kept = mending::keep_rows(&cells[4..m], cells[2] as usize, count);
    let rows = kept.rows;
    if rows == 0 {
        return turn(Reason::None, Input::File, 0);
    }
    let end = 4 + kept.end;
    cells[3] = rows as u32;
    Ok(Top {
        good,
        count,
        rows,
        end,
        start,
        plans,
    })
}

// The rows of a file, any bytes at all.
fn rows_of(file: &[u8], cells: &mut [u32]) -> Result<Top, Refusal>
    requires { length cells.old ≡ 2052 }
    ensures { RowsHad file.now cells.new result }
{
    let good = blocks::sound_run(file, 0, cells);
    if good == 0 {
        return turn(Reason::Head, Input::File, 0);
    }
    if !(1..=COLUMNS).contains(&(cells[2] as usize)) {
        return turn(Reason::Head, Input::File, 0);
    }
    if !(1..=ROWS).contains(&(cells[3] as usize)) {
        return turn(Reason::Head, Input::File, 0);
    }
    rows_in(good, cells)
}

// Whether the file's own plan is kept, by three tests; its cells are then in the lent list. They are read from the block on in which they
// begin, so that a bad one before it does no harm. What is too long to be a plan is cut, and too long still.
fn own_plan(file: &[u8], top: Top, table: &[u32], cells: &mut [u32]) -> bool
    requires { TopIs file.now top × (table.now ≡ kept_cells file.now) × (length cells.old ≡ 6207) }
    ensures { OwnPlan file.now top cells.new result }
{
    if top.rows != top.count {
        return false;
    }
    let skip = top.start % 125;
    let n = blocks::sound_run(file, top.start / 125, cells);
    if 125 * n < skip + top.plans {
        return false;
    }
    let e = skip + top.plans.min(6083);
    match checker::check_plan(table, &cells[skip..e]) {
        Ok(_) => true,
        Err(_) => false,
    }
}

// The plan of the rows that were kept, in the lent list: the file's own, or the least one by the work with figure 0. The builder turns
// nothing away here: the rows are a table, and the list is enough for every plan.
fn plan_of(file: &[u8], top: Top, table: &[u32], cells: &mut [u32]) -> Laid
    requires { TopIs file.now top × (table.now ≡ kept_cells file.now) × (length cells.old ≡ 6207) }
    ensures { PlanLaid file.now cells.new result }
{
    if own_plan(file, top, table, cells) {
        let start = top.start % 125;
        let end = start + top.plans;
        return Laid {
            keeps: true,
            start,
            end,
        };
    }
    match builder::build_plan(By::Work(0), table, cells) {
        Ok(built) => Laid {
            keeps: false,
            start: 0,
            end: built.cells,
        },
        Err(_) => Laid {
            keeps: false,
            start: 0,
            end: 0,
        },
    }
}

// The report, with the bad blocks counted.
fn report_of(file: &[u8], top: Top, laid: Laid) -> Report
    requires { TopIs file.now top × (laid.start ≤ laid.end) }
    ensures { Reported file.now laid result }
{
    let mut none = [0usize; 0];
    Report {
        kept: top.rows,
        dropped: top.count - top.rows,
        plan_kept: laid.keeps,
        table: top.end - 2,
        plan: laid.end - laid.start,
        bad: mending::list_bad(file, top.good, &mut none),
    }
}

// What a room that is too small would need, the table's first, then the plan's, then that of the bad blocks; 0 where each is enough.
fn short_of(report: Report, table: usize, plan: usize, bad: usize) -> usize
    ensures { result ≡ short_of report table plan bad }
{
    if table < report.table {
        return report.table;
    }
    if plan < report.plan {
        return report.plan;
    }
    if bad < report.bad {
        return report.bad;
    }
    0
}

// What was had put into the rooms, where each is enough.
fn save(
    file: &[u8],
    top: Top,
    kept: &[u32],
    table: &mut [u32],
    plan: &mut [u32],
    bad: &mut [usize],
) -> Result<Report, Refusal>
    requires { TopIs file.now top × (kept.now ≡ kept_cells file.now) }
    ensures { Salvaged file.now table.old plan.old bad.old
        table.new plan.new bad.new (salvage_told result) }
{
    let mut cells = [0u32; 6207];
    let laid = plan_of(file, top, kept, &mut cells);
    let report = report_of(file, top, laid);
    let need = short_of(report, table.len(), plan.len(), bad.len());
    if 0 < need {
        return turn(Reason::Room, Input::Lent, need);
    }
    let a = laid.start;
    let e = laid.end;
    octets::cells::put_cells(table, 0, kept);
    octets::cells::put_cells(plan, 0, &cells[a..e]);
    mending::list_bad(file, top.good, bad);
    Ok(report)
}

// What can be had of a file, any bytes at all, into any rooms.
pub fn salvage(
    file: &[u8],
    table: &mut [u32],
    plan: &mut [u32],
    bad: &mut [usize],
) -> Result<Report, Refusal>
    ensures { Salvaged file.now table.old plan.old bad.old
        table.new plan.new bad.new (salvage_told result) }
{
    let mut cells = [0u32; 2052];
    let top = rows_of(file, &mut cells)?;
    let end = top.end;
    save(file, top, &cells[2..end], table, plan, bad)
}
