// The least plan: the builder.
#![tactic(auto)]

mod writer;

ghost use Rattle.std.specs.Prelude.{◌≡◌, List, [], ◌++◌, ℕ, ◌≤◌, length, take, drop};
ghost use Rattle.builder.specs.Build.{BuiltInto, BuiltFrom};
ghost use Rattle.least.specs.declared.By.{By};
ghost use Rattle.builder.specs.code.Writing.{Known, Right, Put};
ghost use Rattle.limits.specs.Limits.{kept_cells, most_plan_cells};

use least::By;
use limits::{KEPT_CELLS, PLAN_CELLS, RECORD_CELLS, ROWS};
use refusal::{Input, Reason, Refusal};
use state::flags::{Named, named_of};
use table::TableRead;
use writer::Extent;

// How many cells the plan has that is built, and what it costs.
#[derive(Clone, Copy)]
pub struct BuiltPlan {
    pub cells: usize,
    pub cost: usize,
}

// The answer for a plan that was written: its cells go to the front of the room where they fit; where they do not it is ROOM,
// and nothing is written.
#[tactic(auto, using(crate::specs::code::Writing::fitted, crate::specs::code::Writing::short))]
fn put(from: &[u32; PLAN_CELLS], plan: Extent, room: &mut [u32]) -> Result<BuiltPlan, Refusal>
    requires { (plan.cells ≤ most_plan_cells) × (plan.cells ≤ length from.now) }
    ensures { Put from.now plan.cells plan.cost room.old room.new result }
{
    let size = plan.cells;
    if room.len() < size {
        return Err(Refusal {
            reason: Reason::Room,
            input: Input::Lent,
            place: size,
        });
    }
    octets::cells::put_cells(room, 0, &from[..size]);
    Ok(BuiltPlan {
        cells: size,
        cost: plan.cost as usize,
    })
}

// The plan of a table that was read, from what is kept for its pairs of rows, into any room. It is written beside the room
// first, since its size is known only then. COLUMN is seen here, by the width that was read.
fn build(
    cells: &[u32],
    read: Result<TableRead, Refusal>,
    named: Named,
    kept: &[u32],
    room: &mut [u32],
) -> Result<BuiltPlan, Refusal>
    requires { Known cells.now read named × (length kept.now ≡ kept_cells) }
    ensures { (by : By) (columns : List ℕ) → Right by columns cells.now read named kept.now
        → BuiltInto by columns cells.now room.old room.new result }
{
    match read {
        Ok(read) => {
            if read.width < named.past {
                return Err(Refusal {
                    reason: Reason::Column,
                    input: Input::Columns,
                    place: 0,
                });
            }
            let mut written = [0; PLAN_CELLS];
            let plan = writer::write_plan(
                cells,
                &read.starts,
                kept,
                &mut written,
                named.mask,
                read.width,
                read.rows,
            );
            put(&written, plan, room)
        }
        Err(f) => Err(f),
    }
}

// The builder's plan by a measure for any cells, among the plans that look into named columns first, into any
// room. The columns are numbers from 0 in any order, and repeats are allowed; with none every plan is of this kind.
pub fn build_for(
    by: By,
    columns: &[u32],
    cells: &[u32],
    room: &mut [u32],
) -> Result<BuiltPlan, Refusal>
    ensures { BuiltInto by columns.now cells.now room.old room.new result }
{
    let named = named_of(columns);
    let mut kept = [0; KEPT_CELLS];
    let read = paircosts::fill(by, named.mask, cells, &mut kept[..], ROWS, 0);
    build(cells, read, named, &kept[..], room)
}

// The same with no column named.
pub fn build_plan(by: By, cells: &[u32], room: &mut [u32]) -> Result<BuiltPlan, Refusal>
    ensures { BuiltInto by [] cells.now room.old room.new result }
{
    let none = &cells[0..0];
    build_for(by, none, cells, room)
}

// The same for the table of a record, by its figure. The table is read again, so that its rows are right whatever
// the rest holds; nothing is worked out, and of any record at all what is written is a plan of its table.
pub fn build_from(rec: &[u32; RECORD_CELLS], room: &mut [u32]) -> Result<BuiltPlan, Refusal>
    ensures { BuiltFrom rec.now room.old room.new result }
{
    let cells = record::table_of(rec);
    let read = table::read_table(cells);
    let all = &rec[..];
    build(cells, read, Named { mask: 0, past: 0 }, &all[2052..], room)
}
