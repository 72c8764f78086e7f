// The listing of a table's least plan (01, "On both sides"), as bytes.
#![tactic(auto)]

mod text;
mod walk;

ghost use Rattle.printing.specs.Printing.{Written};
ghost use Rattle.printing.specs.code.Listed.{TextListed};
ghost use Rattle.listing.specs.Listing.{ListsTable, Lists};
ghost use Rattle.listing.specs.code.Walk.{Planned, PutsPlan, most};

use crate::text::put_header;
use crate::walk::{Stand, state};
use least::By;
use limits::{BRANCHES, PLAN_CELLS, TABLE_CELLS};
use printing::put_refusal;
use refusal::Reason;

// The listing of a plan that was built for the table. Which rows a branch has is told by what the check notes of it.
fn list_plan(table: &[u32], plan: &[u32], out: &mut [u8], cost: usize) -> usize
    requires { Planned table.now plan.now cost }
    ensures { PutsPlan table.now plan.now out.old out.new cost result }
{
    let mut numbers = [0u64; BRANCHES];
    let noted = plannotes::check_noted(table, plan, &mut numbers);
    let rows = noted.rows;
    let width = noted.width;
    let to = put_header(out, rows, width, cost);
    let from = Stand {
        at: 0,
        number: 0,
        to,
    };
    let s = state(plan, &numbers, out, width, 0, rows, from);
    s.to
}

// The listing of a table's cells: of its least plan by 01's measure (02, W-204, "the listing keeps 01's measure").
fn list_cells(table: &[u32], out: &mut [u8]) -> usize
    ensures { TextListed most (ListsTable table.now) out.old out.new result }
{
    let mut room = [0u32; PLAN_CELLS];
    match builder::build_plan(By::Branches, table, &mut room) {
        Ok(built) => list_plan(table, &room[..built.cells], out, built.cost),
        Err(f) => {
            let reason = f.reason;
            let place = f.place;
            put_refusal(out, reason, place)
        }
    }
}

// The listing of any bytes at all, put at the front of `out`; how many bytes it has. 43,035 bytes are enough for every one:
// 27 for the header and 21 for each of at most 2,048 branches.
pub fn list_table(bytes: &[u8], out: &mut [u8; 43035]) -> usize
    ensures { Written (Lists bytes.now) out.old out.new result }
{
    let n = bytes.len();
    if 8200 < n {
        return put_refusal(out, Reason::Length, 0);
    }
    if n % 4 != 0 {
        return put_refusal(out, Reason::Length, 0);
    }
    let mut cells = [0u32; TABLE_CELLS];
    let m = octets::read_cells(bytes, &mut cells);
    list_cells(&cells[..m], out)
}
