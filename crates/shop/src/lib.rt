// A file of facts, read once: what is kept of it for every goal.
#![tactic(auto)]

ghost use Rattle.std.specs.Prelude.{◌≡◌, slice_index};

use least::By;
use limits::{PLAN_CELLS, ROWS};
use octets::cells::put_cells;
use refusal::Refusal;
use slices::cells::part;
use termtext::Predicate;

// The facts' text and predicate; the line of each rule, 64 numbers; the names, the table and a plan of it; and the number of the plan's branches.
// Stays: no list here is parallel to another, so that each is a slice of its own.
#[derive(Clone, Copy)]
pub struct Shop<'a> {
    pub text: &'a [u8],
    pub p: Predicate,
    pub lines: &'a [u32],
    pub names: &'a [u32],
    pub table: &'a [u32],
    pub plan: &'a [u32],
    pub branches: usize,
}

// 64 lines, 2,048 names, 2,050 cells of a table and 6,082 of a plan: how much room the lists of a shop take.
pub const KEPT: usize = 10244;

// With the plain least plan.
pub fn load<'a>(
    text: &'a [u8],
    room: &mut [u32],
    kept: &'a mut [u32],
) -> Result<Shop<'a>, Refusal> {
    load_for(text, &[], room, kept)
}

// With the least plan that looks at these columns first, the first column being 0. No text needs larger rooms for its table and its names, so that
// it is refused for what it is, or for a column, and never for the room.
pub fn load_for<'a>(
    text: &'a [u8],
    columns: &[u32],
    room: &mut [u32],
    kept: &'a mut [u32],
) -> Result<Shop<'a>, Refusal> {
    let mut names = [0u32; 32766];
    let size = prolog::read_text(text, room, &mut names)?;
    let table = part(room, 0, size.cells);
    keep(text, columns, part(&names, 0, size.names), table, kept)
}

// Plans are least by the work with figure 0.
pub fn measure() -> By {
    By::Work(0)
}

// A table that was read is refused here for a column alone, and 6,082 cells are enough for every plan.
fn keep<'a>(
    text: &'a [u8],
    columns: &[u32],
    names: &[u32],
    table: &[u32],
    kept: &'a mut [u32],
) -> Result<Shop<'a>, Refusal> {
    let mut plan = [0u32; PLAN_CELLS];
    let built = builder::build_for(measure(), columns, table, &mut plan)?;
    Ok(put_lists(text, names, table, part(&plan, 0, built.cells), kept))
}

// The lists stand one after another in the room that is lent.
fn put_lists<'a>(
    text: &'a [u8],
    names: &[u32],
    table: &[u32],
    plan: &[u32],
    kept: &'a mut [u32],
) -> Shop<'a> {
    marks::put_lines(text, kept);
    let a = put_cells(kept, ROWS, names);
    let b = put_cells(kept, a, table);
    let c = put_cells(kept, b, plan);
    let branches = branches_of(table, plan);
    let all: &'a [u32] = kept;
    Shop {
        text,
        p: goaltext::predicate_of(text),
        lines: part(all, 0, ROWS),
        names: part(all, ROWS, a),
        table: part(all, a, b),
        plan: part(all, b, c),
        branches,
    }
}

impl<'a> Shop<'a> {
    // The same with another plan of the table.
    pub fn with_plan<'b>(self, plan: &'b [u32]) -> Shop<'b>
    where
        'a: 'b,
    {
        Shop {
            plan,
            branches: branches_of(self.table, plan),
            ..self
        }
    }

    // How many rules the table has.
    pub fn rules(&self) -> usize
        ensures { result ≡ slice_index self.now.table.now 1 }
    {
        cell_at(self.table, 1) as usize
    }

    // A rule, the first being row 0: its number as printed and its line.
    pub fn put_rule(&self, out: &mut [u8], to: usize, row: usize) -> usize {
        if row < ROWS {
            return message::put_rule(out, to, row + 1, cell_at(self.lines, row) as usize);
        }
        to
    }
}

// Of a table and a plan for it; 0 of any others.
pub fn branches_of(table: &[u32], plan: &[u32]) -> usize {
    match checker::check_plan(table, plan) {
        Ok(n) => n,
        Err(_) => 0,
    }
}

// How many columns the rules of a text have.
pub fn width_of(text: &[u8]) -> usize {
    goaltext::predicate_of(text).width
}

// A number of a list; 0 where there is none.
pub fn cell_at(cells: &[u32], at: usize) -> u32
    ensures { result ≡ slice_index cells.now at }
{
    cells.get(at).copied().unwrap_or(0)
}
