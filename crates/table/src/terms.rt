// The terms of a row or of a goal, in one pass: each cell is looked at once, for what it is, for the arguments that then are owed and for
// the mark of the cells so far.
ghost use Rattle.std.specs.Prelude.{◌≡◌, false, ◌+◌, ◌-◌, ◌≤◌, ◌<◌, length, get_or, drop};
ghost use Rattle.cell.specs.Cell.{arity};
ghost use Rattle.refusal.specs.Refusal.{told};
ghost use Rattle.table.specs.Table.{bad_term, terms_from};
ghost use Rattle.table.specs.code.Looks.{cell_from, tested_told, args_told, terms_told, MarkTold, not_whole};
ghost use Rattle.limits.specs.Limits.{most_row_cells};

use limits::ROW_CELLS;
use refusal::{Input, Reason, Refusal};

// A cell that is tested: the variables met once it is read, and how many terms follow it as its arguments.
#[derive(Clone, Copy)]
pub struct Tested {
    pub vars: usize,
    pub args: usize,
}

// Terms that are read: the place after them, their number of variables and the mark of their cells.
#[derive(Clone, Copy)]
pub struct TermsRead {
    pub end: usize,
    pub vars: usize,
    pub mark: u32,
}

// A refusal of a row, which is part of the table, or of a goal.
pub fn refusal(row: bool, reason: Reason, place: usize) -> Refusal
    ensures { told result ≡ bad_term row reason place }
{
    let input = if row { Input::Table } else { Input::Goal };
    Refusal {
        reason,
        input,
        place,
    }
}

// One cell, with so many variables met before it: CELL, FRESH. It is told by its high half, which is 0x4000 and the number of arguments in a
// name; most cells are names, so these come first.
#[tactic(auto, using(crate::proofs::LooksLaws::name_read, crate::proofs::LooksLaws::name_args))]
fn test_cell(c: u32, vars: usize, place: usize, row: bool) -> Result<Tested, Refusal>
    requires { vars ≤ most_row_cells }
    ensures { (tested_told result ≡ cell_from row c vars place) × (args_told result ≡ arity c) }
{
    let high = c >> 16;
    if 0x4000 <= high && high <= 0x4004 {
        let args = (high - 0x4000) as usize;
        return Ok(Tested { vars, args });
    }
    match high {
        0 => {
            let n = c as usize;
            if vars < n {
                return Err(refusal(row, Reason::Fresh, place));
            }
            if n == vars {
                let vars = vars + 1;
                return Ok(Tested { vars, args: 0 });
            }
            Ok(Tested { vars, args: 0 })
        }
        0x8000 => Ok(Tested { vars, args: 0 }),
        _ => Err(refusal(row, Reason::Cell, place)),
    }
}

// The cell at a place: a row's from the table, a goal's through the reader over it (01, "A reader over the goal").
fn cell_in(cells: &[u32], at: usize, row: bool) -> u32
    requires { at < length cells.now }
    ensures { result ≡ get_or cells.now at 0 }
{
    if row {
        return cells[at];
    }
    goalreader::cell_at(cells, at).unwrap_or(0)
}

// The cells are used up and the terms are not complete: LONG after a row's 32 cells, otherwise SHORT.
fn not_whole(row: bool, used: usize, place: usize) -> Refusal
    ensures { told result ≡ not_whole row used place }
{
    if row && ROW_CELLS <= used {
        return refusal(row, Reason::Long, place);
    }
    refusal(row, Reason::Short, place)
}

// So many terms from a place on. They end at `to` at the earliest, a place for each that is owed; no cell after the 32nd is looked at, so of
// terms that are too many it does not matter how many they are.
pub fn read_terms(cells: &[u32], from: usize, width: usize, row: bool) -> Result<TermsRead, Refusal>
    requires { (from ≤ length cells.now) × (row ≡ false → length cells.now ≤ from + most_row_cells) }
    ensures { (terms_told result ≡ terms_from row (drop from cells.now) width 0 0 from) × MarkTold cells.now from result }
{
    let stop = cells.len().min(from + ROW_CELLS);
    let mut to = from + width.min(ROW_CELLS + 1);
    let mut vars: usize = 0;
    let mut mark = 0;
    for at in from..stop {
        if to <= at {
            return Ok(TermsRead {
                end: at,
                vars,
                mark,
            });
        }
        let c = cell_in(cells, at, row);
        let tested = test_cell(c, vars, at, row)?;
        vars = tested.vars;
        to += tested.args;
        mark = samerows::mixed(mark, c);
    }
    if stop < to {
        return Err(not_whole(row, stop - from, stop));
    }
    Ok(TermsRead {
        end: stop,
        vars,
        mark,
    })
}
