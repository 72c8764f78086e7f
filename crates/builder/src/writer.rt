// A plan, written state by state from the places that are kept for all pairs of rows: the builder's, where those are the
// table's entries (01, "The builder's plan is fixed"). A row in a state is a mask of its open cells, as in the check.
ghost use Rattle.std.specs.Prelude.{◌≡◌, List, map, ℕ, ◌+◌, ◌-◌, ◌^◌, ◌≤◌, ◌<◌, eqb, length, set};
ghost use Rattle.std.proofs.lemmas.List.Edits.{sets};
ghost use Rattle.term.specs.Terms.{root};
ghost use Rattle.plan.specs.Plans.{write, writes};
ghost use Rattle.state.specs.Column.{run_count};
ghost use Rattle.state.specs.Flags.{flags_in};
ghost use Rattle.state.specs.States.{rows_in};
ghost use Rattle.state.specs.code.First.{TableRows};
ghost use Rattle.least.specs.code.Follow as follow;
ghost use Rattle.builder.specs.code.Writing.{open_in, chain, ToWrite, ToWriteAll, Written, Planned};
ghost use Rattle.builder.specs.code.Ahead.{AheadIn, ToCloseRow, ClosedRow, ToClose, ClosedAhead, Again, ToTake, Taken};
ghost use Rattle.limits.specs.Limits.{kept_cells, most_plan_cells, most_row_cells, most_rows};

use limits::{PLAN_CELLS, ROWS};
use state::Rows;
use state::column::{run_count, run_length, same_symbol};
use state::flags::{may, spread};
use state::mask::{close_at, close_rows, open_rows, root_at};

// All rows agree at place i: each holds the symbol of the row before it. A single row, which most states have, agrees with
// itself everywhere, and is not looked at.
fn agreed_at(
    table: &[u32],
    starts: &[usize; ROWS],
    masks: &[u32; ROWS],
    i: u32,
    first: usize,
    end: usize,
) -> bool
    requires { (first < end) × (end ≤ most_rows) }
    ensures { result ≡ eqb (run_count (map (root i)
        (rows_in table.now starts.now masks.now first end))) 1 }
{
    if first + 1 == end {
        return true;
    }
    let mut cell = close_at(table, starts[first], masks[first], i).cell;
    for row in first + 1..end {
        let next = close_at(table, starts[row], masks[row], i).cell;
        if !same_symbol(cell, next) {
            return false;
        }
        cell = next;
    }
    true
}

// A kept place, and 0 where that is none of the open places, which no record that holds a table has.
fn within(place: u32, opens: usize) -> u32
    ensures { result ≡ follow.within place opens }
{
    if (place as usize) < opens { place } else { 0 }
}

// The leftmost place from `from` on that may be chosen and that all rows agree on, and the number of open places where there is none. The
// terms before `from` are passed: `ahead` has the masks of the cells after them. While a place inside a named column is open, an agreed
// place outside them is passed over.
fn leftmost(
    table: &[u32],
    starts: &[usize; ROWS],
    ahead: &[u32; ROWS],
    rows: Rows,
    from: u32,
) -> u32
    requires { (rows.first < rows.end) × (rows.end ≤ most_rows) × (rows.opens ≤ most_row_cells) × (rows.named < 2 ^ rows.opens) }
    ensures { (ms : List ℕ) → AheadIn table.now starts.now ms ahead.now from rows.first rows.end
        → result ≡ follow.agreed_from (flags_in rows.opens rows.named) (rows.opens - from) from
        (rows_in table.now starts.now ms rows.first rows.end) }
{
    let opens = rows.opens as u32;
    for i in from..opens {
        if may(rows.named, i) && agreed_at(table, starts, ahead, i - from, rows.first, rows.end) {
            return i;
        }
    }
    from.max(opens)
}

// A row's mask, and what of it is ahead of the terms that are passed.
#[derive(Drop)]
struct Row {
    mask: u32,
    ahead: u32,
}

// Closes a row's place i, counted from the cells ahead: its bit goes out of the mask, and what is ahead of it are the bits above.
fn close_row(table: &[u32], start: usize, mask: u32, ahead: u32, i: u32) -> Row
    requires { ToCloseRow table.now start mask ahead i }
    ensures { (q : ToCloseRow table.now start mask ahead i)
        → ClosedRow table.now start mask (q.from + i) result.mask result.ahead }
{
    let bit = root_at(table, start, ahead, i);
    let rest = mask - (1 << bit);
    Row {
        mask: rest,
        ahead: rest >> bit << bit,
    }
}

// The same for the rows from first to before end.
fn close_ahead(
    table: &[u32],
    starts: &[usize; ROWS],
    masks: &mut [u32; ROWS],
    ahead: &mut [u32; ROWS],
    i: u32,
    first: usize,
    end: usize,
)
    requires { ToClose table.now starts.now masks.old ahead.old i first end }
    ensures { (q : ToClose table.now starts.now masks.old ahead.old i first end)
        → ClosedAhead table.now starts.now masks.old masks.new ahead.new
        (q.from + i) first end }
{
    for row in first..end {
        let closed = close_row(table, starts[row], masks[row], ahead[row], i);
        masks[row] = closed.mask;
        ahead[row] = closed.ahead;
    }
}

// Where to go on looking once place i is closed. The places before it are still not agreed; but with flags set another may become free to be
// chosen, so that all are looked at again.
fn again(named: u64, i: u32, masks: &[u32; ROWS], ahead: &mut [u32; ROWS]) -> u32
    ensures { Again named i masks.now ahead.old ahead.new result }
{
    if named == 0 {
        return i;
    }
    *ahead = *masks;
    0
}

// A state that is reached: its open places, their flags, and the place where its plan is to be written.
#[derive(Drop)]
struct Reached {
    opens: usize,
    named: u64,
    next: usize,
}

// The states from a place on at which all rows agree, each with its one branch; the same rows are below it. Each row's cells are gone through
// once, since those before a place that is taken are passed.
fn agreed(
    table: &[u32],
    starts: &[usize; ROWS],
    masks: &mut [u32; ROWS],
    out: &mut [u32; PLAN_CELLS],
    rows: Rows,
    at: usize,
) -> Reached
    requires { ToTake table.now starts.now masks.old out.old rows.first rows.end rows.opens rows.named at }
    ensures { (hs kept : List ℕ) (q : ToWrite table.now starts.now masks.old hs kept out.old
        rows.first rows.end rows.opens rows.named at)
        → Taken table.now starts.now kept masks.old hs out.old rows.first rows.end at
        (write q.plan) masks.new out.new result.opens result.named result.next }
{
    let first = rows.first;
    let end = rows.end;
    let mut ahead = *masks;
    let mut from: u32 = 0;
    let mut opens = rows.opens;
    let mut named = rows.named;
    let mut next = at;
    let mut i = leftmost(table, starts, &ahead, rows, 0);
    while (i as usize) < opens {
        let c = close_at(table, starts[first], ahead[first], i - from).cell;
        close_ahead(table, starts, masks, &mut ahead, i - from, first, end);
        let second = next + 1;
        let third = next + 2;
        out[next] = i;
        out[second] = 1;
        out[third] = c;
        next += 3;
        let args = cell::arity_of(c);
        opens = args + (opens - 1);
        from = again(named, i, &*masks, &mut ahead);
        named = spread(named, i, args);
        let below = Rows {
            first,
            end,
            opens,
            named,
        };
        i = leftmost(table, starts, &ahead, below, from);
    }
    Reached { opens, named, next }
}

// A leaf at a place: its number of rows. The place after it.
fn leaf(out: &mut [u32; PLAN_CELLS], rows: usize, at: usize) -> usize
    requires { (rows ≤ most_rows) × (at < most_plan_cells) }
    ensures { (result ≡ at + 1) × (out.new ≡ set out.old at rows) }
{
    out[at] = rows as u32;
    at + 1
}

// The plan of a state with one row, where no open place is inside a named column: its open cells in order, each the one branch of the
// leftmost place, and then the leaf. A row that is alone needs no column and no run, and goes down with no call.
fn alone(table: &[u32], start: usize, mask: u32, out: &mut [u32; PLAN_CELLS], at: usize) -> usize
    requires { (length out.old ≡ most_plan_cells) × (at + length (chain (open_in table.now start mask)) ≤ most_plan_cells) }
    ensures { (result ≡ at + length (chain (open_in table.now start mask)))
        × (out.new ≡ sets out.old at (chain (open_in table.now start mask))) }
{
    if table.len() <= start {
        return leaf(out, 1, at);
    }
    let mut left = mask;
    let mut next = at;
    while 0 < left {
        let z = u32::trailing_zeros(left);
        let here = start + z as usize;
        if table.len() <= here {
            return leaf(out, 1, next);
        }
        let second = next + 1;
        let third = next + 2;
        out[next] = 0;
        out[second] = 1;
        out[third] = table[here];
        left -= 1 << z;
        next += 3;
    }
    leaf(out, 1, next)
}

// The plan of a state, from a place on; the place after it. A row that is alone is written cell by cell where no flag is set; with flags the
// leftmost place that may be chosen need not be the first, and it goes by its agreed places as other rows do. Where none is agreed the place
// kept for the first and last row is taken.
#[cycle(branches_state)]
fn state(
    table: &[u32],
    starts: &[usize; ROWS],
    masks: &mut [u32; ROWS],
    column: &mut [u32; ROWS],
    kept: &[u32],
    out: &mut [u32; PLAN_CELLS],
    rows: Rows,
    at: usize,
) -> usize
    requires { ToWrite table.now starts.now masks.old column.old kept.now out.old
        rows.first rows.end rows.opens rows.named at }
    ensures { (q : ToWrite table.now starts.now masks.old column.old
        kept.now out.old rows.first rows.end rows.opens rows.named at)
        → Written masks.old column.old out.old
        masks.new column.new out.new (write q.plan) rows.end at result }
{
    let first = rows.first;
    let end = rows.end;
    if end - first == 1 && rows.named == 0 {
        return alone(table, starts[first], masks[first], out, at);
    }
    let reached = agreed(table, starts, masks, out, rows, at);
    let opens = reached.opens;
    let next = reached.next;
    if opens == 0 {
        return leaf(out, end - first, next);
    }
    let last = end - 1;
    let pair = ROWS * first + last;
    let i = within(kept[8192 + pair], opens);
    close_rows(table, starts, masks, column, i, first, end);
    let cells = &column[..];
    let count = run_count(&cells[first..end]) as u32;
    let second = next + 1;
    out[next] = i;
    out[second] = count;
    let others = Rows {
        first,
        end,
        opens: opens - 1,
        named: reached.named,
    };
    branches(table, starts, masks, column, kept, out, others, i, next + 2)
}

// The branches from a place on, one for each run of the rows whose open place i is closed; below each, these places are open
// beside its symbol's arguments. The flags are those of the state, place i among them.
#[cycle(branches_state)]
fn branches(
    table: &[u32],
    starts: &[usize; ROWS],
    masks: &mut [u32; ROWS],
    column: &mut [u32; ROWS],
    kept: &[u32],
    out: &mut [u32; PLAN_CELLS],
    rows: Rows,
    i: u32,
    at: usize,
) -> usize
    requires { ToWriteAll table.now starts.now masks.old column.old kept.now out.old
        rows.first rows.end rows.opens rows.named i at }
    ensures { (q : ToWriteAll table.now starts.now masks.old column.old
        kept.now out.old rows.first rows.end rows.opens rows.named i at)
        → Written masks.old column.old out.old
        masks.new column.new out.new (writes q.plans) rows.end at result }
{
    let end = rows.end;
    let mut row = rows.first;
    let mut next = at;
    while row < end {
        let cells = &column[..];
        let n = run_length(&cells[row..end]);
        let c = column[row];
        out[next] = c;
        let args = cell::arity_of(c);
        let below = Rows {
            first: row,
            end: row + n,
            opens: args + rows.opens,
            named: spread(rows.named, i, args),
        };
        next = state(table, starts, masks, column, kept, out, below, next + 1);
        row += n;
    }
    next
}

// How many cells a plan has, and what it costs where the costs that are kept are the table's.
#[derive(Drop)]
pub struct Extent {
    pub cells: usize,
    pub cost: u32,
}

// The plan of a table's rows, to the front of the cells lent: the first state, with all rows and the width's arguments open,
// the named ones among them as bits. What it costs is kept for the pair of the first row and the last.
pub fn write_plan(
    table: &[u32],
    starts: &[usize; ROWS],
    kept: &[u32],
    out: &mut [u32; PLAN_CELLS],
    named: u64,
    width: usize,
    count: usize,
) -> Extent
    requires { TableRows table.now starts.now width count × (named < 2 ^ width) × (length kept.now ≡ kept_cells)
        × (length out.old ≡ most_plan_cells) }
    ensures { (k : TableRows table.now starts.now width count)
        → Planned k.table named kept.now out.new result.cells result.cost }
{
    let mut masks = open_rows(starts, count, table.len());
    let mut column = [0u32; ROWS];
    let all = Rows {
        first: 0,
        end: count,
        opens: width,
        named,
    };
    let cells = state(
        table,
        starts,
        &mut masks,
        &mut column,
        kept,
        &mut *out,
        all,
        0,
    );
    Extent {
        cells,
        cost: kept[count - 1],
    }
}
