// The check of a plan, state by state, and for what it is turned away.
ghost use Rattle.std.specs.Prelude.{◌≡◌, drop};
ghost use Rattle.refusal.specs.Refusal.{told};
ghost use Rattle.plan.specs.Check.{bad_plan};
ghost use Rattle.plan.specs.code.Fits.{Fits};
ghost use Rattle.state.specs.Mask.{kept};
ghost use Rattle.checker.specs.code.Steps.{LeafDone, AloneDone, Ready, ReadyIn, Done, DoneIn};
ghost use Rattle.limits.specs.Limits.{most_row_cells};

use limits::ROWS;
use refusal::{Input, Reason, Refusal};
use state::column::{run_count, run_length};
use state::flags::{may, spread};
use state::mask::{close_at, close_rows};

// A state that is read: its number of branches, and the place after it.
#[derive(Clone, Copy)]
pub struct Seen {
    pub branches: usize,
    pub next: usize,
}

// What is lent for a check: the table's cells, where each of its rows starts, and the plan.
#[derive(Clone, Copy)]
pub struct Lent<'a> {
    pub table: &'a [u32],
    pub starts: &'a [usize; ROWS],
    pub plan: &'a [u32],
}

// What a check writes: for each row the mask of the cells that are still open, and its cell at the place that is closed.
#[derive(Drop)]
pub struct Room {
    pub masks: [u32; ROWS],
    pub column: [u32; ROWS],
}

// A refusal of the plan.
pub fn refusal(reason: Reason, place: usize) -> Refusal
    ensures { told result ≡ bad_plan reason place }
{
    Refusal {
        reason,
        input: Input::Plan,
        place,
    }
}

// A leaf at place `at` of the plan: the number of its rows. So many branches are counted above it.
fn leaf(plan: &[u32], rows: usize, count: usize, at: usize) -> Result<Seen, Refusal>
    ensures { LeafDone plan.now rows count at result }
{
    if plan.len() <= at {
        return Err(refusal(Reason::Ends, at));
    }
    if plan[at] as usize != rows {
        return Err(refusal(Reason::Rows, at));
    }
    Ok(Seen {
        branches: count,
        next: at + 1,
    })
}

// A state with one row, at place `at` of the plan, with k open places, none of them inside a named column: a chain of single branches, one
// for each cell that the row still has, down to its leaf. A row that is alone needs no column and no run, and goes down with no call.
fn alone(
    table: &[u32],
    start: usize,
    mask: u32,
    plan: &[u32],
    k: usize,
    at: usize,
) -> Result<Seen, Refusal>
    requires { Fits most_row_cells k (kept mask (drop start table.now)) }
    ensures { AloneDone table.now start mask plan.now k at result }
{
    let mut left = mask;
    let mut owed = k;
    let mut place = at;
    let mut count = 0;
    while 0 < owed {
        if plan.len() <= place {
            return Err(refusal(Reason::Ends, place));
        }
        let i = plan[place];
        if owed <= i as usize {
            return Err(refusal(Reason::Open, place));
        }
        let second = place + 1;
        if plan.len() <= second {
            return Err(refusal(Reason::Ends, second));
        }
        if plan[second] != 1 {
            return Err(refusal(Reason::Edges, second));
        }
        let third = place + 2;
        if plan.len() <= third {
            return Err(refusal(Reason::Ends, third));
        }
        let closed = close_at(table, start, left, i);
        let c = closed.cell;
        if plan[third] != c {
            return Err(refusal(Reason::Label, third));
        }
        left = closed.mask;
        owed = cell::arity_of(c) + (owed - 1);
        place += 3;
        count += 1;
    }
    leaf(plan, 1, count, place)
}

// The state at place `at` of the plan, with k open places and the rows from first to before end. Bit i of `named` is set where open place i
// is inside a named column; with none set any place may be chosen. It goes no deeper than 32: each state closes one cell of each
// of its rows.
#[cycle(branches_state)]
pub fn state(
    lent: &Lent,
    room: &mut Room,
    first: usize,
    end: usize,
    named: u64,
    k: usize,
    at: usize,
) -> Result<Seen, Refusal>
    requires { Ready lent.now.table.now lent.now.starts.now room.old.masks room.old.column lent.now.plan.now first end named k at }
    ensures { Done lent.now.table.now lent.now.starts.now room.old.masks room.old.column room.new.masks
        room.new.column lent.now.plan.now first end named k at result }
{
    let plan = lent.plan;
    let rows = end - first;
    if rows == 1 && named == 0 {
        return alone(
            lent.table,
            lent.starts[first],
            room.masks[first],
            plan,
            k,
            at,
        );
    }
    if k == 0 {
        return leaf(plan, rows, 0, at);
    }
    if plan.len() <= at {
        return Err(refusal(Reason::Ends, at));
    }
    let i = plan[at];
    if k <= i as usize {
        return Err(refusal(Reason::Open, at));
    }
    if !may(named, i) {
        return Err(refusal(Reason::Early, at));
    }
    close_rows(
        lent.table,
        lent.starts,
        &mut room.masks,
        &mut room.column,
        i,
        first,
        end,
    );
    let next = at + 1;
    if plan.len() <= next {
        return Err(refusal(Reason::Ends, next));
    }
    let cells = &room.column[..];
    if plan[next] as usize != run_count(&cells[first..end]) {
        return Err(refusal(Reason::Edges, next));
    }
    branches(lent, room, first, end, named, i, k - 1, at + 2)
}

// The branches from place `at` on, one for each run of the rows from first to before end, at open place i; below each, k places are open
// beside its symbol's arguments, which are inside the column of their place.
#[cycle(branches_state)]
fn branches(
    lent: &Lent,
    room: &mut Room,
    first: usize,
    end: usize,
    named: u64,
    i: u32,
    k: usize,
    at: usize,
) -> Result<Seen, Refusal>
    requires { ReadyIn lent.now.table.now lent.now.starts.now room.old.masks room.old.column lent.now.plan.now first end named i k at }
    ensures { DoneIn lent.now.table.now lent.now.starts.now room.old.masks room.old.column room.new.masks
        room.new.column lent.now.plan.now first end named i k at result }
{
    let plan = lent.plan;
    let mut row = first;
    let mut place = at;
    let mut count = 0;
    while row < end {
        if plan.len() <= place {
            return Err(refusal(Reason::Ends, place));
        }
        let label = plan[place];
        let c = room.column[row];
        if label != c {
            return Err(refusal(Reason::Label, place));
        }
        let cells = &room.column[..];
        let n = run_length(&cells[row..end]);
        let args = cell::arity_of(c);
        // where no flag stands none does below, and no call is made
        let mut flags = 0;
        if named != 0 {
            flags = spread(named, i, args);
        }
        let open = args + k;
        let under = place + 1;
        let below = state(lent, room, row, row + n, flags, open, under)?;
        count += 1 + below.branches;
        place = below.next;
        row += n;
    }
    Ok(Seen {
        branches: count,
        next: place,
    })
}
