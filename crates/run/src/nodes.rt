// The goal as nodes: its cells are the nodes 0 to 31, and the arguments that the walk makes are those from 32 to 63. A symbol of the goal
// is a node that is bound for good. A variable of the goal is the node of its first cell; its other cells name that node.
ghost use Rattle.std.specs.Prelude.{◌≡◌, ◌≤◌, ◌<◌, length, replicate, set};
ghost use Rattle.table.specs.All.{All};
ghost use Rattle.table.specs.Table.{up_from};
ghost use Rattle.walking.specs.code.Link.{steps};
ghost use Rattle.walking.specs.code.Goal.{hop_of, Whole, Stepped, Named, first_of};
ghost use Rattle.limits.specs.Limits.{most_row_cells};

use limits::ROW_CELLS;
use plannotes::packed::wide;

// Past the number of every branch.
pub const EVER: u16 = 4095;

// No cell of a goal.
// Stays: a number, and no Option: `first_of` (crate walking, specs/code/Goal) says of the array itself what stands in it.
const NONE: u8 = 64;

// The numbers from `first` on.
fn numbers(first: usize) -> [u8; 64]
    requires { first ≤ 1 }
    ensures { result ≡ up_from first 64 }
{
    let mut table = [0u8; 64];
    for r in 0..64 {
        table[r] = (first + r) as u8;
    }
    table
}

// Where `a` steps lead from a number: past so many terms.
fn hop(sib: &[u8; 64], from: usize, a: usize) -> usize
    requires { All (λ x. x < 64) (steps sib.now a from) }
    ensures { result ≡ hop_of sib.now a from }
{
    let mut q = from;
    for _ in 0..a {
        q = wide(sib[q]);
    }
    q
}

// For each of the goal's cells the place after its term, filled from the last cell to the first; for an argument the next number.
pub fn siblings(goal: &[u32]) -> [u8; 64]
    requires { Whole goal.now }
    ensures { Stepped goal.now result }
{
    let mut sib = numbers(1);
    for p in (0..goal.len()).rev() {
        let a = cell::arity_of(goal[p]);
        sib[p] = hop(&sib, p + 1, a) as u8;
    }
    sib
}

// The first cell of the variable `v`: `p` where it has none so far.
fn first_cell(first: &mut [u8; ROW_CELLS], v: usize, p: usize) -> u8
    requires { (v < most_row_cells) × (p < most_row_cells) × (length first.old ≡ most_row_cells) }
    ensures { (result ≡ first_of first.old v p) × (first.new ≡ set first.old v (first_of
        first.old v p)) }
{
    let f = first[v];
    if f == NONE {
        let q = p as u8;
        first[v] = q;
        return q;
    }
    f
}

// The node of each cell of the goal, and for an argument itself. The goal's symbols are bound for good.
pub fn name_cells(
    goal: &[u32],
    bound: &mut [u32; 64],
    args: &mut [u8; 64],
    until: &mut [u16; 64],
) -> [u8; 64]
    requires { Whole goal.now × (length bound.old ≡ 64) × (length args.old ≡ 64) × (until.old ≡ replicate 64 0) }
    ensures { Named goal.now result bound.new args.new until.new }
{
    let mut rep = numbers(0);
    let mut first = [NONE; ROW_CELLS];
    for (p, &c) in goal.iter().enumerate() {
        match cell::kind(c) {
            0 => rep[p] = first_cell(&mut first, c as usize, p),
            _ => {
                bound[p] = c;
                args[p] = (p + 1) as u8;
                until[p] = EVER;
            }
        }
    }
    rep
}
