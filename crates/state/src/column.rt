// A column: the cells that a state's rows have at one place, in row order. Neighbours that agree are one run (01, "Plans").
ghost use Rattle.std.specs.Prelude.{◌≡◌};
ghost use Rattle.plan.specs.Runs.{agree};
ghost use Rattle.state.specs.Column.{run_length, run_count};

// The same name or the same number; variables of two rows, of kind 0, never agree. Kind 3 is in no table that is read, and is one symbol
// with itself.
pub fn same_symbol(c: u32, d: u32) -> bool
    ensures { result ≡ agree c d }
{
    if c != d {
        return false;
    }
    match cell::kind(c) {
        1..=3 => true,
        _ => false,
    }
}

// How many rows the first run has.
pub fn run_length(column: &[u32]) -> usize
    ensures { result ≡ run_length column.now }
{
    for n in 1..column.len() {
        if !same_symbol(column[n - 1], column[n]) {
            return n;
        }
    }
    column.len()
}

// How many runs there are.
pub fn run_count(column: &[u32]) -> usize
    ensures { result ≡ run_count column.now }
{
    if column.is_empty() {
        return 0;
    }
    let mut count = 1;
    for row in 1..column.len() {
        if !same_symbol(column[row - 1], column[row]) {
            count += 1;
        }
    }
    count
}
