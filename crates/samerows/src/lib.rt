// Rows compared (02, W-208): whether one stands among others, which are found by where they start; and marks, numbers that tell most rows
// apart.
#![tactic(auto)]

ghost use Rattle.std.specs.Prelude.{◌≡◌, ◌&&◌, length, take, drop};
ghost use Rattle.cell.specs.Same.{same, among};
ghost use Rattle.samerows.specs.Starts.{rows_lent};
ghost use Rattle.samerows.specs.Marks.{mix, has};

use slices::cells::part;

// Whether two rows are the same, from the last cell to the first: neighbours in a table mostly share their first columns.
fn same_cells(a: &[u32], b: &[u32]) -> bool
    ensures { result ≡ same a.now b.now }
{
    if a.len() != b.len() {
        return false;
    }
    for n in (0..a.len()).rev() {
        if a[n] != b[n] {
            return false;
        }
    }
    true
}

// Whether a row is one of those that start at these places, each ending where the next one starts and the last with the cells; row `but`
// is left out.
pub fn stands_among(row: &[u32], cells: &[u32], starts: &[usize], but: usize) -> bool
    ensures { result ≡ among row.now (rows_lent cells.now starts.now but) }
{
    let mut end = cells.len();
    for n in (0..starts.len()).rev() {
        let start = starts[n];
        if n != but && same_cells(row, part(cells, start, end)) {
            return true;
        }
        end = start;
    }
    false
}

// A mark with one cell more. The mark of a row begins with 0 and takes in its cells from the first to the last: equal rows have equal marks.
pub fn mixed(mark: u32, c: u32) -> u32
    ensures { result ≡ mix mark c }
{
    mark.wrapping_mul(65599).wrapping_add(c)
}

// Whether a mark is one of these. All of them are looked at, so that the processor can take several at a time.
pub fn has_mark(marks: &[u32], mark: u32) -> bool
    ensures { result ≡ has mark marks.now }
{
    let mut found = false;
    for m in marks {
        found |= *m == mark;
    }
    found
}

// Whether a row stands among those before it, each of which has its mark here. Where no mark is the row's, none of their cells are looked
// at.
pub fn seen_before(row: &[u32], mark: u32, cells: &[u32], starts: &[usize], marks: &[u32]) -> bool
    ensures { result ≡ (has mark marks.now
        && among row.now (rows_lent cells.now starts.now (length starts.now))) }
{
    has_mark(marks, mark) && stands_among(row, cells, starts, starts.len())
}
