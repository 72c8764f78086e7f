// A reader over a goal (01, "A reader over the goal holds its cells with the place it has reached"). Every function takes
// any cells and any place, past the end too.
#![tactic(auto)]

ghost use Rattle.std.specs.Prelude.{◌≡◌};
ghost use Rattle.goalreader.specs.Read.{step_at, place_after, left_from};

#[derive(Clone, Copy)]
pub struct Reader<'a> {
    pub cells: &'a [u32],
    pub at: usize,
}

// A reader, at any place of the cells.
pub fn reader_at<'a>(cells: &'a [u32], at: usize) -> Reader<'a>
    ensures { (result.cells ≡ cells.entry) × (result.at ≡ at) }
{
    Reader { cells, at }
}

// The cell at the reader's place; none past the end.
pub fn peek<'a>(r: Reader<'a>) -> Option<u32>
    ensures { result ≡ step_at r.entry.cells.now r.entry.at }
{
    r.cells.get(r.at).copied()
}

// The reader once that cell is taken: one place on. Where there is none it stays.
pub fn taken<'a>(r: Reader<'a>) -> Reader<'a>
    ensures { (result.cells ≡ r.entry.cells) × (result.at ≡ place_after r.entry.cells.now r.entry.at) }
{
    let at = if r.at < r.cells.len() { r.at + 1 } else { r.at };
    Reader { cells: r.cells, at }
}

// The place reached.
pub fn place<'a>(r: Reader<'a>) -> usize
    ensures { result ≡ r.entry.at }
{
    r.at
}

// How many cells are left from that place on.
pub fn left<'a>(r: Reader<'a>) -> usize
    ensures { result ≡ left_from r.entry.cells.now r.entry.at }
{
    r.cells.len().saturating_sub(r.at)
}

// The same for a caller that keeps the cells and the place itself. Crate table reads every goal by these two; `taken` and `place` are what a
// caller that keeps a reader needs.

pub fn cell_at(cells: &[u32], at: usize) -> Option<u32>
    ensures { result ≡ step_at cells.now at }
{
    peek(reader_at(cells, at))
}

pub fn cells_left(cells: &[u32], at: usize) -> usize
    ensures { result ≡ left_from cells.now at }
{
    left(reader_at(cells, at))
}
