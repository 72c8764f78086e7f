// What is kept for every pair of first and last row. For a fixed last row the rows before it are
// added one by one, in front. What is known of a place of the rows so far is noted at the cell that the first of them has
// there. A pair's numbers stand at 64 times its first row plus its last, in each of the three parts of one lent array.
ghost use Rattle.std.specs.Prelude.{◌≡◌, cond, ℕ, ◌+◌, ◌-◌, ◌*◌, ◌/◌, ◌%◌, ◌≤◌, ◌<◌, eqb, ltb, length, get_or};
ghost use Rattle.state.specs.Flags.{flags_in};
ghost use Rattle.least.specs.Measures.{measure_of};
ghost use Rattle.paircosts.specs.Fill.{Refilled};
ghost use Rattle.paircosts.specs.code.Notes.{note_in, note_next, put_note, read_in, end_in, weight_in, most_agreed, Long};
ghost use Rattle.paircosts.specs.code.Notes.{Small, NextRow, RowNoted, LastRow, Alone, past_of, EndsFrom, MarkedFrom};
ghost use Rattle.paircosts.specs.code.Reading.{choice_of, found_of, part_of, price_of, found_to, some_to, sort_of, choice_over};
ghost use Rattle.paircosts.specs.code.Reading.{Range, Inside, Column, Columns, Sorted};
ghost use Rattle.paircosts.specs.code.Filling.{stop_of, pair_row, PairAt, Keeps, KeepsBefore, LastAt, FilledTo, Task, Finished, Rows};
ghost use Rattle.limits.specs.Limits.{most_rows, most_table_cells};

use least::By;
use limits::{ROWS, TABLE_CELLS};

// How many runs the rows so far have at this place, the sum of what each of them costs, all but the first, and the row at
// which the first of them ends. One run: all agree, and the place is closed.
#[derive(Clone, Copy)]
struct Note {
    runs: u32,
    sum: u32,
    to: u32,
}

// The notes of the cells of two neighbouring rows: 64 at most, told apart by their places modulo 64.
type Notes = [Note; 64];

fn note_at(notes: &Notes, q: usize) -> Note
    ensures { result ≡ note_in notes.now q }
{
    notes[q % 64]
}

fn put_note(notes: &mut Notes, q: usize, s: Note)
    ensures { notes.new ≡ put_note notes.old q s }
{
    notes[q % 64] = s;
}

// A cell's mark: 8 times where its term ends, and what the cell weighs.
fn mark_of(end: usize, weight: u16) -> u16
    requires { (end ≤ most_table_cells) × (weight ≤ 5) }
    ensures { result ≡ 8 * end + weight }
{
    8 * (end as u16) + weight
}

// A mark's two parts. (That a parameter fits the wider type is known; of an array's element it would be asked.)
fn end_in(mark: u16) -> usize
    ensures { result ≡ mark / 8 }
{
    (mark / 8) as usize
}

fn weight_in(mark: u16) -> u32
    ensures { result ≡ mark % 8 }
{
    (mark % 8) as u32
}

// The place after so many terms from a cell on, by the marks of the cells from there on; where the cells run out before, the
// place after them.
fn past(cells: &[u32], marks: &[u16; TABLE_CELLS], start: usize, terms: usize) -> usize
    requires { (length cells.now ≤ most_table_cells) × (start ≤ length cells.now) × EndsFrom cells.now marks.now start }
    ensures { result ≡ past_of cells.now terms start }
{
    let mut at = start;
    for _ in 0..terms {
        if cells.len() <= at {
            return at;
        }
        at = end_in(marks[at]);
    }
    at
}

// The marks of all cells, from the last to the first, so that a name's term ends where its last argument's does. A table has at
// most 2,050 cells, so 16 bits are enough, and there is less to clear.
fn mark_cells(by: By, cells: &[u32], marks: &mut [u16; TABLE_CELLS])
    requires { (length cells.now ≤ most_table_cells) × (length marks.old ≡ most_table_cells) }
    ensures { MarkedFrom (measure_of by) cells.now marks.new 0 }
{
    for j in (0..cells.len()).rev() {
        let c = cells[j];
        let terms = cell::arity_of(c);
        let end = past(cells, &*marks, j + 1, terms);
        let weight = measuring::weight_of(by, c);
        marks[j] = mark_of(end, weight);
    }
}

// The next place: a closed one's first argument, or what follows the term at an open one.
fn after(marks: &[u16; TABLE_CELLS], s: Note, q: usize) -> usize
    requires { q < most_table_cells }
    ensures { result ≡ cond (eqb s.runs 1) (q + 1) (end_in marks.now q) }
{
    if s.runs == 1 { q + 1 } else { end_in(marks[q]) }
}

// What is kept for a pair, and no more than any pair of a table costs: whatever stands there, sums of it fit.
fn cost_in(kept: &[u32], first: usize, last: usize) -> u32
    requires { (first < most_rows) × (last < most_rows) × Long kept.now }
    ensures { result ≡ read_in kept.now first last }
{
    kept[ROWS * first + last].min(65535)
}

// The place noted with one row more in front, whose cell there is c, the cell of the row after it being d.
fn next_note(s: Note, kept: &[u32], row: usize, c: u32, d: u32) -> Note
    requires { Small (row + 1) s × Long kept.now }
    ensures { result ≡ note_next (read_in kept.now) s row c d }
{
    if state::column::same_symbol(c, d) {
        return s;
    }
    let to = s.to as usize;
    let ended = cost_in(kept, row + 1, to);
    Note {
        runs: s.runs + 1,
        sum: s.sum + ended,
        to: row as u32,
    }
}

// What the closed cells of a row weigh, with one cell more where its place is closed.
fn with_closed(marks: &[u16; TABLE_CELLS], agreed: u32, s: Note, q: usize) -> u32
    requires { (q < most_table_cells) × (agreed ≤ most_agreed) }
    ensures { result ≡ agreed + cond (eqb s.runs 1) (weight_in marks.now q) 0 }
{
    if s.runs == 1 {
        agreed + weight_in(marks[q])
    } else {
        agreed
    }
}

// A row by its number, and where its cells are in the table.
#[derive(Clone, Copy)]
struct Row {
    number: usize,
    start: usize,
    end: usize,
}

// One row more in front of those that are noted. Its cells and those of the row after it, which begin where its own end,
// are walked side by side: a place that stays closed leads to its arguments, and at any other the term is passed. Answers
// what the closed cells weigh.
fn note_row(
    cells: &[u32],
    marks: &[u16; TABLE_CELLS],
    kept: &[u32],
    notes: &mut Notes,
    row: Row,
) -> u32
    requires { NextRow cells.now marks.now kept.now notes.old row.number row.start row.end }
    ensures { (g : NextRow cells.now marks.now kept.now notes.old
        row.number row.start row.end) → RowNoted g notes.new result }
{
    let number = row.number;
    let stop = row.end;
    let mut agreed = 0;
    let mut p = stop;
    let mut q = row.start;
    while q < stop {
        let s = next_note(note_at(&*notes, p), kept, number, cells[q], cells[p]);
        put_note(&mut *notes, q, s);
        agreed = with_closed(marks, agreed, s, q);
        p = after(marks, s, p);
        q = after(marks, s, q);
    }
    agreed
}

// What the cell c at place q weighs where so many variables of the row are met. Variables are numbered in order of first
// appearance, so that one below that number is met again, and a later meeting costs 1. No name or number is below
// it.
fn weight_after(marks: &[u16; TABLE_CELLS], c: u32, met: u32, q: usize) -> u32
    requires { q < most_table_cells }
    ensures { result ≡ cond (ltb c met) 1 (weight_in marks.now q) }
{
    if c < met { 1 } else { weight_in(marks[q]) }
}

// How many variables are met once a cell is: a new one has the next number.
fn met_after(c: u32, met: u32) -> u32
    requires { met ≤ most_table_cells }
    ensures { result ≡ cond (eqb c met) (met + 1) met }
{
    if c == met { met + 1 } else { met }
}

// A row by itself: every place is closed. Answers what its cells cost, met one after another.
fn note_last(cells: &[u32], marks: &[u16; TABLE_CELLS], notes: &mut Notes, row: Row) -> u32
    requires { LastRow cells.now marks.now notes.old row.number row.start row.end }
    ensures { (g : LastRow cells.now marks.now notes.old
        row.number row.start row.end) → (n : ℕ) × Alone g row.end notes.new result n }
{
    let s = Note {
        runs: 1,
        sum: 0,
        to: row.number as u32,
    };
    let mut agreed = 0;
    let mut met = 0;
    for q in row.start..row.end {
        put_note(&mut *notes, q, s);
        let c = cells[q];
        agreed += weight_after(marks, c, met, q);
        met = met_after(c, met);
    }
    agreed
}

// The cheapest open place so far, and what it costs. No place costs as much as the first one is compared with, 0xffffffff.
#[derive(Clone, Copy)]
struct Choice {
    cost: u32,
    place: u32,
}

// With one open place more, the first to cost less.
fn consider(best: Choice, place: u32, cost: u32) -> Choice
    ensures { result ≡ cond (ltb cost best.cost) (choice_of cost place) best }
{
    if cost < best.cost {
        return Choice { cost, place };
    }
    best
}

// What every open place of a pair is priced by: what the closed cells weigh, and the figure.
#[derive(Clone, Copy)]
struct Base {
    agreed: u32,
    figure: u32,
}

// What an open place costs: the sum of what its runs cost, without the closed cells, which each run's cost has in it, and the
// figure. Of a table no run costs less than they weigh.
fn open_cost(s: Note, kept: &[u32], first: usize, base: Base) -> u32
    requires { Small first s × (base.agreed ≤ most_agreed) × (base.figure ≤ 15) × Long kept.now }
    ensures { result ≡ price_of (read_in kept.now) first base.agreed base.figure s }
{
    let to = s.to as usize;
    let all = s.sum + cost_in(kept, first, to);
    let closed = s.runs * base.agreed;
    if all < closed {
        return base.figure;
    }
    base.figure + (all - closed)
}

// How far the open places of a pair are looked at: the cheapest of those that may be chosen, and how many are passed.
#[derive(Clone, Copy)]
struct Found {
    best: Choice,
    place: u32,
}

// Further by a column that is not named, while a place inside named ones is open: nothing in it is closed, so that it is one
// open place, its argument, and that one may not be chosen.
fn passed(found: Found) -> Found
    requires { found.place ≤ most_table_cells }
    ensures { result ≡ found_of found.best (found.place + 1) }
{
    let best = found.best;
    Found {
        best,
        place: found.place + 1,
    }
}

// What the closed cells of a pair weigh, and whether they are those inside named columns only: so it is while a place inside
// them is open.
#[derive(Clone, Copy)]
struct Part {
    agreed: u32,
    only: bool,
}

// Which pairs are worked out, of a table with so many rows: those that begin before row `top` and end at row `since` or
// later. All others are kept as they stand. With the figure of the measure, and the named columns, a bit for each; where there
// is none, every place may be chosen.
#[derive(Clone, Copy)]
pub struct Asked {
    pub figure: u32,
    pub named: u64,
    pub count: usize,
    pub top: usize,
    pub since: usize,
}

// The last row of a pair, and what the cells weigh that its rows agree on.
#[derive(Drop)]
struct Shared {
    last: usize,
    agreed: u32,
}

// What a pair's values are read off: the marks of the table's cells, what is kept for the pairs, and the notes of the pair's rows.
#[derive(Clone, Copy)]
struct Sheet<'a> {
    marks: &'a [u16; TABLE_CELLS],
    kept: &'a [u32],
    notes: &'a Notes,
}

impl Sheet<'_> {
    // Further, over the open places in a range of cells of the pair's first row, all of which may be chosen; the leftmost of the
    // cheapest.
    fn cheapest(&self, range: Row, base: Base, found: Found) -> Found
        requires { Range self.now.marks.now self.now.kept.now self.now.notes.now range base found }
        ensures { (g : Range self.now.marks.now self.now.kept.now self.now.notes.now range base found)
            → result ≡ found_to g.pair.ok g.pair.prices g.opens }
    {
        let number = range.number;
        let stop = range.end;
        let mut best = found.best;
        let mut place = found.place;
        let mut q = range.start;
        while q < stop {
            let s = note_at(self.notes, q);
            if s.runs != 1 {
                best = consider(best, place, open_cost(s, self.kept, number, base));
                place += 1;
            }
            q = after(self.marks, s, q);
        }
        Found { best, place }
    }

    // The open places of a pair where only those inside named columns may be chosen. The lowest bit is the column's own.
    fn cheapest_named(&self, row: Row, base: Base, named: u64) -> Found
        requires { Inside self.now.marks.now self.now.kept.now self.now.notes.now row base named }
        ensures { (g : Inside self.now.marks.now self.now.kept.now self.now.notes.now row base named)
            → result ≡ found_to g.pair.ok g.pair.prices g.opens }
    {
        let number = row.number;
        let stop = row.end;
        let mut found = Found {
            best: Choice {
                cost: 0xffffffff,
                place: 0,
            },
            place: 0,
        };
        let mut rest = named;
        let mut start = row.start;
        while start < stop {
            let end = end_in(self.marks[start]);
            if rest % 2 == 0 {
                found = passed(found);
            } else {
                let column = Row { number, start, end };
                found = self.cheapest(column, base, found);
            }
            rest = rest / 2;
            start = end;
        }
        found
    }

    // With the cells of one named column more.
    fn part_in(&self, start: usize, end: usize, part: Part) -> Part
        requires { Column self.now.marks.now self.now.notes.now start end part }
        ensures { (g : Column self.now.marks.now self.now.notes.now start end part)
            → (result ≡ part_of (part.agreed + g.weight) (some_to g.ok g.opens)) × (result.agreed ≤ 7 * end) }
    {
        let mut inside = part.agreed;
        let mut only = part.only;
        let mut q = start;
        while q < end {
            let s = note_at(self.notes, q);
            inside = with_closed(self.marks, inside, s, q);
            if s.runs != 1 {
                only = true;
            }
            q = after(self.marks, s, q);
        }
        Part {
            agreed: inside,
            only,
        }
    }

    // The cells of all named columns of a row. The lowest bit is the column's own.
    fn part_named(&self, row: Row, named: u64) -> Part
        requires { Columns self.now.marks.now self.now.notes.now row.start row.end named }
        ensures { (g : Columns self.now.marks.now self.now.notes.now row.start row.end named)
            → (result ≡ part_of g.weight (some_to g.ok g.opens)) × (result.agreed ≤ most_agreed) }
    {
        let stop = row.end;
        let mut part = Part {
            agreed: 0,
            only: false,
        };
        let mut rest = named;
        let mut start = row.start;
        while start < stop {
            let end = end_in(self.marks[start]);
            if rest % 2 == 1 {
                part = self.part_in(start, end, part);
            }
            rest = rest / 2;
            start = end;
        }
        part
    }

    // The closed cells of a pair, which weigh `agreed` where every place that its rows agree on is closed. So they are where no
    // column is named, and where no place inside the named ones stays open.
    fn part_of(&self, row: Row, agreed: u32, named: u64) -> Part
        requires { Columns self.now.marks.now self.now.notes.now row.start row.end named × (agreed ≤ most_agreed) }
        ensures { (g : Columns self.now.marks.now self.now.notes.now row.start row.end named)
            → (result ≡ sort_of agreed g.weight (some_to g.ok g.opens)) × (result.agreed ≤ most_agreed) }
    {
        if named == 0 {
            return Part {
                agreed,
                only: false,
            };
        }
        let part = self.part_named(row, named);
        if part.only {
            return part;
        }
        Part {
            agreed,
            only: false,
        }
    }

    // The cheapest place of a pair of those that may be chosen, and what it costs; 0 and 0 where no place is open. Where only some
    // may be chosen, one of them is open.
    fn best_of(&self, row: Row, part: Part, asked: Asked) -> Choice
        requires { Sorted self.now.marks.now self.now.kept.now self.now.notes.now row part asked }
        ensures { (g : Sorted self.now.marks.now self.now.kept.now self.now.notes.now row part asked)
            → result ≡ choice_over g.pair.ok g.pair.prices g.opens }
    {
        let base = Base {
            agreed: part.agreed,
            figure: asked.figure,
        };
        if part.only {
            let inside = self.cheapest_named(row, base, asked.named);
            let best = inside.best;
            return best;
        }
        let none = Found {
            best: Choice {
                cost: 0xffffffff,
                place: 0,
            },
            place: 0,
        };
        let found = self.cheapest(row, base, none);
        if found.place == 0 {
            return Choice { cost: 0, place: 0 };
        }
        let best = found.best;
        best
    }
}

// The values of a pair, read off the notes at its first row.
// Stays: `fill`'s clause `Fills` says where each of the three numbers stands in the one array that is lent.
fn keep_pair(
    marks: &[u16; TABLE_CELLS],
    kept: &mut [u32],
    notes: &Notes,
    row: Row,
    shared: Shared,
    asked: Asked,
)
    requires { PairAt marks.now kept.old notes.now row shared asked }
    ensures { (g : PairAt marks.now kept.old notes.now row shared asked)
        → Keeps g.m (flags_in g.width asked.named) g.width g.rows g.N row.number shared.last
        kept.old kept.new }
{
    let last = shared.last;
    let sheet = Sheet {
        marks,
        kept: &*kept,
        notes,
    };
    let part = sheet.part_of(row, shared.agreed, asked.named);
    let best = sheet.best_of(row, part, asked);
    let agreed = part.agreed;
    let count = best.cost;
    let chosen = best.place;
    let pair = ROWS * row.number + last;
    kept[pair] = agreed + count;
    kept[4096 + pair] = count;
    kept[8192 + pair] = chosen;
}

// A pair's values, where it begins before row `top`.
fn keep_before(
    marks: &[u16; TABLE_CELLS],
    kept: &mut [u32],
    notes: &Notes,
    row: Row,
    shared: Shared,
    asked: Asked,
)
    requires { PairAt marks.now kept.old notes.now row shared asked }
    ensures { (g : PairAt marks.now kept.old notes.now row shared asked)
        → KeepsBefore g.m (flags_in g.width asked.named) g.width g.rows g.N asked.top row.number
        shared.last kept.old kept.new }
{
    if asked.top <= row.number {
        return;
    }
    keep_pair(marks, &mut *kept, notes, row, shared, asked);
}

// Where a row's cells end: where the next row's begin, and the last row's where the table's end.
fn row_end(cells: &[u32], starts: &[usize; ROWS], count: usize, r: usize) -> usize
    requires { (r < most_rows) × (count ≤ most_rows) }
    ensures { result ≡ stop_of cells.now starts.now count r }
{
    if r + 1 < count {
        starts[r + 1]
    } else {
        cells.len()
    }
}

// All pairs that end at a row: the row by itself, and then with one row more in front after another. The rows from `top` on
// are only noted again.
fn pairs_to(
    cells: &[u32],
    marks: &[u16; TABLE_CELLS],
    starts: &[usize; ROWS],
    kept: &mut [u32],
    row: Row,
    asked: Asked,
)
    requires { LastAt cells.now marks.now starts.now kept.old asked row }
    ensures { (g : LastAt cells.now marks.now starts.now kept.old asked row)
        → FilledTo g.task 0 row.number kept.new }
{
    let last = row.number;
    let mut notes = [Note {
        runs: 0,
        sum: 0,
        to: 0,
    }; 64];
    let mut agreed = note_last(cells, marks, &mut notes, row);
    keep_before(
        marks,
        &mut *kept,
        &notes,
        row,
        Shared { last, agreed },
        asked,
    );
    let mut first = row;
    for number in (0..last).rev() {
        first = Row {
            number,
            start: starts[number],
            end: first.start,
        };
        agreed = note_row(cells, marks, &*kept, &mut notes, first);
        keep_before(
            marks,
            &mut *kept,
            &notes,
            first,
            Shared { last, agreed },
            asked,
        );
    }
}

// The pairs that are asked for: last rows from the first to the last, so that a run's costs are there before they are asked
// for.
fn pairs_again(
    cells: &[u32],
    marks: &[u16; TABLE_CELLS],
    starts: &[usize; ROWS],
    kept: &mut [u32],
    asked: Asked,
)
    requires { Task cells.now marks.now starts.now asked kept.old }
    ensures { (t : Task cells.now marks.now starts.now asked kept.old)
        → Finished t kept.new }
{
    for number in asked.since..asked.count {
        let row = Row {
            number,
            start: starts[number],
            end: row_end(cells, starts, asked.count, number),
        };
        pairs_to(cells, marks, starts, &mut *kept, row, asked);
    }
}

// Marks the cells of a table, and works out the pairs that are asked for.
pub fn asked_pairs(by: By, cells: &[u32], starts: &[usize; ROWS], kept: &mut [u32], asked: Asked)
    requires { Rows cells.now starts.now asked.count × Long kept.old
        × (asked.figure ≡ (measure_of by).figure) × (asked.figure ≤ 15) }
    ensures { (g : Rows cells.now starts.now asked.count)
        → Refilled (measure_of by) (flags_in g.width asked.named) g.width g.rows asked.top asked.since
        kept.old kept.new }
{
    let mut marks = [0; TABLE_CELLS];
    mark_cells(by, cells, &mut marks);
    pairs_again(cells, &marks, starts, kept, asked);
}
