// The cells of an accepted text's symbols and the list of its names, in one pass. A name that is open has its complete arguments in its own
// cell, and each comma and bracket adds one there, so that nothing is kept but which cell is whose, and the words that are met.
ghost use Rattle.std.specs.Prelude.{◌≡◌, false, ◌*◌, ◌≤◌, ◌<◌, length, get_or, set};
ghost use Rattle.cell.specs.Cell.{variable_cell, name_cell, number_cell};
ghost use Rattle.texttable.specs.code.Tree.{Tree};
ghost use Rattle.texttable.specs.code.Cells.{making, with_argument, NamePut, RowMade, Ready, MadeIs, Fresh, Writes, Written};
ghost use Rattle.limits.specs.Limits.{most_names, most_text_bytes};

use super::{numbers, tree};
use lex::turn::Turn;
use limits::NAMES;
use numbers::Row;

// Where the reading is inside a fact: whether a term has just been read, how many names are open, how many cells are written.
#[derive(Drop)]
pub struct Making {
    pub at: usize,
    pub past: bool,
    pub depth: usize,
    pub count: usize,
}

// What is met so far: how many names, and the variables of the row.
#[derive(Drop)]
pub struct Known {
    pub names: usize,
    pub row: Row,
}

// One turn further: on; or all cells are written, and the text has so many names.
// Stays: both go on with a value of their own, and neither is a failure.
#[derive(Drop)]
pub enum Made {
    Go(Making, Known),
    Done(usize),
}

fn name(number: u16) -> u32
    ensures { result ≡ name_cell 0 number }
{
    cell::name_cell(0, u32::from(number))
}

fn variable(number: u16) -> u32
    ensures { result ≡ variable_cell number }
{
    cell::variable_cell(u32::from(number))
}

fn value(number: u16) -> u32
    ensures { result ≡ number_cell number }
{
    cell::number_cell(u32::from(number))
}

// A name is met, and its cell is written; how many names there are now.
// Stays: tried with the rooms as one struct of slices; lent by one reference, no two of them can be lent on at once (no rule of the borrow checker).
fn put_name(
    text: &[u8],
    list: &mut [u32],
    links: &mut [u16],
    cells: &mut [u32],
    names: usize,
    count: usize,
    start: usize,
    end: usize,
) -> usize
    requires { (start ≤ end) × (end ≤ length text.now) × (length text.now < 65536) × (names < length list.old) × (names < most_text_bytes)
        × Tree text.now list.old links.old names × (count < length cells.old) }
    ensures { NamePut text.now list.old links.old names start end list.new
        links.new cells.old cells.new count result }
{
    let n = tree::meet(text, list, links, names, start, end);
    cells[count] = name(n as u16);
    if n == names {
        return names + 1;
    }
    names
}

fn put_variable(cells: &mut [u32], count: usize, number: usize)
    requires { (count < length cells.old) × (number ≤ 65535) }
    ensures { cells.new ≡ set cells.old count (variable_cell number) }
{
    cells[count] = variable(number as u16);
}

fn put_number(cells: &mut [u32], count: usize, v: usize)
    requires { (count < length cells.old) × (v ≤ 65535) }
    ensures { cells.new ≡ set cells.old count (number_cell v) }
{
    cells[count] = value(v as u16);
}

// A name's cell, built again with one more argument.
fn with_argument(c: u32) -> u32
    ensures { result ≡ with_argument c }
{
    cell::name_cell(cell::args(c) + 1, cell::number(c))
}

// One more argument is complete, of the name that is open at this depth.
fn add_argument(cells: &mut [u32], owners: &[u16], depth: usize)
    requires { (depth < length owners.now) × (get_or owners.now depth 0 < length cells.old) }
    ensures { cells.new ≡ set cells.old (get_or owners.now depth 0)
        (with_argument (get_or cells.old (get_or owners.now depth 0) 0)) }
{
    let own = usize::from(owners[depth]);
    cells[own] = with_argument(cells[own]);
}

fn go(at: usize, past: bool, depth: usize, count: usize, k: Known) -> Made
    ensures { result ≡ Made.Go (making at past depth count) k }
{
    Made::Go(
        Making {
            at,
            past,
            depth,
            count,
        },
        k,
    )
}

// After a fact's last bracket: the next one's variables are other ones.
fn after_row(text: &[u8], at: usize, count: usize, k: Known, ways: &mut [u16]) -> Made
    requires { 2 * k.row.named < length ways.old }
    ensures { RowMade text.now at count k ways.old ways.new result }
{
    let names = k.names;
    let row = k.row;
    match symbols::row_end(text, at) {
        Some(q) => {
            tree::clear(ways, row.named);
            go(
                q,
                false,
                0,
                count,
                Known {
                    names,
                    row: Row { named: 0, all: 0 },
                },
            )
        }
        None => Made::Done(names),
    }
}

// One turn. `list` and `links` have the names of the text, `words`, `ways` and `given` the variables of a row.
// Stays: tried with the rooms as one struct of slices; lent by one reference, no two of them can be lent on at once (no rule of the borrow checker).
fn make_on(
    text: &[u8],
    m: Making,
    k: Known,
    list: &mut [u32],
    links: &mut [u16],
    words: &mut [u32],
    ways: &mut [u16],
    given: &mut [u16],
    cells: &mut [u32],
    owners: &mut [u16],
) -> Made
    requires { Ready text.now list.old links.old words.old ways.old given.old cells.old owners.old m k }
    ensures { (R : Ready text.now list.old links.old words.old ways.old
        given.old cells.old owners.old m k)
        → MadeIs text.now R.facts R.start R.listed m list.new links.new words.new
        ways.new given.new cells.new owners.new result }
{
    let depth = m.depth;
    let count = m.count;
    let names = k.names;
    let row = k.row;
    match lex::turn::next_turn(text, m.at, m.past) {
        Turn::Name(s, e) => {
            let n = put_name(text, list, links, cells, names, count, s, e);
            go(e, true, depth, count + 1, Known { names: n, row })
        }
        Turn::Open(s, e) => {
            let n = put_name(text, list, links, cells, names, count, s, e);
            owners[depth] = count as u16;
            go(e + 1, false, depth + 1, count + 1, Known { names: n, row })
        }
        Turn::Variable(s, e) => {
            let met = numbers::number_variable(text, words, ways, given, row, s, e);
            put_variable(cells, count, met.number);
            let row = met.row;
            go(e, true, depth, count + 1, Known { names, row })
        }
        Turn::Number(v, e) => {
            put_number(cells, count, v);
            go(e, true, depth, count + 1, k)
        }
        Turn::Comma(p) => {
            if depth == 0 {
                return go(p + 1, false, depth, count, k);
            }
            add_argument(cells, owners, depth - 1);
            go(p + 1, false, depth, count, k)
        }
        Turn::Close(p) => {
            if depth == 0 {
                return after_row(text, p + 1, count, k, ways);
            }
            add_argument(cells, owners, depth - 1);
            go(p + 1, true, depth - 1, count, k)
        }
        Turn::Stop(_) => Made::Done(names),
    }
}

// Turn after turn, from the first fact's arguments on; how many names there are.
// Stays: the rooms are lent one by one, as to `make_on`.
fn make_all(
    text: &[u8],
    list: &mut [u32],
    links: &mut [u16],
    words: &mut [u32],
    ways: &mut [u16],
    given: &mut [u16],
    cells: &mut [u32],
    owners: &mut [u16],
) -> usize
    requires { Fresh text.now list.old links.old words.old ways.old given.old cells.old owners.old }
    ensures { (F : Fresh text.now list.old links.old words.old ways.old
        given.old cells.old owners.old)
        → Written text.now F.writes.facts cells.old list.old list.new cells.new result }
{
    let first = symbols::begin(text);
    let mut m = Making {
        at: first.at,
        past: false,
        depth: 0,
        count: 0,
    };
    let mut k = Known {
        names: 0,
        row: Row { named: 0, all: 0 },
    };
    loop {
        match make_on(text, m, k, list, links, words, ways, given, cells, owners) {
            Made::Go(next, now_known) => {
                m = next;
                k = now_known;
            }
            Made::Done(n) => {
                return n;
            }
        }
    }
}

// The cells of an accepted text's symbols, put at the front of `cells`, and its names at the front of `list`; how many names there are.
fn write_many(text: &[u8], list: &mut [u32], cells: &mut [u32]) -> usize
    requires { Writes most_names text.now list.old cells.old }
    ensures { (W : Writes most_names text.now list.old cells.old)
        → Written text.now W.facts cells.old list.old list.new cells.new result }
{
    let mut links = [0u16; 4097];
    let mut words = [0u32; NAMES];
    let mut ways = [0u16; 4097];
    let mut given = [0u16; NAMES];
    let mut owners = [0u16; NAMES];
    make_all(
        text,
        list,
        &mut links,
        &mut words,
        &mut ways,
        &mut given,
        cells,
        &mut owners,
    )
}

// The same for at most 512 symbols: most tables have no more, and smaller rooms are sooner cleared.
fn write_few(text: &[u8], list: &mut [u32], cells: &mut [u32]) -> usize
    requires { Writes 512 text.now list.old cells.old }
    ensures { (W : Writes 512 text.now list.old cells.old)
        → Written text.now W.facts cells.old list.old list.new cells.new result }
{
    let mut links = [0u16; 1025];
    let mut words = [0u32; 512];
    let mut ways = [0u16; 1025];
    let mut given = [0u16; 512];
    let mut owners = [0u16; 512];
    make_all(
        text,
        &mut list[..512],
        &mut links,
        &mut words,
        &mut ways,
        &mut given,
        cells,
        &mut owners,
    )
}

// The same for at most so many.
pub fn write_cells(text: &[u8], most: usize, list: &mut [u32], cells: &mut [u32]) -> usize
    requires { Writes most text.now list.old cells.old × (most ≤ most_names) }
    ensures { (W : Writes most text.now list.old cells.old)
        → Written text.now W.facts cells.old list.old list.new cells.new result }
{
    if most <= 512 {
        return write_few(text, list, cells);
    }
    write_many(text, list, cells)
}
