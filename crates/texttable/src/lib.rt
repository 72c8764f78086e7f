// Words of a text: the scan, and then the list of its names and the cells of its table, or how many names it has.
#![tactic(auto)]

mod cells;
mod names;
mod numbers;
mod tree;

ghost use Rattle.std.specs.Prelude.{◌≡◌, ◌≤◌, length};
ghost use Rattle.scan.specs.Scan.{Counts};
ghost use Rattle.texttable.specs.Words.{NamesAre, WordsAre};
ghost use Rattle.texttable.specs.code.Cells.{TableIs};
ghost use Rattle.limits.specs.Limits.{most_names, most_table_cells};

use limits::{NAMES, TABLE_CELLS};
use refusal::Refusal;
use scan::Counted;

// The names of a text that is one: so many, listed, and the cells are made; so many, of over 2,048 symbols; or they are passed over.
#[derive(Clone, Copy)]
pub enum NamesRead {
    Listed(usize),
    Counted(usize),
    Passed,
}

// The facts of a text, counted, and its names.
#[derive(Clone, Copy)]
pub struct TextWords {
    pub facts: Counted,
    pub names: NamesRead,
}

// The table's cells: width, number of rows, rows; and the list of names, how many there are.
fn make_table(text: &[u8], c: Counted, list: &mut [u32], made: &mut [u32]) -> usize
    requires { Counts text.now c × (c.symbols ≤ most_names) × (length list.old ≡ most_names) × (length made.old ≡ most_table_cells) }
    ensures { (C : Counts text.now c) → TableIs text.now C.facts list.old list.new
        made.old made.new result }
{
    made[0] = c.width as u32;
    made[1] = c.facts as u32;
    cells::write_cells(text, c.symbols, list, &mut made[2..])
}

// The names of a text whose facts are counted. A table has two cells more than symbols.
fn read_names(
    text: &[u8],
    c: Counted,
    room: usize,
    list: &mut [u32; NAMES],
    made: &mut [u32; TABLE_CELLS],
) -> NamesRead
    requires { Counts text.now c }
    ensures { (C : Counts text.now c) → NamesAre text.now C.facts room list.old
        made.old list.new made.new result }
{
    if room < c.symbols + 2 {
        return NamesRead::Passed;
    }
    if NAMES < c.symbols {
        return NamesRead::Counted(names::count_names(text));
    }
    NamesRead::Listed(make_table(text, c, list, made))
}

// A text, read for a table in so many cells of room. Where it is turned away, where there is no room for its cells, or where it has too many
// symbols for a table, nothing is written.
pub fn read_words(
    text: &[u8],
    room: usize,
    list: &mut [u32; NAMES],
    made: &mut [u32; TABLE_CELLS],
) -> Result<TextWords, Refusal>
    ensures { WordsAre text.now room list.old made.old list.new made.new result }
{
    let facts = scan::scan_text(text)?;
    let names = read_names(text, facts, room, list, made);
    Ok(TextWords { facts, names })
}
