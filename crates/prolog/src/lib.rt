// Tables from Prolog text: the entry. Nothing is written to a lent room before everything is decided: the list of names and the
// cells are made in arrays of this side, for at most 2,048 symbols; where there are more, the table is too long, and names are only
// counted.
#![tactic(auto)]

ghost use Rattle.std.specs.Prelude.{◌≡◌, ◌≤◌, length};
ghost use Rattle.refusal.specs.Refusal.{refused, told, turned};
ghost use Rattle.refusal.specs.declared.Reason.TheVariants as reason;
ghost use Rattle.refusal.specs.declared.Input.TheVariants as input;
ghost use Rattle.loading.specs.Load.{put_first, TextLoads};
ghost use Rattle.prolog.specs.Entry.{text_told, FactsAre};
ghost use Rattle.prolog.specs.code.Parts.{over_of, Gives};

use limits::{NAMES, TABLE_CELLS};
use refusal::{Input, Reason, Refusal};
use scan::Counted;
use texttable::NamesRead;

// How many cells are made, and how many names listed.
#[derive(Clone, Copy)]
pub struct TextSize {
    pub cells: usize,
    pub names: usize,
}

// A lent room that is too small: so many cells are needed.
fn no_room(need: usize) -> Refusal
    ensures { told result ≡ refused reason.Room input.Lent need }
{
    Refusal {
        reason: Reason::Room,
        input: Input::Lent,
        place: need,
    }
}

// Copied to the front of a room.
fn put_front(from: &[u32], room: &mut [u32])
    requires { length from.now ≤ length room.old }
    ensures { room.new ≡ put_first from.now room.old }
{
    octets::cells::put_cells(room, 0, from);
}

// The cells and the list as they are made: the table is read, and only then are they copied.
fn give(
    made: &[u32],
    list: &[u32],
    cells: &mut [u32],
    names: &mut [u32],
) -> Result<TextSize, Refusal>
    requires { (length made.now ≤ length cells.old) × (length list.now ≤ length names.old) }
    ensures { Gives made.now list.now cells.old names.old cells.new
        names.new result }
{
    table::read_table(made)?;
    put_front(made, cells);
    put_front(list, names);
    Ok(TextSize {
        cells: made.len(),
        names: list.len(),
    })
}

// Over 2,048 symbols, with so many names, and room for so many.
fn over(n: usize, room: usize) -> Refusal
    ensures { turned (told result) ≡ over_of n room }
{
    if room < n {
        return no_room(n);
    }
    Refusal {
        reason: Reason::Length,
        input: Input::Table,
        place: 0,
    }
}

pub fn read_text(text: &[u8], cells: &mut [u32], names: &mut [u32]) -> Result<TextSize, Refusal>
    ensures { TextLoads text.now cells.old names.old cells.new names.new
        (text_told result) }
{
    let mut list = [0u32; NAMES];
    let mut made = [0u32; TABLE_CELLS];
    let words = texttable::read_words(text, cells.len(), &mut list, &mut made)?;
    match words.names {
        NamesRead::Listed(n) => {
            if names.len() < n {
                return Err(no_room(n));
            }
            let k = words.facts.symbols + 2;
            give(&made[..k], &list[..n], cells, names)
        }
        NamesRead::Counted(n) => Err(over(n, names.len())),
        NamesRead::Passed => Err(no_room(words.facts.symbols + 2)),
    }
}

// The facts of a text, counted, with their cells and names; or there are over 2,048 symbols.
#[derive(Clone, Copy)]
pub enum FactsMade {
    Made(Counted, TextSize),
    Long(Counted),
}

// The cells and the names of a text, made at the front of two rooms and read as no table: what is asked of a table is not asked of it.
pub fn make_facts(
    text: &[u8],
    made: &mut [u32; TABLE_CELLS],
    list: &mut [u32; NAMES],
) -> Result<FactsMade, Refusal>
    ensures { FactsAre text.now made.old list.old made.new list.new result }
{
    let words = texttable::read_words(text, TABLE_CELLS, list, made)?;
    let facts = words.facts;
    match words.names {
        NamesRead::Listed(names) => {
            let cells = facts.symbols + 2;
            Ok(FactsMade::Made(facts, TextSize { cells, names }))
        }
        NamesRead::Counted(_) => Ok(FactsMade::Long(facts)),
        NamesRead::Passed => Ok(FactsMade::Long(facts)),
    }
}
