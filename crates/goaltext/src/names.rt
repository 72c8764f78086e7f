// The names of a goal: each looked up among a table's by its bytes, the new ones numbered on; and the goal's cells with these numbers.
ghost use Rattle.std.specs.Prelude.{◌≡◌, ◌++◌, ◌≤◌, ◌<◌, length, get_or, drop};
ghost use Rattle.termtext.specs.Saying.{words_in};
ghost use Rattle.goaltext.specs.code.Steps.{NumberIs, NamesNumbered};
ghost use Rattle.termtext.specs.code.Renumber.{word_number, new_cell, new_cells};
ghost use Rattle.limits.specs.Limits.{most_names};

use cell::Shape;
use lex::name::same_bytes;

// Where a word stands in the list of names; the list's length where it does not.
fn find(text: &[u8], names: &[u32], word: &[u8]) -> usize
    ensures { result ≡ word_number word.now (words_in text.now names.now) }
{
    for (i, name) in names.iter().enumerate() {
        if same_bytes(word, nameword::word(text, *name)) {
            return i;
        }
    }
    names.len()
}

// A name's number, and how many are new with it.
#[derive(Drop)]
pub struct Numbered {
    pub number: usize,
    pub count: usize,
}

// By where it stands among so many known names, and so many new ones before it. A new one is put behind those.
fn number_one(known: usize, at: usize, name: u32, new: &mut [u32], count: usize) -> Numbered
    requires { (known ≤ most_names) × (count < length new.old) × (count ≤ most_names) }
    ensures { NumberIs known at name count new.old new.new result }
{
    if at < known {
        return Numbered { number: at, count };
    }
    new[count] = name;
    Numbered {
        number: known + count,
        count: count + 1,
    }
}

// The numbers of the goal's names, whose list is `list` in `whole`; those that are new are put into `new`. How many they are.
pub fn number_names(
    text: &[u8],
    names: &[u32],
    whole: &[u8],
    list: &[u32],
    numbers: &mut [u32],
    new: &mut [u32],
) -> usize
    requires { (length list.now ≤ length numbers.old) × (length list.now ≤ length new.old) × (length list.now ≤ most_names)
        × (length names.now ≤ most_names) }
    ensures { NamesNumbered (words_in text.now names.now) whole.now list.now
        numbers.old numbers.new new.old new.new result }
{
    let mut count = 0;
    for (i, name) in list.iter().enumerate() {
        let at = find(text, names, nameword::word(whole, *name));
        let next = number_one(names.len(), at, *name, new, count);
        numbers[i] = next.number as u32;
        count = next.count;
    }
    count
}

// A number of the list, 0 for none.
fn number_at(numbers: &[u32], k: u32) -> u32
    ensures { result ≡ get_or numbers.now k 0 }
{
    numbers.get(k as usize).copied().unwrap_or(0)
}

fn new_cell(numbers: &[u32], c: u32) -> u32
    ensures { result ≡ new_cell numbers.now c }
{
    match cell::shape_of(c) {
        Shape::Variable(_) => c,
        Shape::Name(a, n) => cell::name_cell(a, number_at(numbers, n)),
        Shape::Number(_) => c,
        Shape::Refused => c,
    }
}

// The cells with their names' new numbers, put at the front of a room.
pub fn put_cells(row: &[u32], numbers: &[u32], cells: &mut [u32])
    requires { length row.now ≤ length cells.old }
    ensures { cells.new ≡ new_cells numbers.now row.now
        ++ drop (length row.now) cells.old }
{
    for (i, c) in row.iter().enumerate() {
        cells[i] = new_cell(numbers, *c);
    }
}
