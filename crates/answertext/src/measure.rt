// How many bytes the text of some terms has, before it is put. A name is measured where it stands. All else is short: it is put into a small
// room of this side and counted there, so that one code says how it is written.
ghost use Rattle.std.specs.Prelude.{◌≡◌, [], ◌^◌, ◌≤◌, ◌<◌, length, get_or};
ghost use Rattle.cell.specs.Cell.{values_at};
ghost use Rattle.termtext.specs.Saying.{words_in, words_of, symbol_word};
ghost use Rattle.answertext.specs.Terms.{terms_said};

use super::{Dictionary, put_mark, put_symbol_in};
use cell::Shape;
use limits::REPLY_CELLS;

// The bytes of the word at a number of one list; none for a number that the list has not.
fn listed_bytes(text: &[u8], names: &[u32], k: usize) -> usize
    ensures { (result ≡ length (get_or (words_in text.now names.now) k [])) × (result ≤ 65535) }
{
    if names.len() <= k {
        return 0;
    }
    nameword::word(text, names[k]).len()
}

// The bytes of the word of a name by its number.
fn name_bytes(words: &Dictionary, k: usize) -> usize
    ensures { (result ≡ length (get_or
        (words_of words.now.text.now words.now.names.now words.now.goal.now words.now.new.now) k []))
        × (result ≤ 65535) }
{
    let names = words.names;
    if k < names.len() {
        return listed_bytes(words.text, names, k);
    }
    listed_bytes(words.goal, words.new, k - names.len())
}

// The bytes of a symbol's word. A variable and a number have 16 bits, and so a mark and five digits at most.
fn symbol_bytes(words: &Dictionary, c: u32) -> usize
    ensures { (result ≡ length (symbol_word
        (words_of words.now.text.now words.now.names.now words.now.goal.now words.now.new.now)
        (values_at c))) × (result ≤ 65535) }
{
    let mut room = [0u8; 6];
    match cell::shape_of(c) {
        Shape::Variable(_) => put_symbol_in(&mut room, 0, words, c),
        Shape::Name(_, n) => name_bytes(words, n as usize),
        Shape::Number(_) => put_symbol_in(&mut room, 0, words, c),
        Shape::Refused => 0,
    }
}

// The bytes of what `put_terms` puts where there is room. After a cell at most the 1,024 open brackets are closed, or all but one and `, ` follows:
// 1,025 bytes are enough for that.
pub fn terms_bytes(
    text: &[u8],
    names: &[u32],
    goal: &[u8],
    new: &[u32],
    width: usize,
    cells: &[u32],
) -> usize
    ensures { (result ≡ length (terms_said (words_of text.now names.now goal.now new.now) width
        cells.now)) × (result < 2 ^ 27) }
{
    if REPLY_CELLS < cells.len() {
        return 0;
    }
    let words = Dictionary {
        text,
        names,
        goal,
        new,
    };
    let mut room = [0u8; 1025];
    let mut owed = [0usize; 1025];
    owed[0] = width;
    let mut sum = 0;
    let mut depth = 1;
    for c in cells {
        let word = symbol_bytes(&words, *c);
        let next = put_mark(&mut room, 0, &mut owed, depth, cell::arity_of(*c));
        sum += word + next.to;
        depth = next.depth;
    }
    sum
}
