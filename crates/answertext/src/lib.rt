// The text of an answer, put into a lent room as the functions of `octets` put their texts: a reply's cells as a Prolog term, in the names of
// the text that the table was read from, and in the goal's own where the table has them not.
#![tactic(auto)]

pub mod measure;

ghost use Rattle.std.specs.Prelude.{[], ◌≤◌, ◌<◌, length, get_or};
ghost use Rattle.cell.specs.Cell.{values_at};
ghost use Rattle.octets.specs.Octets.{Put};
ghost use Rattle.termtext.specs.Saying.{words_in, words_of, symbol_word, terms_text, said_in};
ghost use Rattle.answertext.specs.Terms.{terms_said};
ghost use Rattle.answertext.specs.code.Levels.{levels, Closes, Marks};
ghost use Rattle.limits.specs.Limits.{most_reply_cells};

use cell::Shape;
use limits::REPLY_CELLS;
use octets::{put_byte, put_decimal, put_word};
use termtext::Predicate;

// The names that an answer is said in: those of the text that the table was read from, and the goal's own.
// Stays: `put_symbol`, `put_terms`, `put_answer` and `measure::terms_bytes` take the four slices one by one, as other crates call them.
#[derive(Clone, Copy)]
struct Dictionary<'a> {
    text: &'a [u8],
    names: &'a [u32],
    goal: &'a [u8],
    new: &'a [u32],
}

// The word at a number of one list; nothing for a number that the list has not.
pub fn put_listed(out: &mut [u8], to: usize, text: &[u8], names: &[u32], k: usize) -> usize
    ensures { Put out.old out.new to (get_or (words_in text.now names.now) k []) result }
{
    if names.len() <= k {
        return to;
    }
    put_word(out, to, nameword::word(text, names[k]))
}

// The word of a name by its number: the table's names come first, and the goal's new ones are numbered on from them.
fn put_name(out: &mut [u8], to: usize, words: &Dictionary, k: usize) -> usize
    ensures { Put out.old out.new to
        (get_or (words_of words.now.text.now words.now.names.now words.now.goal.now words.now.new.now)
        k []) result }
{
    let names = words.names;
    if k < names.len() {
        return put_listed(out, to, words.text, names, k);
    }
    put_listed(out, to, words.goal, words.new, k - names.len())
}

// A symbol's word in these names.
fn put_symbol_in(out: &mut [u8], to: usize, words: &Dictionary, c: u32) -> usize
    ensures { Put out.old out.new to
        (symbol_word
        (words_of words.now.text.now words.now.names.now words.now.goal.now words.now.new.now)
        (values_at c)) result }
{
    match cell::shape_of(c) {
        Shape::Variable(n) => {
            let on = put_byte(out, to, b'_');
            put_decimal(out, on, n as usize)
        }
        Shape::Name(_, n) => put_name(out, to, words, n as usize),
        Shape::Number(_) => printing::put_value(out, to, c),
        Shape::Refused => to,
    }
}

// A symbol's word.
pub fn put_symbol(
    out: &mut [u8],
    to: usize,
    text: &[u8],
    names: &[u32],
    goal: &[u8],
    new: &[u32],
    c: u32,
) -> usize
    ensures { Put out.old out.new to
        (symbol_word (words_of text.now names.now goal.now new.now) (values_at c)) result }
{
    let words = Dictionary {
        text,
        names,
        goal,
        new,
    };
    put_symbol_in(out, to, &words, c)
}

// Where the text goes on, and how many brackets are open.
#[derive(Drop)]
pub struct Spot {
    pub to: usize,
    pub depth: usize,
}

// After a complete term. `owed` has the terms owed inside each open bracket, the outermost first.
fn put_closing(out: &mut [u8], to: usize, owed: &mut [usize], depth: usize) -> Spot
    requires { depth ≤ length owed.old }
    ensures { Closes out.old out.new to owed.old owed.new depth result }
{
    let mut on = to;
    for level in (0..depth).rev() {
        let n = owed[level];
        if 1 < n {
            owed[level] = n - 1;
            on = put_word(out, on, b", ");
            return Spot {
                to: on,
                depth: level + 1,
            };
        }
        on = put_byte(out, on, b')');
    }
    Spot { to: on, depth: 0 }
}

// After a symbol with so many arguments.
fn put_mark(out: &mut [u8], to: usize, owed: &mut [usize], depth: usize, args: usize) -> Spot
    requires { depth < length owed.old }
    ensures { Marks out.old out.new to owed.old owed.new depth args result }
{
    if args == 0 {
        return put_closing(out, to, owed, depth);
    }
    owed[depth] = args;
    let on = put_byte(out, to, b'(');
    Spot {
        to: on,
        depth: depth + 1,
    }
}

// The terms of some cells, and the bracket after them. `owed` has first what is owed in the bracket that is open. There is an open bracket for
// each cell before at most, and that one, so that one counter more than cells is enough.
fn put_counted(
    out: &mut [u8],
    to: usize,
    words: &Dictionary,
    owed: &mut [usize],
    cells: &[u32],
) -> usize
    requires { (length cells.now < length owed.old) × (length cells.now ≤ most_reply_cells) }
    ensures { Put out.old out.new to
        (terms_text
        (words_of words.now.text.now words.now.names.now words.now.goal.now words.now.new.now)
        (levels owed.old 1) cells.now) result }
{
    let mut on = to;
    let mut depth = 1;
    for c in cells {
        on = put_symbol_in(out, on, words, *c);
        let next = put_mark(out, on, owed, depth, cell::arity_of(*c));
        on = next.to;
        depth = next.depth;
    }
    on
}

// The terms of some cells, so many of them owed in the bracket that is open, and the bracket after them. Few answers have over 63 cells, and
// no other waits until counters for 1,024 are cleared.
pub fn put_terms(
    out: &mut [u8],
    to: usize,
    text: &[u8],
    names: &[u32],
    goal: &[u8],
    new: &[u32],
    width: usize,
    cells: &[u32],
) -> usize
    ensures { Put out.old out.new to
        (terms_said (words_of text.now names.now goal.now new.now) width cells.now) result }
{
    if REPLY_CELLS < cells.len() {
        return to;
    }
    let words = Dictionary {
        text,
        names,
        goal,
        new,
    };
    if cells.len() < 64 {
        let mut few = [0usize; 64];
        few[0] = width;
        return put_counted(out, to, &words, &mut few, cells);
    }
    let mut owed = [0usize; 1025];
    owed[0] = width;
    put_counted(out, to, &words, &mut owed, cells)
}

// "The answer as Prolog text in the file's own names", at the front of the room.
pub fn put_answer(
    out: &mut [u8],
    text: &[u8],
    names: &[u32],
    goal: &[u8],
    new: &[u32],
    p: Predicate,
    cells: &[u32],
) -> usize
    ensures { Put out.old out.new 0
        (said_in text.now names.now goal.now new.now p cells.now) result }
{
    if REPLY_CELLS < cells.len() {
        return 0;
    }
    let on = put_word(out, 0, slices::bytes::part(text, p.start, p.end));
    let inside = put_byte(out, on, b'(');
    put_terms(out, inside, text, names, goal, new, p.width, cells)
}
