// Places of a text: lines and columns, rules and symbols.
#![tactic(auto)]

ghost use Rattle.std.specs.Prelude.{◌≡◌, ◌+◌, ◌^◌, ◌≤◌, ◌<◌, cond, eqb, take};
ghost use Rattle.marks.specs.Marks.{feeds, column_after};

use lex::fact::Head;
use refusal::{Input, Refusal};
use symbols::{Ahead, Spot};

// A line and a column, each from 1; columns count bytes.
#[derive(Clone, Copy)]
pub struct Mark {
    pub line: usize,
    pub column: usize,
}

// Of a place: one more than the line feeds before it, and one more than the bytes after the last of these.
pub fn mark_of(text: &[u8], at: usize) -> Mark
    ensures { (result.line ≡ 1 + feeds (take at text.now))
        × (result.column ≡ column_after 1 (take at text.now)) }
{
    let mut line = 1;
    let mut column = 1;
    let before = &text[..at.min(text.len())];
    for byte in before {
        line += feed(*byte);
        column = column_past(*byte, column);
    }
    Mark { line, column }
}

fn feed(byte: u8) -> usize
    ensures { (result ≡ cond (eqb byte 10) 1 0) × (result ≤ 1) }
{
    if byte == 10 { 1 } else { 0 }
}

fn column_past(byte: u8, column: usize) -> usize
    requires { column + 1 < 2 ^ 64 }
    ensures { (result ≡ cond (eqb byte 10) 1 (column + 1)) × (result ≤ column + 1) }
{
    if byte == 10 { 1 } else { column + 1 }
}

// Where the number before a place begins, with its minus sign.
fn number_start(text: &[u8], end: usize) -> usize {
    if text.len() < end {
        return end;
    }
    for i in (0..end).rev() {
        let byte = text[i];
        if byte == b'-' {
            return i;
        }
        if !byte.is_ascii_digit() {
            return i + 1;
        }
    }
    0
}

// What stands next in a text: a symbol, where it begins and where the text goes on; the arguments of the next rule; or nothing.
#[derive(Clone, Copy)]
pub enum Item {
    Symbol(usize, Spot),
    Rule(Spot),
    Nothing,
}

fn item_at(text: &[u8], spot: Spot) -> Item {
    match symbols::next_item(text, spot) {
        Ahead::Name(start, _, to) => Item::Symbol(start, to),
        Ahead::Variable(start, _, to) => Item::Symbol(start, to),
        Ahead::Number(_, to) => Item::Symbol(number_start(text, to.at), to),
        Ahead::Row(to) => Item::Rule(to),
        Ahead::End => Item::Nothing,
    }
}

// Where the arguments of a rule begin, the first rule being 0; they stand on the line of its name. A text has fewer items than bytes.
fn arguments_at(text: &[u8], rule: usize) -> usize {
    let mut spot = symbols::begin(text);
    let mut left = rule;
    for _ in 0..text.len() {
        if left == 0 {
            return spot.at;
        }
        match item_at(text, spot) {
            Item::Symbol(_, to) => {
                spot = to;
            }
            Item::Rule(to) => {
                spot = to;
                left -= 1;
            }
            Item::Nothing => {
                return spot.at;
            }
        }
    }
    spot.at
}

// Puts a line's number at a place of a list that has one; the place after it. No text has so many lines that the number does not fit a cell.
fn put_at(lines: &mut [u32], at: usize, line: usize) -> usize {
    if lines.len() <= at {
        return at;
    }
    lines[at] = u32::try_from(line).unwrap_or(0);
    at + 1
}

// The line of a place, by that of one before it. No text has so many that they do not fit.
fn line_on(text: &[u8], from: usize, to: usize, line: usize) -> usize {
    let mut n = line;
    for i in from..to.min(text.len()) {
        n = further(n, feed(text[i]));
    }
    n
}

// So many lines further down. No text has so many that they do not fit.
pub fn further(line: usize, more: usize) -> usize {
    line.checked_add(more).unwrap_or(line)
}

// The line of each rule, put at the front of a list: that of its arguments, which is that of its name.
pub fn put_lines(text: &[u8], lines: &mut [u32]) {
    let mut spot = symbols::begin(text);
    let mut line = line_on(text, 0, spot.at, 1);
    let mut rule = put_at(lines, 0, line);
    for _ in 0..text.len() {
        match item_at(text, spot) {
            Item::Symbol(_, to) => {
                line = line_on(text, spot.at, to.at, line);
                spot = to;
            }
            Item::Rule(to) => {
                line = line_on(text, spot.at, to.at, line);
                rule = put_at(lines, rule, line);
                spot = to;
            }
            Item::Nothing => {
                return;
            }
        }
    }
}

// Where a rule begins. Each has the first one's name, and so as many bytes before its arguments.
fn rule_at(text: &[u8], rule: usize) -> usize {
    let first = arguments_at(text, 0);
    let at = arguments_at(text, rule);
    match lex::fact::next_fact(text, 0, true) {
        Head::Open(start, _) => {
            if start <= first && first - start <= at {
                return at - (first - start);
            }
            at
        }
        Head::End => at,
        Head::Stop(_) => at,
    }
}

// Where a symbol begins, the first being 0. The names of the rules themselves are none.
fn symbol_at(text: &[u8], symbol: usize) -> usize {
    let mut spot = symbols::begin(text);
    let mut left = symbol;
    for _ in 0..text.len() {
        match item_at(text, spot) {
            Item::Symbol(start, to) => {
                if left == 0 {
                    return start;
                }
                spot = to;
                left -= 1;
            }
            Item::Rule(to) => {
                spot = to;
            }
            Item::Nothing => {
                return spot.at;
            }
        }
    }
    spot.at
}

// The byte of a text at which it is refused. A text's refusals have their place in its bytes. A table's have it in its cells, which are the
// width, the number of rules and then the text's symbols; the rule after the 64th is the one too many. Of a goal only LENGTH and BIG are
// left, which are of all of it.
pub fn byte_of(text: &[u8], f: Refusal) -> usize {
    let input = f.input;
    let at = f.place;
    match input {
        Input::Text => at,
        Input::Table => {
            if at == 0 {
                return rule_at(text, 0);
            }
            if at == 1 {
                return rule_at(text, 64);
            }
            symbol_at(text, at - 2)
        }
        Input::Goal => rule_at(text, 0),
        Input::Plan | Input::Lent | Input::Figure | Input::Names | Input::File | Input::Columns =>
            0,
    }
}
