// The next turn inside a fact: a symbol or a mark.
ghost use Rattle.std.specs.Prelude.{◌≡◌, true, false, ◌≤◌, length, drop};
ghost use Rattle.grammar.specs.Reader.{limit, bits_after, Solid};
ghost use Rattle.lex.specs.Turns.{Turns};
ghost use Rattle.lex.specs.code.Ends.{Counts, AfterMinus};

use super::{ends, kind};

// What stands next, layout passed over. Before a term: a name, with its bracket or without, a variable or a number; after one: a comma or a
// bracket.
#[derive(Drop)]
pub enum Turn {
    // a name's start and the place after it
    Name(usize, usize),
    // the same, and its bracket is open
    Open(usize, usize),
    Variable(usize, usize),
    // a number's 16 bits and the place after it
    Number(usize, usize),
    Comma(usize),
    Close(usize),
    // no text goes on so
    Stop(usize),
}

// The largest value of a number's digits, after a minus sign or without one.
fn largest(minus: bool) -> usize
    ensures { result ≡ limit minus }
{
    if minus { 32768 } else { 32767 }
}

// A number's 16 bits, two's complement.
fn bits_of(value: usize, minus: bool) -> usize
    requires { value ≤ 32768 }
    ensures { result ≡ bits_after minus value }
{
    if minus {
        (65536 - value) % 65536
    } else {
        value
    }
}

// The digits from a place on, with a value before them.
fn number_from(text: &[u8], at: usize, first: usize, minus: bool) -> Turn
    requires { (at ≤ length text.now) × (first ≤ limit minus) }
    ensures { Counts text.now at minus first result }
{
    let most = largest(minus);
    let mut value = first;
    for i in at..text.len() {
        let byte = text[i];
        if !kind::is_digit(byte) {
            return Turn::Number(bits_of(value, minus), i);
        }
        let n = 10 * value + usize::from(byte - b'0');
        if most < n {
            return Turn::Stop(i);
        }
        value = n;
    }
    Turn::Number(bits_of(value, minus), text.len())
}

// After a minus sign, which a digit follows at once.
fn negative_at(text: &[u8], next: usize) -> Turn
    requires { next ≤ length text.now }
    ensures { AfterMinus text.now next result }
{
    if text.len() <= next {
        return Turn::Stop(next);
    }
    let byte = text[next];
    if kind::is_digit(byte) {
        return number_from(text, next + 1, usize::from(byte - b'0'), true);
    }
    Turn::Stop(next)
}

// Before a term.
fn term_at(text: &[u8], at: usize) -> Turn
    requires { Solid (drop at text.now) }
    ensures { Turns text.now at false result }
{
    if text.len() <= at {
        return Turn::Stop(at);
    }
    let byte = text[at];
    if kind::is_lower(byte) {
        let e = ends::word_end(text, at + 1);
        if kind::stands(text, e, b'(') {
            return Turn::Open(at, e);
        }
        return Turn::Name(at, e);
    }
    if kind::is_upper(byte) {
        return Turn::Variable(at, ends::word_end(text, at + 1));
    }
    if kind::is_digit(byte) {
        return number_from(text, at + 1, usize::from(byte - b'0'), false);
    }
    if byte == b'-' {
        return negative_at(text, at + 1);
    }
    Turn::Stop(at)
}

// After a term.
fn mark_at(text: &[u8], at: usize) -> Turn
    requires { Solid (drop at text.now) }
    ensures { Turns text.now at true result }
{
    if text.len() <= at {
        return Turn::Stop(at);
    }
    let byte = text[at];
    if byte == b',' {
        return Turn::Comma(at);
    }
    if byte == b')' {
        return Turn::Close(at);
    }
    Turn::Stop(at)
}

// The turn from a place on, where a term has just been read (`past`) or is to come.
pub fn next_turn(text: &[u8], at: usize, past: bool) -> Turn
    ensures { Turns text.now at past result }
{
    let p = ends::gap_end(text, at);
    if past {
        mark_at(text, p)
    } else {
        term_at(text, p)
    }
}
