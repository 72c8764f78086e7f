// The symbols of a text, one after another, by what stands at a place: nothing is kept but how many names are open. What is read
// of a text that is none ends where it stops.
#![tactic(auto)]

ghost use Rattle.symbols.specs.Next.{RowEnds, Begins, RowAhead, NextIs};

use lex::fact::Head;
use lex::turn::Turn;

// A place inside a fact: whether a term has just been read, and how many names are open.
#[derive(Clone, Copy)]
pub struct Spot {
    pub at: usize,
    pub past: bool,
    pub depth: usize,
}

// After a fact's last bracket: where the next one's arguments begin, unless it was the last.
pub fn row_end(text: &[u8], at: usize) -> Option<usize>
    ensures { RowEnds text.now at result }
{
    match lex::fact::fact_end(text, at) {
        Ok(q) => match lex::fact::next_fact(text, q, false) {
            Head::Open(_, e) => Some(e + 1),
            Head::End => None,
            Head::Stop(_) => None,
        },
        Err(_) => None,
    }
}

// Where the first fact's arguments begin.
pub fn begin(text: &[u8]) -> Spot
    ensures { Begins text.now result }
{
    let at = match lex::fact::next_fact(text, 0, true) {
        Head::Open(_, e) => e + 1,
        Head::End => 0,
        Head::Stop(_) => 0,
    };
    Spot {
        at,
        past: false,
        depth: 0,
    }
}

// What stands next, marks passed over: a name's start and the place after it, with its bracket or without; a variable's; a number; that
// another row begins; or nothing.
#[derive(Drop)]
pub enum Ahead {
    Name(usize, usize, Spot),
    Variable(usize, usize, Spot),
    Number(usize, Spot),
    Row(Spot),
    End,
}

// After the last bracket of a fact.
fn row_ahead(text: &[u8], at: usize) -> Ahead
    ensures { RowAhead text.now at result }
{
    match row_end(text, at) {
        Some(q) => Ahead::Row(Spot {
            at: q,
            past: false,
            depth: 0,
        }),
        None => Ahead::End,
    }
}

pub fn next_item(text: &[u8], sp: Spot) -> Ahead
    ensures { NextIs text.now sp result }
{
    let mut at = sp.at;
    let mut past = sp.past;
    let mut depth = sp.depth;
    // no text of this length has so many open
    if text.len() < depth {
        return Ahead::End;
    }
    loop {
        match lex::turn::next_turn(text, at, past) {
            Turn::Name(s, e) => {
                return Ahead::Name(
                    s,
                    e,
                    Spot {
                        at: e,
                        past: true,
                        depth,
                    },
                );
            }
            Turn::Open(s, e) => {
                return Ahead::Name(
                    s,
                    e,
                    Spot {
                        at: e + 1,
                        past: false,
                        depth: depth + 1,
                    },
                );
            }
            Turn::Variable(s, e) => {
                return Ahead::Variable(
                    s,
                    e,
                    Spot {
                        at: e,
                        past: true,
                        depth,
                    },
                );
            }
            Turn::Number(v, e) => {
                return Ahead::Number(
                    v,
                    Spot {
                        at: e,
                        past: true,
                        depth,
                    },
                );
            }
            Turn::Comma(p) => {
                at = p + 1;
                past = false;
            }
            Turn::Close(p) => {
                at = p + 1;
                if depth == 0 {
                    return row_ahead(text, at);
                }
                past = true;
                depth -= 1;
            }
            Turn::Stop(_) => {
                return Ahead::End;
            }
        }
    }
}
