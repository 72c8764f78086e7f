// The words for a plan and its branches, put into a lent room as the functions of `octets` put their texts: its sizes, the places that it looks
// at, and what it finds there.
#![tactic(auto)]

ghost use Rattle.octets.specs.Octets.{Put};
ghost use Rattle.branchwords.specs.Branches.{sizes_text, times_text, owner_text, place_text, blanks_text, symbol_text, found_text};

use message::put_number_of;
use octets::{put_byte, put_decimal, put_word};

// How many rules a plan has, and how many branches.
pub fn put_sizes(out: &mut [u8], to: usize, rules: usize, branches: usize) -> usize
    ensures { Put out.old out.new to (sizes_text rules branches) result }
{
    let a = put_word(out, to, b"plan of ");
    let b = put_number_of(out, a, rules, b" rule, ", b" rules, ");
    put_number_of(out, b, branches, b" branch", b" branches")
}

// A word so many times.
// Stays: `put_holes` of crate heads puts a cell so often and this a word, each by a function of its own with a promise of its own.
pub fn put_times(out: &mut [u8], to: usize, word: &[u8], times: usize) -> usize
    ensures { Put out.old out.new to (times_text times word.now) result }
{
    let mut on = to;
    for _time in 0..times {
        on = put_word(out, on, word);
    }
    on
}

// The name whose argument it is; nothing for the rule's own.
fn put_owner(out: &mut [u8], to: usize, text: &[u8], names: &[u32], owner: u32) -> usize
    ensures { Put out.old out.new to (owner_text text.now names.now owner) result }
{
    if owner == 0 {
        return to;
    }
    let on = put_word(out, to, b" of ");
    answertext::put_listed(out, on, text, names, (owner - 1) as usize)
}

// A place, as crate branchlist has it.
pub fn put_place(out: &mut [u8], to: usize, text: &[u8], names: &[u32], place: u32) -> usize
    ensures { Put out.old out.new to (place_text text.now names.now place) result }
{
    let a = put_word(out, to, b"argument ");
    let b = put_decimal(out, a, (place % 16) as usize);
    put_owner(out, b, text, names, place / 16)
}

// A blank for each argument of a name, in brackets.
fn put_blanks(out: &mut [u8], to: usize, count: usize) -> usize
    ensures { Put out.old out.new to (blanks_text count) result }
{
    if count == 0 {
        return to;
    }
    let a = put_word(out, to, b"(_");
    let b = put_times(out, a, b", _", count - 1);
    put_byte(out, b, b')')
}

// A symbol. A rule's variable fits everything where it is first met.
fn put_symbol(out: &mut [u8], to: usize, text: &[u8], names: &[u32], c: u32) -> usize
    ensures { Put out.old out.new to (symbol_text text.now names.now c) result }
{
    if cell::kind(c) == 0 {
        return put_word(out, to, b"anything");
    }
    let none = [0u32; 0];
    let on = answertext::put_symbol(out, to, text, names, text, &none, c);
    put_blanks(out, on, cell::arity_of(c))
}

// What a branch finds: a cell, and where that variable was first met on the way, 0 where it was not.
pub fn put_found(out: &mut [u8], to: usize, text: &[u8], names: &[u32], c: u32, first: u32) -> usize
    ensures { Put out.old out.new to (found_text text.now names.now c first) result }
{
    if first == 0 {
        return put_symbol(out, to, text, names, c);
    }
    let on = put_word(out, to, b"the same as ");
    put_place(out, on, text, names, first)
}
