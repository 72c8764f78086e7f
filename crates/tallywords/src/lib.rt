// What the program ask says of its counts, put into a lent room as the functions of `octets` put their texts: lines of a table, each a number
// at the right of its column and what it counts.
#![tactic(auto)]

ghost use Rattle.std.specs.Prelude.{◌≡◌, ◌-◌, length};
ghost use Rattle.octets.specs.Octets.{Put, decimal};
ghost use Rattle.tallywords.specs.Tallies.{column, more_text, mark_text, fitted_line, words_for, total_line};

use octets::{put_byte, put_decimal, put_word};

// How many digits a number has. No number has over 20.
pub fn digits(n: usize) -> usize
    ensures { result ≡ length (decimal n) }
{
    let mut room = [0u8; 20];
    put_decimal(&mut room, 0, n)
}

fn put_number(out: &mut [u8], to: usize, width: usize, n: usize) -> usize
    ensures { Put out.old out.new to (column width n) result }
{
    let more = width.saturating_sub(digits(n));
    let a = put_word(out, to, b"  ");
    let b = put_word(
        out,
        a,
        slices::bytes::part(b"                    ", 0, more),
    );
    let c = put_decimal(out, b, n);
    put_word(out, c, b"  ")
}

// The largest number stands for all that are larger too.
fn put_more(out: &mut [u8], to: usize, n: usize) -> usize
    ensures { Put out.old out.new to (more_text n) result }
{
    if n == usize::MAX {
        return put_word(out, to, b", or more");
    }
    to
}

fn put_mark(out: &mut [u8], to: usize, n: usize) -> usize
    ensures { Put out.old out.new to (mark_text n) result }
{
    if n == 0 {
        return put_word(out, to, b", never fitted");
    }
    put_more(out, to, n)
}

// How often a rule fitted: its number, the first being 1, and the line on which it stands.
pub fn put_fitted(
    out: &mut [u8],
    to: usize,
    width: usize,
    n: usize,
    rule: usize,
    line: usize,
) -> usize
    ensures { Put out.old out.new to (fitted_line width n rule line) result }
{
    let a = put_number(out, to, width, n);
    let b = message::put_rule(out, a, rule, line);
    let c = put_mark(out, b, n);
    put_byte(out, c, b'\n')
}

// A word for one of what is counted, or that for any other number of them.
pub fn put_words(out: &mut [u8], to: usize, n: usize, one: &[u8], many: &[u8]) -> usize
    ensures { Put out.old out.new to (words_for n one.now many.now) result }
{
    if n == 1 {
        return put_word(out, to, one);
    }
    put_word(out, to, many)
}

// How many there are of something, as a word for one and a word for any other number.
pub fn put_total(
    out: &mut [u8],
    to: usize,
    width: usize,
    n: usize,
    one: &[u8],
    many: &[u8],
) -> usize
    ensures { Put out.old out.new to (total_line width n one.now many.now) result }
{
    let a = put_number(out, to, width, n);
    let b = put_words(out, a, n, one, many);
    let c = put_more(out, b, n);
    put_byte(out, c, b'\n')
}
