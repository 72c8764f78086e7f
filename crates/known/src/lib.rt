// The columns that `--known` lists, columns as such a list, and what is said where one of them is not there.
#![tactic(auto)]

ghost use Rattle.std.specs.Prelude.{◌≡◌};
ghost use Rattle.octets.specs.Octets.{Put};
ghost use Rattle.known.specs.Known.{step_of, Listing, next_text, list_text, column_line};

use console::NAME;
use message::put_number_of;
use octets::cells::put_cell;
use octets::{put_byte, put_decimal, put_word};

// The number of the refusal COLUMN.
pub const COLUMN: usize = 33;

// After a byte of a list: the value of the digits so far; the column that ends there; or it is no list.
#[derive(Clone, Copy)]
pub enum Step {
    Number(u32),
    Column(u32),
    Wrong,
}

// A comma ends a number, which is counted from 1. A number has at most nine digits that count.
fn step_of(number: u32, byte: u8) -> Step
    ensures { result ≡ step_of number byte }
{
    if byte == b',' {
        if number == 0 {
            return Step::Wrong;
        }
        return Step::Column(number - 1);
    }
    if byte < b'0' {
        return Step::Wrong;
    }
    if b'9' < byte {
        return Step::Wrong;
    }
    if 100000000 <= number {
        return Step::Wrong;
    }
    Step::Number(10 * number + (byte - b'0') as u32)
}

// A list as `1,3`: numbers from 1 with commas between them, in any order, with repeats. How many columns it has, the first being 0; nothing where
// the word is no list. What stands before a fault is put all the same.
pub fn read_list(word: &[u8], columns: &mut [u32]) -> Option<usize>
    ensures { Listing word.now columns.old columns.new result }
{
    let mut n = 0;
    let mut number = 0;
    for byte in word {
        match step_of(number, *byte) {
            Step::Number(next) => number = next,
            Step::Column(c) => {
                n = put_cell(columns, n, c);
                number = 0;
            }
            Step::Wrong => return None,
        }
    }
    if number == 0 {
        return None;
    }
    Some(put_cell(columns, n, number - 1))
}

// The columns of the list that is an argument; none where there is no list. One that is too long for a name is no list.
pub fn columns_of(rt: HostRuntime, list: Option<usize>, columns: &mut [u32]) -> Option<usize> {
    match list {
        None => Some(0),
        Some(i) => {
            let mut word = [0u8; NAME];
            let n = console::word(rt, i, &mut word);
            read_list(&word[..n], columns)
        }
    }
}

// The next number of a list, before which so many stand.
fn put_next(out: &mut [u8], to: usize, before: usize, number: usize) -> usize
    ensures { Put out.old out.new to (next_text before number) result }
{
    if before == 0 {
        return put_decimal(out, to, number);
    }
    let on = put_byte(out, to, b',');
    put_decimal(out, on, number)
}

// Columns as a list that `read_list` reads, the first column being 0.
pub fn put_list(out: &mut [u8], to: usize, columns: &[u32]) -> usize
    ensures { Put out.old out.new to (list_text 0 columns.now) result }
{
    let mut on = to;
    for (before, column) in columns.iter().enumerate() {
        on = put_next(out, on, before, *column as usize + 1);
    }
    on
}

// A column is not there: the list, and how many columns the rules of a file have.
pub fn put_column(out: &mut [u8], to: usize, list: &[u8], path: &[u8], width: usize) -> usize
    ensures { Put out.old out.new to (column_line list.now path.now width) result }
{
    let a = put_word(out, to, b"--known ");
    let b = put_word(out, a, list);
    let c = put_word(out, b, b": COLUMN 33: the rules of ");
    let d = put_word(out, c, path);
    let e = put_word(out, d, b" have ");
    put_number_of(out, e, width, b" column\n", b" columns\n")
}

// To standard error, of the list that is an argument.
pub fn complain(rt: HostRuntime, i: usize, path: &[u8], width: usize, out: &mut [u8]) {
    let mut word = [0u8; NAME];
    let n = console::word(rt, i, &mut word);
    let to = put_column(out, 0, &word[..n], path, width);
    page::complain(rt, out, to);
}
