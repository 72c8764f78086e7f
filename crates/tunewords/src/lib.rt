// What `ask --tune` says, put into a lent room as the functions of `octets` put their texts: which columns to look at first, what was counted, and
// that a file has more goals than there is room for.
#![tactic(auto)]

ghost use Rattle.octets.specs.Octets.{Put};
ghost use Rattle.tunewords.specs.Tuned.{call_text, look_line, counted_line, full_reason, full_line};

use goallist::Full;
use known::put_list;
use message::put_number_of;
use octets::{put_byte, put_decimal, put_word};
use tallywords::put_words;

// The columns, and the call that looks at them first; where there are none, the call for the plain plan.
fn put_call(out: &mut [u8], to: usize, columns: &[u32]) -> usize
    ensures { Put out.old out.new to (call_text columns.now) result }
{
    if columns.len() == 0 {
        return put_word(out, to, b"the plain plan is best: ask ");
    }
    let a = put_words(
        out,
        to,
        columns.len(),
        b"look at column ",
        b"look at columns ",
    );
    let b = put_list(out, a, columns);
    let c = put_word(out, b, b" first: ask --known ");
    let d = put_list(out, c, columns);
    put_byte(out, d, b' ')
}

// Which columns of a file's rules to look at first, the first column being 0.
pub fn put_look(out: &mut [u8], to: usize, columns: &[u32], path: &[u8]) -> usize
    ensures { Put out.old out.new to (look_line columns.now path.now) result }
{
    let a = put_call(out, to, columns);
    let b = put_word(out, a, path);
    put_byte(out, b, b'\n')
}

// The goals, and the branches that they try by the best plan and by the plain one.
pub fn put_counted(
    out: &mut [u8],
    to: usize,
    goals: usize,
    refused: usize,
    tried: usize,
    plain: usize,
) -> usize
    ensures { Put out.old out.new to (counted_line goals refused tried plain) result }
{
    let a = put_number_of(out, to, goals, b" goal counted, ", b" goals counted, ");
    let b = put_decimal(out, a, refused);
    let c = put_word(out, b, b" refused: ");
    let d = put_number_of(out, c, tried, b" branch tried, ", b" branches tried, ");
    let e = put_decimal(out, d, plain);
    put_word(out, e, b" by the plain plan\n")
}

fn put_reason(out: &mut [u8], to: usize, full: Full) -> usize
    ensures { Put out.old out.new to (full_reason full) result }
{
    match full {
        Full::Goals => put_word(
            out,
            to,
            b":1: COUNT 3: at most 100,000 goals are expected\n",
        ),
        Full::Cells => put_word(
            out,
            to,
            b":1: LENGTH 1: at most 800,000 names, variables and numbers are expected in all goals\n",
        ),
    }
}

// Of the goal on that line of a file there is no room for the words, or for the cells.
pub fn put_full(out: &mut [u8], to: usize, path: &[u8], line: usize, full: Full) -> usize
    ensures { Put out.old out.new to (full_line path.now line full) result }
{
    let a = put_word(out, to, path);
    let b = put_byte(out, a, b':');
    let c = put_decimal(out, b, line);
    put_reason(out, c, full)
}
