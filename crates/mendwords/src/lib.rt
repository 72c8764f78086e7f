// What `card mend` reports of a bad card, put into a lent room as the functions of `octets` put their texts.
#![tactic(auto)]

ghost use Rattle.octets.specs.Octets.{Put};
ghost use Rattle.mendwords.specs.Mended.{report_lines, kept_line, dropped_text, plan_line, bad_line, numbers_text, others_text, other_text};

use message::put_number_of;
use octets::{put_byte, put_decimal, put_word};

// The rules kept of all that the card had, whether its plan is kept, and the numbers of the bad blocks.
// Stays: that the plan is kept or not is what is said (`plan_line`), and chooses no steps.
pub fn put_report(
    out: &mut [u8],
    to: usize,
    kept: usize,
    count: usize,
    keeps: bool,
    bad: &[usize],
) -> usize
    ensures { Put out.old out.new to (report_lines kept count keeps bad.now) result }
{
    let a = put_kept(out, to, kept, count);
    let b = put_plan(out, a, keeps);
    put_bad(out, b, bad)
}

fn put_kept(out: &mut [u8], to: usize, kept: usize, count: usize) -> usize
    ensures { Put out.old out.new to (kept_line kept count) result }
{
    let a = put_decimal(out, to, kept);
    let b = put_word(out, a, b" of ");
    let c = put_number_of(out, b, count, b" rule kept", b" rules kept");
    let d = put_dropped(out, c, kept, count);
    put_byte(out, d, b'\n')
}

// Where all are kept, that is seen already.
fn put_dropped(out: &mut [u8], to: usize, kept: usize, count: usize) -> usize
    ensures { Put out.old out.new to (dropped_text kept count) result }
{
    if count <= kept {
        return to;
    }
    let a = put_word(out, to, b", ");
    let b = put_decimal(out, a, count - kept);
    put_word(out, b, b" dropped")
}

// Stays: as in `put_report`.
#[tactic(auto, unfolding(crate::specs::Mended::plan_line, message::specs::Words::ascii))]
fn put_plan(out: &mut [u8], to: usize, keeps: bool) -> usize
    ensures { Put out.old out.new to (plan_line keeps) result }
{
    if keeps {
        put_word(out, to, b"the plan is kept\n")
    } else {
        put_word(out, to, b"the plan is new\n")
    }
}

fn put_bad(out: &mut [u8], to: usize, bad: &[usize]) -> usize
    ensures { Put out.old out.new to (bad_line bad.now) result }
{
    let a = put_word(out, to, b"bad blocks: ");
    let b = put_numbers(out, a, bad);
    put_byte(out, b, b'\n')
}

// The first number and the others, or that there is none.
fn put_numbers(out: &mut [u8], to: usize, numbers: &[usize]) -> usize
    ensures { Put out.old out.new to (numbers_text numbers.now) result }
{
    match numbers {
        [] => put_word(out, to, b"none"),
        [first, others @ ..] => {
            let on = put_decimal(out, to, *first);
            put_others(out, on, others)
        }
    }
}

fn put_others(out: &mut [u8], to: usize, numbers: &[usize]) -> usize
    ensures { Put out.old out.new to (others_text numbers.now) result }
{
    let mut on = to;
    for n in numbers {
        on = put_other(out, on, *n);
    }
    on
}

fn put_other(out: &mut [u8], to: usize, n: usize) -> usize
    ensures { Put out.old out.new to (other_text n) result }
{
    let a = put_word(out, to, b", ");
    put_decimal(out, a, n)
}
