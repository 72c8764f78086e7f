// The refusal's name and number, and what is expected.
ghost use Rattle.octets.specs.Octets.{Put};
ghost use Rattle.message.specs.Message.{by_number, stopped, reason_of};
ghost use Rattle.message.specs.code.Numbers.{facts_number, goal_number};

use octets::{put_decimal, put_word};
use refusal::Reason;

// What is refused: a file of facts, or a goal.
#[derive(Clone, Copy)]
pub enum Whose {
    Facts,
    Goal,
}

pub fn put_reason(out: &mut [u8], to: usize, whose: Whose, reason: Reason, said: &[u8]) -> usize
    ensures { Put out.old out.new to (reason_of whose reason said.now) result }
{
    let number = refusal::number_of(reason);
    match whose {
        Whose::Facts => put_facts_reason(out, to, number, said),
        Whose::Goal => put_goal_reason(out, to, number, said),
    }
}

// By 01's number. No text of facts is refused for another reason than these.
fn put_facts_reason(out: &mut [u8], to: usize, number: usize, said: &[u8]) -> usize
    ensures { Put out.old out.new to (facts_number number said.now) result }
{
    match number {
        1 => put_word(
            out,
            to,
            b"LENGTH 1: at most 2,048 names, variables and numbers are expected in all rules",
        ),
        2 => put_word(out, to, b"WIDTH 2: 1 to 8 arguments are expected"),
        3 => put_word(out, to, b"COUNT 3: at most 64 rules are expected"),
        4 => put_word(
            out,
            to,
            b"LONG 4: at most 32 names, variables and numbers are expected in a rule",
        ),
        17 => put_word(out, to, b"BYTES 17: at most 65,535 bytes are expected"),
        18 => put_text(out, to, said),
        19 => put_word(
            out,
            to,
            b"OTHER 19: the first rule's name and number of arguments are expected",
        ),
        24 => put_word(
            out,
            to,
            b"SAME 24: a rule that does not stand above is expected, or one with a variable",
        ),
        _ => put_number(out, to, number),
    }
}

// And no goal for another than these.
fn put_goal_reason(out: &mut [u8], to: usize, number: usize, said: &[u8]) -> usize
    ensures { Put out.old out.new to (goal_number number said.now) result }
{
    match number {
        1 => put_word(
            out,
            to,
            b"LENGTH 1: at most 32 names, variables and numbers are expected in a goal",
        ),
        17 => put_word(
            out,
            to,
            b"BYTES 17: at most 65,533 bytes are expected in a goal",
        ),
        18 => put_text(out, to, said),
        19 => put_word(
            out,
            to,
            b"OTHER 19: one term is expected, with the rules' name and number of arguments",
        ),
        25 => put_word(out, to, b"BIG 25: a rule's answer has over 1,024 cells"),
        _ => put_number(out, to, number),
    }
}

fn put_text(out: &mut [u8], to: usize, said: &[u8]) -> usize
    ensures { Put out.old out.new to (stopped said.now) result }
{
    let on = put_word(out, to, b"TEXT 18: ");
    put_word(out, on, said)
}

// A reason that has no words of its own.
pub fn put_number(out: &mut [u8], to: usize, number: usize) -> usize
    ensures { Put out.old out.new to (by_number number) result }
{
    let on = put_word(out, to, b"refusal ");
    put_decimal(out, on, number)
}
