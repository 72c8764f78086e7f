// What the program ask says, put into a lent room as the functions of `octets` put their texts: why a text or a goal is refused, the rules
// that fit, how many they are, and the goal itself.
#![tactic(auto)]

mod reason;

ghost use Rattle.std.specs.Prelude.{◌≡◌, map};
ghost use Rattle.octets.specs.Octets.{Put};
ghost use Rattle.message.specs.Message.{refusal_line, rule_text, numbered_by, counts_line, in_line, goal_line};

use octets::{put_byte, put_decimal, put_word};
pub use reason::{Whose, put_number};
use refusal::Reason;

// A refusal, after the name of what is refused: line, column, the refusal's name and number, and what is expected. `said` says what is expected
// where a text goes on no further.
// Stays: public, and its clause (refusal_line) names the five; line and column are a Mark of crate marks, which stands on other ground.
pub fn put_refused(
    out: &mut [u8],
    to: usize,
    line: usize,
    column: usize,
    whose: Whose,
    reason: Reason,
    said: &[u8],
) -> usize
    ensures { Put out.old out.new to (refusal_line line column whose reason said.now) result }
{
    let a = put_byte(out, to, b':');
    let b = put_decimal(out, a, line);
    let c = put_byte(out, b, b':');
    let d = put_decimal(out, c, column);
    let e = put_word(out, d, b": ");
    let f = reason::put_reason(out, e, whose, reason, said);
    put_byte(out, f, b'\n')
}

// A rule: its number, the first being 1, and the line on which it stands.
pub fn put_rule(out: &mut [u8], to: usize, rule: usize, line: usize) -> usize
    ensures { Put out.old out.new to (rule_text rule line) result }
{
    let a = put_word(out, to, b"rule ");
    let b = put_decimal(out, a, rule);
    let c = put_word(out, b, b", line ");
    put_decimal(out, c, line)
}

// A number and what it counts, as a word for one and a word for any other number.
pub fn put_number_of(out: &mut [u8], to: usize, n: usize, one: &[u8], many: &[u8]) -> usize
    ensures { Put out.old out.new to (numbered_by n one.now many.now) result }
{
    let on = put_decimal(out, to, n);
    if n == 1 {
        return put_word(out, on, one);
    }
    put_word(out, on, many)
}

// The rules that fit, and the branches tried of all that there are.
pub fn put_counts(out: &mut [u8], to: usize, rules: usize, tried: usize, branches: usize) -> usize
    ensures { Put out.old out.new to (counts_line rules tried branches) result }
{
    let a = put_number_of(out, to, rules, b" rule fits, ", b" rules fit, ");
    let b = put_decimal(out, a, tried);
    let c = put_word(out, b, b" of ");
    put_number_of(out, c, branches, b" branch tried\n", b" branches tried\n")
}

// A byte of a goal, as it is printed in one line: line ends are blanks.
fn in_line(byte: u8) -> u8
    ensures { result ≡ in_line byte }
{
    if byte == 10 {
        return 32;
    }
    if byte == 13 {
        return 32;
    }
    byte
}

fn put_in_line(out: &mut [u8], to: usize, goal: &[u8]) -> usize
    ensures { Put out.old out.new to (map in_line goal.now) result }
{
    let mut on = to;
    for byte in goal {
        on = put_byte(out, on, in_line(*byte));
    }
    on
}

// The line before a goal's answers.
pub fn put_goal(out: &mut [u8], to: usize, goal: &[u8]) -> usize
    ensures { Put out.old out.new to (goal_line goal.now) result }
{
    let a = put_word(out, to, b"?- ");
    let b = put_in_line(out, a, goal);
    put_byte(out, b, b'\n')
}
