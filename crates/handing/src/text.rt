// The text of a program, put into a lent room as the functions of `octets` put their texts.
ghost use Rattle.std.specs.Prelude.{◌≤◌, length};
ghost use Rattle.octets.specs.Octets.{Put};
ghost use Rattle.termtext.specs.Saying.{words_in};
ghost use Rattle.clauses.specs.Text.{atom_text, line_text};
ghost use Rattle.clauses.specs.Handed.{text_for};
ghost use Rattle.handing.specs.code.Lines.{One, ProgramWritten};
ghost use Rattle.limits.specs.Limits.{most_row_cells};

use crate::measure::{UP, clause_end, variables};
use octets::{put_decimal, put_word};

// A predicate with its arguments. Their names are all in one list.
// Stays: put_terms of answertext, and its clause (words_in), take the text and the names one by one.
fn put_atom(
    out: &mut [u8],
    to: usize,
    text: &[u8],
    names: &[u32],
    predicate: usize,
    width: usize,
    cells: &[u32],
) -> usize
    requires { length cells.now ≤ most_row_cells }
    ensures { Put out.old out.new to
        (atom_text (words_in text.now names.now) predicate width cells.now) result }
{
    let a = put_word(out, to, b"'P");
    let b = put_decimal(out, a, predicate);
    let c = put_word(out, b, b"'(");
    answertext::put_terms(out, c, text, names, &text[..0], &names[..0], width, cells)
}

// A clause and its line's end. A call is made on the head's variables.
fn put_line(out: &mut [u8], to: usize, text: &[u8], names: &[u32], clause: &[u32]) -> usize
    requires { One clause.now × (4 ≤ length clause.now) }
    ensures { (w : One clause.now) → Put out.old out.new to
        (line_text (words_in text.now names.now) w.it) result }
{
    let n = clause.len();
    let head = &clause[4..n];
    let called = clause[1] as usize;
    let a = put_atom(
        out,
        to,
        text,
        names,
        clause[0] as usize,
        clause[2] as usize,
        head,
    );
    if called == 0 {
        return put_word(out, a, b".\n");
    }
    let b = put_word(out, a, b" :- ");
    let up = UP;
    let v = variables(head);
    let c = put_atom(out, b, text, names, called, v, &up[..v]);
    put_word(out, c, b".\n")
}

// All clauses, from the front of the room on.
pub fn put_program(out: &mut [u8], text: &[u8], names: &[u32], program: &[u32]) -> usize
    requires { ProgramWritten program.now }
    ensures { (w : ProgramWritten program.now) → Put out.old out.new 0
        (text_for text.now names.now w.clauses) result }
{
    let mut on = 0;
    let mut at = 0;
    // Stays: a step goes from one clause's start to the next one's, and counts no index.
    while at < program.len() {
        let end = clause_end(program, at);
        on = put_line(out, on, text, names, &program[at..end]);
        at = end;
    }
    on
}
