// How many bytes a program's text has, before it is put.
ghost use Rattle.std.specs.Prelude.{suc, ◌+◌, ◌/◌, ◌^◌, ◌≤◌, ◌<◌, cond, eqb, ◌≡◌, [], length, get_or};
ghost use Rattle.cell.specs.Cell.{values_at};
ghost use Rattle.octets.specs.Octets.{decimal};
ghost use Rattle.printing.specs.Printing.{value};
ghost use Rattle.termtext.specs.Saying.{symbol_word};
ghost use Rattle.clauses.specs.code.Size.{atom_bytes, line_bytes};
ghost use Rattle.handing.specs.code.Lines.{blanks, met_in, One, ProgramWritten, Begins};
ghost use Rattle.handing.specs.code.Sizes.{Measured};
ghost use Rattle.limits.specs.Limits.{most_row_cells};

use cell::Shape;
use clauses::ProgramSize;

// How many digits a number has.
fn digits(n: usize) -> usize
    ensures { result ≡ length (decimal n) }
{
    let mut left = n;
    let mut count = 1;
    while 10 <= left {
        left = left / 10;
        count += 1;
    }
    count
}

// The bytes of the value of a cell's 16 bits: a sign is one.
fn value_bytes(c: u32) -> usize
    ensures { (result ≡ length (value c)) × (result ≤ 6) }
{
    let n = cell::number(c);
    if n < 32768 {
        return digits(n as usize);
    }
    1 + digits((65536 - n) as usize)
}

// The bytes that an entry of the list says.
fn entry_bytes(name: u32) -> usize
    ensures { (result ≡ name / 65536) × (result ≤ 65535) }
{
    (name / 65536) as usize
}

// The bytes of a name's word, by its number; none where the list has no such name.
fn name_bytes(names: &[u32], n: usize) -> usize
    ensures { (result ≡ length (get_or (blanks names.now) n [])) × (result ≤ 65535) }
{
    if names.len() <= n {
        return 0;
    }
    entry_bytes(names[n])
}

// The bytes of a cell's word.
fn word_bytes(names: &[u32], c: u32) -> usize
    ensures { (result ≡ length (symbol_word (blanks names.now) (values_at c))) × (result ≤ 65535) }
{
    match cell::shape_of(c) {
        Shape::Variable(n) => 1 + digits(n as usize),
        Shape::Name(_, n) => name_bytes(names, n as usize),
        Shape::Number(_) => value_bytes(c),
        Shape::Refused => 0,
    }
}

// A predicate's word, and for each cell its own and two bytes of marks.
fn atom_bytes(names: &[u32], k: u32, cells: &[u32]) -> usize
    requires { length cells.now ≤ most_row_cells }
    ensures { (result ≡ atom_bytes (blanks names.now) k cells.now) × (result < 2 ^ 22) }
{
    let mut sum = 3 + digits(k as usize);
    for c in cells {
        sum += word_bytes(names, *c) + 2;
    }
    sum
}

// How many variables are met, once one more cell is read.
fn met_after(c: u32, most: usize) -> usize
    requires { most < 2 ^ 32 }
    ensures { (result ≡ cond (eqb c most) (suc most) most) × (result ≤ suc most) }
{
    if c as usize == most {
        return most + 1;
    }
    most
}

// How many variables a head has, which are numbered by first appearance.
pub fn variables(head: &[u32]) -> usize
    requires { length head.now ≤ most_row_cells }
    ensures { result ≡ met_in head.now 0 }
{
    let mut most = 0;
    for c in head {
        most = met_after(*c, most);
    }
    most
}

// The variables of a call: as many of these as the head has.
pub const UP: [u32; 32] = [
    0, 1, 2, 3, 4, 5, 6, 7, 8, 9, 10, 11, 12, 13, 14, 15, 16, 17, 18, 19, 20, 21, 22, 23, 24, 25,
    26, 27, 28, 29, 30, 31,
];

// A clause's line: its head and its call.
fn line_bytes(names: &[u32], clause: &[u32]) -> usize
    requires { One clause.now × (4 ≤ length clause.now) }
    ensures { ((w : One clause.now) → result ≡ line_bytes (blanks names.now) w.it) × (result < 2 ^ 24) }
{
    let n = clause.len();
    let head = &clause[4..n];
    let bytes = atom_bytes(names, clause[0], head) + 2;
    let called = clause[1];
    if called == 0 {
        return bytes;
    }
    let up = UP;
    let v = variables(head);
    bytes + 4 + atom_bytes(names, called, &up[..v])
}

// Where the clause at a place ends: after its four numbers and its head.
pub fn clause_end(program: &[u32], at: usize) -> usize
    requires { Begins program.now at }
    ensures { (result ≡ at + 4 + get_or program.now (at + 3) 0) × (at + 4 ≤ result) × (result ≤ length program.now) }
{
    at + 4 + program[at + 3] as usize
}

// How many clauses a program has, and how many bytes.
pub fn measure(names: &[u32], program: &[u32]) -> ProgramSize
    requires { ProgramWritten program.now }
    ensures { (w : ProgramWritten program.now) → Measured names.now w.clauses result }
{
    let mut at = 0;
    let mut clauses = 0;
    let mut bytes = 0;
    // Stays: a step goes from one clause's start to the next one's, and counts no index.
    while at < program.len() {
        let end = clause_end(program, at);
        bytes += line_bytes(names, &program[at..end]);
        clauses += 1;
        at = end;
    }
    ProgramSize { clauses, bytes }
}
