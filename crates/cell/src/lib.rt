// One 32-bit cell (01, "Cells"): its kind, its number of arguments and its number, taken out by masks and shifts, and
// cells built again by them. Every function takes any number at all.
#![tactic(auto)]

ghost use Rattle.std.specs.Prelude.{◌≡◌, ◌/◌, ◌%◌, ◌^◌};
ghost use Rattle.cell.specs.Signed.{signed_of};
ghost use Rattle.cell.specs.Cell.{kind_of, args_of, number_of, middle_of, variable_cell, name_cell, number_cell, values_at, values_of, arity};

// Bits 31..30.
pub fn kind(c: u32) -> u32
    ensures { result ≡ kind_of c }
{
    c >> 30
}

// Bits 18..16: the number of arguments, in a name.
pub fn args(c: u32) -> u32
    ensures { result ≡ args_of c }
{
    (c >> 16) & 7
}

// Bits 15..0: the number of a variable or a name, the 16 bits of a number.
pub fn number(c: u32) -> u32
    ensures { result ≡ number_of c }
{
    c & 0xffff
}

// The value of bits 15..0 as two's complement (02, W-206): -32,768 to 32,767.
fn signed(c: u32) -> i32
    ensures { result ≡ signed_of (number_of c) }
{
    let n = number(c);
    if n < 32768 {
        n as i32
    } else {
        n as i32 - 65536
    }
}

// Bits 29..16: zero, or the number of arguments of a name.
pub fn middle(c: u32) -> u32
    ensures { result ≡ middle_of c }
{
    (c >> 16) & 0x3fff
}

// A cell is built from the low bits of its parts, as many as its fields have (01, "masks and shifts take kind, argument count and number out
// of a 32-bit cell and build it again").
pub fn variable_cell(n: u32) -> u32
    ensures { result ≡ variable_cell (n % 2 ^ 16) }
{
    n & 0xffff
}

pub fn name_cell(a: u32, n: u32) -> u32
    ensures { result ≡ name_cell (a % 2 ^ 3) (n % 2 ^ 16) }
{
    (1 << 30) | ((a & 7) << 16) | (n & 0xffff)
}

pub fn number_cell(n: u32) -> u32
    ensures { result ≡ number_cell (n % 2 ^ 16) }
{
    (2 << 30) | (n & 0xffff)
}

// What a cell is.
#[derive(Drop)]
pub enum Shape {
    // its number
    Variable(u32),
    // its number of arguments, 0 to 4, and its number
    Name(u32, u32),
    // its value, -32,768 to 32,767
    Number(i32),
    // no cell of 01
    Refused,
}

#[tactic(auto, using(crate::proofs::CellLaws::is_name))]
pub fn shape_of(c: u32) -> Shape
    ensures { values_of result ≡ values_at c }
{
    let k = kind(c);
    let m = middle(c);
    match k {
        0 => match m {
            0 => Shape::Variable(number(c)),
            _ => Shape::Refused,
        },
        1 => match m {
            0..=4 => Shape::Name(args(c), number(c)),
            _ => Shape::Refused,
        },
        2 => match m {
            0 => Shape::Number(signed(c)),
            _ => Shape::Refused,
        },
        _ => Shape::Refused,
    }
}

// Bits 31..16: the kind and the bits between.
fn high(c: u32) -> u32
    ensures { result ≡ c / 2 ^ 16 }
{
    c >> 16
}

// How many terms follow the cell as its arguments: of a name with 0 to 4 of them the high half is 0x4000 to 0x4004.
#[tactic(auto, using(crate::proofs::CellLaws::name_arity))]
pub fn arity_of(c: u32) -> usize
    ensures { result ≡ arity c }
{
    let h = high(c);
    match h {
        0x4000..=0x4004 => args(c) as usize,
        _ => 0,
    }
}
