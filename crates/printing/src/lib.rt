// What more than one program prints, put into a lent room as the functions of `octets` put their texts: the symbol of a cell, and the line
// of a refusal.
#![tactic(auto)]

ghost use Rattle.std.specs.Prelude.{◌∷◌, ◌≤◌, length};
ghost use Rattle.refusal.specs.Refusal.{reason_number};
ghost use Rattle.octets.specs.Octets.{Put, decimal};
ghost use Rattle.printing.specs.Printing.{value, symbol_text, refusal};

use cell::Shape;
use octets::{put_byte, put_decimal, put_field, put_word};
use refusal::Reason;

// A letter and its number.
fn put_tagged(out: &mut [u8], to: usize, tag: u8, n: u32) -> usize
    ensures { Put out.old out.new to (tag ∷ decimal n) result }
{
    let on = put_byte(out, to, tag);
    put_decimal(out, on, n as usize)
}

// The value of a cell's 16 bits: its sign is taken from them.
pub fn put_value(out: &mut [u8], to: usize, c: u32) -> usize
    ensures { Put out.old out.new to (value c) result }
{
    let n = cell::number(c);
    if n < 32768 {
        put_decimal(out, to, n as usize)
    } else {
        put_tagged(out, to, b'-', 65536 - n)
    }
}

// The symbol of a cell. A name has 0 to 4 arguments; what is no cell of 01 has no symbol.
pub fn put_symbol(out: &mut [u8], to: usize, c: u32) -> usize
    ensures { Put out.old out.new to (symbol_text c) result }
{
    match cell::shape_of(c) {
        Shape::Variable(n) => put_tagged(out, to, b'v', n),
        Shape::Name(a, n) => match a {
            0..=4 => {
                let on = put_tagged(out, to, b'n', n);
                put_tagged(out, on, b'/', a)
            }
            _ => to,
        },
        Shape::Number(_) => {
            let on = put_byte(out, to, b'i');
            put_value(out, on, c)
        }
        Shape::Refused => to,
    }
}

// The one line of a refusal, at the front of the room. 53 bytes are enough for it.
pub fn put_refusal(out: &mut [u8], reason: Reason, place: usize) -> usize
    ensures { Put out.old out.new 0 (refusal (reason_number reason) place) result
        × (length (refusal (reason_number reason) place) ≤ 53) }
{
    let number = refusal::number_of(reason);
    let p = put_word(out, 0, b"refused ");
    let q = put_decimal(out, p, number);
    let r = put_word(out, q, b" at ");
    put_field(out, r, place, b'\n')
}
