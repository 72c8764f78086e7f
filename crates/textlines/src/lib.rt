// What is printed for a text (02, W-201), as bytes.
#![tactic(auto)]

mod lines;

ghost use Rattle.printing.specs.Printing.{Written};
ghost use Rattle.textlines.specs.Lines.{Prints};

use crate::lines::put_table;
use printing::put_refusal;

// The lines of any bytes at all, put at the front of `out`; how many bytes they have. 43,030 bytes are enough for every text: 22 for the
// first line, 9 for each of at most 2,048 symbols and 12 for each of at most 2,048 names. The answer is the entry's with the rooms that
// are lent to it here, and no text needs larger ones: ROOM is never printed, and too long a table is LENGTH.
pub fn list_text(text: &[u8], out: &mut [u8; 43030]) -> usize
    ensures { Written (Prints text.now) out.old out.new result }
{
    let mut cells = [0u32; 32768];
    let mut names = [0u32; 32766];
    match prolog::read_text(text, &mut cells, &mut names) {
        Ok(n) => put_table(out, &cells[..n.cells], &names[..n.names]),
        Err(f) => put_refusal(out, f.reason, f.place),
    }
}
