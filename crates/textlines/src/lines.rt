// The lines of a table and of a list of names, put into a lent room as the functions of `octets` put their texts.
ghost use Rattle.std.specs.Prelude.{◌≡◌};
ghost use Rattle.octets.specs.Octets.{Put};
ghost use Rattle.table.specs.Table.{table_of};
ghost use Rattle.textlines.specs.Lines.{heading, row_line, row_lines, name_line};
ghost use Rattle.textlines.specs.Lines as lines;
ghost use Rattle.textlines.specs.code.Puts.{rows_of, PutsNames, PutsTable};

use octets::{put_byte, put_decimal, put_field, put_word};
use printing::put_symbol;

// The first line, at the front of the room.
fn put_heading(out: &mut [u8], cells: usize, names: usize) -> usize
    ensures { Put out.old out.new 0 (heading cells names) result }
{
    let p = put_word(out, 0, b"cells ");
    let q = put_decimal(out, p, cells);
    let r = put_word(out, q, b" names ");
    put_field(out, r, names, b'\n')
}

// The byte after a symbol, by how many follow it in the row.
fn mark(left: usize) -> u8
    ensures { result ≡ lines.mark left }
{
    if left == 0 { b'\n' } else { b' ' }
}

// A row's line.
fn put_row(out: &mut [u8], to: usize, row: &[u32]) -> usize
    ensures { Put out.old out.new to (row_line row.now) result }
{
    let mut on = to;
    for (i, c) in row.iter().enumerate() {
        let p = put_symbol(out, on, *c);
        on = put_byte(out, p, mark(row.len() - (i + 1)));
    }
    on
}

// The rows of a table, each from its start to the next one's, and the last to the table's end.
fn put_rows(out: &mut [u8], to: usize, cells: &[u32]) -> usize
    ensures { Put out.old out.new to (row_lines (rows_of (table_of cells.now))) result }
{
    let Ok(read) = table::read_table(cells) else {
        return to;
    };
    let starts = read.starts;
    let count = read.rows;
    let mut on = to;
    for r in 0..count {
        let start = starts[r];
        let next = r + 1;
        let end = if next < count {
            starts[next]
        } else {
            cells.len()
        };
        on = put_row(out, on, &cells[start..end]);
    }
    on
}

// A name's line: where it stands first, and its bytes.
fn put_name(out: &mut [u8], to: usize, name: u32) -> usize
    ensures { Put out.old out.new to (name_line name) result }
{
    let on = put_field(out, to, (name % 65536) as usize, b' ');
    put_field(out, on, (name / 65536) as usize, b'\n')
}

// Stays: put_others of mendwords goes over other items by another line; one function for both would take a closure and its law.
fn put_names(out: &mut [u8], to: usize, names: &[u32]) -> usize
    ensures { PutsNames names.now out.old out.new to result }
{
    let mut on = to;
    for name in names {
        on = put_name(out, on, *name);
    }
    on
}

// All lines, at the front of the room.
pub fn put_table(out: &mut [u8], cells: &[u32], names: &[u32]) -> usize
    ensures { PutsTable cells.now names.now out.old out.new result }
{
    let p = put_heading(out, cells.len(), names.len());
    let q = put_rows(out, p, cells);
    put_names(out, q, names)
}
