// What the goals of a call add up to, printed: a line for each rule, and the totals.
#![tactic(auto)]

use limits::ROWS;
use octets::put_word;
use page::Printer;
use shop::{Shop, cell_at};
use tally::Tally;

// The largest of all counts.
fn largest(t: &Tally) -> usize {
    let mut most = t.tried.max(t.answered).max(t.refused);
    for fit in &t.fits {
        most = most.max(*fit);
    }
    most
}

// The rules of the file, of which there are at most 64.
pub fn say(shop: &Shop<'_>, t: &Tally, printer: &mut Printer<'_>) {
    let width = tallywords::digits(largest(t));
    printer.turn();
    printer.page.to = put_word(printer.room, printer.page.to, b"counts over all goals:\n");
    for row in 0..ROWS.min(shop.rules()) {
        let line = cell_at(shop.lines, row) as usize;
        printer.turn();
        printer.page.to = tallywords::put_fitted(
            printer.room,
            printer.page.to,
            width,
            t.fits[row],
            row + 1,
            line,
        );
    }
    say_totals(t, width, printer);
}

fn say_totals(t: &Tally, width: usize, printer: &mut Printer<'_>) {
    let totals: [(usize, &[u8], &[u8]); 3] = [
        (t.answered, b"goal answered", b"goals answered"),
        (t.refused, b"goal refused", b"goals refused"),
        (t.tried, b"branch tried", b"branches tried"),
    ];
    printer.turn();
    for (n, one, many) in totals {
        printer.page.to = tallywords::put_total(printer.room, printer.page.to, width, n, one, many);
    }
}
