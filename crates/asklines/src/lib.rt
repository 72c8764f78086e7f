// Goals from standard input, answered.
#![tactic(auto)]

use askgoal::{Ready, Sheet};
use goallines::Lines;
use goalsay::{Goal, Source};
use page::Printer;

// A line that does not fit the buffer is longer than a goal may be. What fits is asked, and refused for its length, whatever it is; its rest is
// passed over. What is gathered is written before anything is waited for. There is an end to every input, and the first write that fails ends
// it too.
pub fn ask_lines(
    ready: &Ready<'_>,
    buf: &mut [u8],
    sheet: &mut Sheet,
    room: &mut [u32],
    printer: &mut Printer<'_>,
) {
    let mut lines = Lines::new(console::input(printer.rt), buf);
    for _turn in 0..usize::MAX {
        if !lines.going || !printer.page.going {
            return;
        }
        ask_next(ready, &mut lines, sheet, room, printer);
    }
}

// The next line, or a part of one. Where no whole line is left of what was read, all that is gathered is written.
fn ask_next(
    ready: &Ready<'_>,
    lines: &mut Lines<'_>,
    sheet: &mut Sheet,
    room: &mut [u32],
    printer: &mut Printer<'_>,
) {
    if !lines.has_line() {
        printer.flush();
    }
    match lines.next() {
        Ok(piece) => {
            if let Some(text) = lines.goal(piece) {
                let source = Source::Line(piece.above);
                sheet.ask(ready, Goal { text, source }, room, printer);
            }
        }
        Err(why) => console::fail(printer.rt, b"cannot read standard input", why),
    }
}
