// `ask --tune JOBS FILE`: the goals of a file gathered, and the plan that they like best printed.
#![tactic(auto)]

use console::{NAME, Stream};
use goalfile::Rooms;
use page::Printer;
use shop::Shop;

// For rules from a file of that name, the file of goals that an argument names, `-` being standard input. One that is too long for a name names none.
pub fn answer(
    shop: Shop<'_>,
    path: &[u8],
    jobs: usize,
    room: &mut [u32],
    printer: &mut Printer<'_>,
) {
    let mut name = [0u8; NAME];
    match console::arg(printer.rt, jobs, &mut name) {
        Ok(n) => open(shop, path, &name[..n], room, printer),
        Err(why) => console::fail(printer.rt, b"cannot read JOBS", why),
    }
}

fn open(shop: Shop<'_>, path: &[u8], jobs: &[u8], room: &mut [u32], printer: &mut Printer<'_>) {
    if let b"-" = jobs {
        let stream = console::input(printer.rt);
        lend(shop, path, b"standard input", stream, room, printer);
        return;
    }
    match console::open(printer.rt, jobs) {
        Ok(stream) => lend(shop, path, jobs, stream, room, printer),
        Err(why) => reading::cannot_read(printer.rt, jobs, why, printer.room),
    }
}

// The rooms for the goals: 800,000 cells in all, and two words for each of 100,000. They take 4.8 MB of the 8 that a program has as a rule, of which
// its arguments may take 2. It is compiled as a function of its own: other calls of the program do not pay for its rooms.
#[inline(never)]
fn lend(
    shop: Shop<'_>,
    path: &[u8],
    jobs: &[u8],
    stream: Stream,
    room: &mut [u32],
    printer: &mut Printer<'_>,
) {
    let mut cells = [0u32; 800000];
    let mut list = [0usize; 200000];
    gather(
        shop, path, jobs, stream, &mut cells, &mut list, room, printer,
    );
}

// Stays: what `lend` lends, so that its rooms and their proof stand in a function of their own.
fn gather(
    shop: Shop<'_>,
    path: &[u8],
    jobs: &[u8],
    stream: Stream,
    cells: &mut [u32],
    list: &mut [usize],
    room: &mut [u32],
    printer: &mut Printer<'_>,
) {
    let rooms = Rooms { cells, list };
    if let Some(goals) = goalfile::gather(jobs, stream, shop, rooms, room, printer) {
        bestplan::print(shop, path, goals, printer);
    }
}
