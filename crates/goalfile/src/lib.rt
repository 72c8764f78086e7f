// The goals of a file, one to a line, gathered in two lent rooms. One that is refused is said and left out; that the file cannot be read, or has
// more goals than there is room for, is said too.
#![tactic(auto)]

use askgoal::Ready;
use console::{Reason, Stream};
use goallines::{Lines, Piece};
use goallist::{Full, Held};
use limits::BRANCHES;
use message::Whose;
use page::Printer;
use refusal::Refusal;
use shop::Shop;
use slices::cells::part;

// Why not all goals of a file are gathered: it cannot be read, or there is no room for the goal on a line.
#[derive(Clone, Copy)]
pub enum Fault {
    Unread(Reason),
    Full { full: Full, line: usize },
}

impl From<Reason> for Fault {
    fn from(why: Reason) -> Self {
        Fault::Unread(why)
    }
}

// Rooms for the goals: for their cells, one after another, and for two words for each, where it begins and how many cells it has.
// Stays: goallist::add, whose contract speaks of both rooms, takes them so.
#[derive(Drop)]
pub struct Rooms<'a> {
    pub cells: &'a mut [u32],
    pub list: &'a mut [usize],
}

// The goals that are gathered in such rooms, and how many more are refused.
// Stays: liked::build_liked, whose contract speaks of both lists, takes the goals so.
#[derive(Clone, Copy)]
pub struct Goals<'a> {
    pub cells: &'a [u32],
    pub list: &'a [usize],
    pub refused: usize,
}

// How much of the rooms is in use, and how many goals are refused.
#[derive(Clone, Copy)]
struct Count {
    held: Held,
    refused: usize,
}

// All goals of an open file of that name; where they are not gathered, that is said. Each is read and asked as `ask` does, so that those are refused
// which it refuses. The buffer has one byte more than a goal may have, so that too long a line is seen to be one.
pub fn gather<'a>(
    jobs: &[u8],
    stream: Stream,
    shop: Shop<'_>,
    rooms: Rooms<'a>,
    room: &mut [u32],
    printer: &mut Printer<'_>,
) -> Option<Goals<'a>> {
    let Rooms { cells, list } = rooms;
    let mut buf = [0u8; 65534];
    let mut numbers = [0u64; BRANCHES];
    let ready = Ready::new(shop, &mut numbers);
    let mut lines = Lines::new(stream, &mut buf);
    match gather_lines(jobs, &mut lines, &ready, cells, list, room, printer) {
        Ok(count) => Some(Goals {
            cells: part(cells, 0, count.held.cells),
            list: goallist::words(list, count.held),
            refused: count.refused,
        }),
        Err(fault) => {
            say(jobs, fault, printer);
            None
        }
    }
}

// There is an end to every file.
// Stays: each room is lent by itself, since two that are both lent slices of one struct behind a reference cannot be lent in one call yet.
fn gather_lines(
    jobs: &[u8],
    lines: &mut Lines<'_>,
    ready: &Ready<'_>,
    cells: &mut [u32],
    list: &mut [usize],
    room: &mut [u32],
    printer: &mut Printer<'_>,
) -> Result<Count, Fault> {
    let mut held = Held { cells: 0, words: 0 };
    let mut refused = 0;
    for _turn in 0..usize::MAX {
        if !lines.going {
            break;
        }
        let piece = lines.next()?;
        if let Some(goal) = lines.goal(piece) {
            match ready.find(goal, room) {
                Ok(found) => held = keep(found.goal(), piece, cells, list, held)?,
                Err(f) => {
                    refuse(jobs, goal, piece, f, printer);
                    refused = marks::further(refused, 1);
                }
            }
        }
    }
    Ok(Count { held, refused })
}

// With the cells of a goal that is read.
fn keep(
    goal: &[u32],
    piece: Piece,
    cells: &mut [u32],
    list: &mut [usize],
    held: Held,
) -> Result<Held, Fault> {
    match goallist::add(goal, cells, list, held) {
        Ok(held) => Ok(held),
        Err(full) => {
            let line = marks::further(piece.above, 1);
            Err(Fault::Full { full, line })
        }
    }
}

// Why a goal is refused, to standard error.
fn refuse(jobs: &[u8], goal: &[u8], piece: Piece, f: Refusal, printer: &mut Printer<'_>) {
    let a = octets::put_word(printer.room, 0, jobs);
    let b = refusals::put_refusal(printer.room, a, goal, piece.above, Whose::Goal, f);
    printer.complain(b);
}

// Why not all is gathered: to standard error.
fn say(jobs: &[u8], fault: Fault, printer: &mut Printer<'_>) {
    match fault {
        Fault::Unread(why) => reading::cannot_read(printer.rt, jobs, why, printer.room),
        Fault::Full { full, line } => {
            let n = tunewords::put_full(printer.room, 0, jobs, line, full);
            printer.complain(n);
        }
    }
}
