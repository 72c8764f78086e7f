// The goals: the arguments after the file, and where there are none the lines of standard input.
#![tactic(auto)]

use askgoal::{Ready, Sheet};
use goalsay::{Goal, Source};
use limits::BRANCHES;
use page::Printer;
use shop::Shop;

// Which arguments are goals: from a first one up to an end.
#[derive(Clone, Copy)]
pub struct Goals {
    pub first: usize,
    pub end: usize,
}

impl Goals {
    // Where the goal stands that is this argument.
    fn source_of(self, i: usize) -> Source {
        if self.end.saturating_sub(self.first) <= 1 {
            return Source::Only;
        }
        Source::Argument(i.saturating_sub(self.first).saturating_add(1))
    }
}

// What is printed: the answers, or these and what they add up to after them.
#[derive(Clone, Copy)]
pub enum Counting {
    Answers,
    Counts,
}

pub fn answer_all(
    shop: Shop<'_>,
    goals: Goals,
    counting: Counting,
    room: &mut [u32],
    printer: &mut Printer<'_>,
) {
    let mut sheet = Sheet::new();
    ask_all(shop, goals, &mut sheet, room, printer);
    if let Counting::Counts = counting {
        tallysay::say(&shop, &sheet.tally, printer);
    }
    printer.flush();
}

// One buffer for an argument or for lines. It has one byte more than a goal may have, so that too long a one is seen to be one.
fn ask_all(
    shop: Shop<'_>,
    goals: Goals,
    sheet: &mut Sheet,
    room: &mut [u32],
    printer: &mut Printer<'_>,
) {
    let mut buf = [0u8; 65534];
    let mut numbers = [0u64; BRANCHES];
    let ready = Ready::new(shop, &mut numbers);
    if goals.end <= goals.first {
        asklines::ask_lines(&ready, &mut buf, sheet, room, printer);
    } else {
        ask_arguments(&ready, goals, &mut buf, sheet, room, printer);
    }
}

// Of an argument that does not fit the buffer, as much as does.
fn ask_arguments(
    ready: &Ready<'_>,
    goals: Goals,
    buf: &mut [u8],
    sheet: &mut Sheet,
    room: &mut [u32],
    printer: &mut Printer<'_>,
) {
    for i in goals.first..goals.end {
        if !printer.page.going {
            return;
        }
        let n = console::front(printer.rt, i, buf);
        let text = slices::bytes::part(buf, 0, n);
        let source = goals.source_of(i);
        sheet.ask(ready, Goal { text, source }, room, printer);
    }
}
