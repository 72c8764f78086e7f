// What is printed for a goal.
#![tactic(auto)]

use lex::fact::Head;
use message::Whose;
use octets::{put_byte, put_decimal, put_word};
use page::Printer;
use refusal::Refusal;
use shop::Shop;

// Where a goal stands: it is the only argument after the file; it is one of several, of that number, the first being 1; or it is a line of
// standard input, with so many lines above it.
#[derive(Clone, Copy)]
pub enum Source {
    Only,
    Argument(usize),
    Line(usize),
}

impl Source {
    // Before a refusal: the name of what is refused.
    fn put_name(self, out: &mut [u8], to: usize) -> usize {
        match self {
            Source::Only => put_word(out, to, b"goal 1"),
            Source::Argument(k) => {
                let on = put_word(out, to, b"goal ");
                put_decimal(out, on, k)
            }
            Source::Line(_) => put_word(out, to, b"standard input"),
        }
    }

    // How many lines stand above the goal.
    fn above(self) -> usize {
        match self {
            Source::Only | Source::Argument(_) => 0,
            Source::Line(n) => n,
        }
    }
}

// A goal's text, and where it stands.
#[derive(Clone, Copy)]
pub struct Goal<'a> {
    pub text: &'a [u8],
    pub source: Source,
}

impl Goal<'_> {
    // The line before the answers, which tells the answers of several goals apart.
    pub fn say(&self, printer: &mut Printer<'_>) {
        if let Source::Only = self.source {
            return;
        }
        let goal = self.text;
        let written = slices::bytes::part(goal, start_of(goal), linecut::goal_end(goal));
        printer.turn();
        printer.page.to = message::put_goal(printer.room, printer.page.to, written);
    }

    // Why it is refused, to standard error; what is gathered goes before it.
    pub fn refuse(&self, f: Refusal, printer: &mut Printer<'_>) {
        printer.flush();
        let a = self.source.put_name(printer.room, 0);
        let b = refusals::put_refusal(
            printer.room,
            a,
            self.text,
            self.source.above(),
            Whose::Goal,
            f,
        );
        printer.complain(b);
    }
}

// Where a goal begins, after layout and comments.
fn start_of(goal: &[u8]) -> usize {
    match lex::fact::next_fact(goal, 0, true) {
        Head::Open(start, _) => start,
        Head::End => 0,
        Head::Stop(at) => at,
    }
}

// What a rule that fits, the first being row 0, answers to a goal: cells, in the names of the facts and those of the goal that are new.
// Stays: no list here is parallel to another, so that each is a slice of its own.
#[derive(Clone, Copy)]
pub struct Answer<'a> {
    pub row: usize,
    pub goal: &'a [u8],
    pub new: &'a [u32],
    pub cells: &'a [u32],
}

impl Answer<'_> {
    // The rule and its answer, as a line. One that is longer than a line may be is cut.
    pub fn say(&self, shop: &Shop<'_>, printer: &mut Printer<'_>) {
        printer.turn();
        let a = shop.put_rule(printer.room, printer.page.to, self.row);
        let b = put_word(printer.room, a, b": ");
        let c = self.put_cut(shop, printer.room, b);
        printer.page.to = put_byte(printer.room, c, b'\n');
    }

    // Its text from a place of the room on, in one byte more than a line may have, so that too long a line is seen to be one.
    fn put_cut(&self, shop: &Shop<'_>, out: &mut [u8], to: usize) -> usize {
        if out.len().saturating_sub(to) <= page::LINE {
            return to;
        }
        let end = to + page::LINE;
        let n = self.put(shop, &mut out[to..=end]);
        if n <= page::LINE {
            return to + n;
        }
        put_word(out, end, b" ..")
    }

    fn put(&self, shop: &Shop<'_>, line: &mut [u8]) -> usize {
        answertext::put_answer(
            line, shop.text, shop.names, self.goal, self.new, shop.p, self.cells,
        )
    }
}

// The rules that fit, and the branches tried of all that there are.
pub fn say_counts(rules: usize, tried: usize, branches: usize, printer: &mut Printer<'_>) {
    printer.turn();
    printer.page.to = message::put_counts(printer.room, printer.page.to, rules, tried, branches);
}
