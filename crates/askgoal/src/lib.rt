// One goal: read, run, and what each rule that fits says.
#![tactic(auto)]

ghost use Rattle.std.specs.Prelude.{◌≡◌};
ghost use Rattle.slices.specs.Slices.{between};

use answer::RunCounts;
use goalsay::{Answer, Goal};
use limits::{BRANCHES, ROW_CELLS, ROWS};
use page::Printer;
use plannotes::Noted;
use refusal::Refusal;
use shop::Shop;
use slices::{bytes, cells};
use tally::Tally;

// What goals are asked of: a shop, what is noted of its plan and of each branch of it, and where the cells of each rule begin in the table.
// Stays: nothing is allocated, so that the starts are an array; the number of rows beside it is noted of the plan.
#[derive(Clone, Copy)]
pub struct Ready<'a> {
    pub shop: Shop<'a>,
    pub numbers: &'a [u64; BRANCHES],
    pub noted: Noted,
    pub starts: [usize; ROWS],
}

impl<'a> Ready<'a> {
    // The plan is checked and the table read once for all goals. What is noted of each branch stands in the lent numbers.
    pub fn new(shop: Shop<'a>, numbers: &'a mut [u64; BRANCHES]) -> Self {
        let noted = plannotes::check_noted(shop.table, shop.plan, numbers);
        let starts = match table::read_table(shop.table) {
            Ok(read) => read.starts,
            Err(_) => [0; ROWS],
        };
        Ready {
            shop,
            numbers,
            noted,
            starts,
        }
    }

    // A goal's text read and run. The answers of the rules that fit stand in the room, one after another.
    pub fn find(&self, text: &[u8], room: &mut [u32]) -> Result<Found, Refusal> {
        let shop = &self.shop;
        let mut cells = [0u32; ROW_CELLS];
        let mut names = [0u32; ROW_CELLS];
        let size = goaltext::read_goal(
            shop.text, shop.names, shop.p, text, &mut cells, &mut names,
        )?;
        let goal = Row::new(cells, size.cells);
        let new = Row::new(names, size.names);
        let mut hits = [0u8; ROWS];
        let ran = self.run(goal.front(), &mut hits, room)?;
        Ok(Found {
            goal,
            new,
            ran,
            hits,
        })
    }

    // The table, its own plan and a goal that was read are never refused, and in 65,536 cells there is room for 64 answers of 1,024: where the
    // answers are refused, one of them has more.
    fn run(&self, goal: &[u32], hits: &mut [u8], room: &mut [u32]) -> Result<RunCounts, Refusal> {
        let table = self.shop.table;
        let ran = run::run_noted(self.numbers, self.noted, goal, hits)?;
        let rules = bytes::part(hits, 0, ran.hits);
        replies::put_replies(table, &self.starts, self.noted.rows, goal, rules, room)?;
        Ok(ran)
    }
}

// A goal's cells, or its names, at the front of a list that has room for all that there can be.
// Stays: the programs allocate nothing, so that such a list is an array and a number.
#[derive(Clone, Copy)]
pub struct Row {
    pub list: [u32; ROW_CELLS],
    pub count: usize,
}

impl Row {
    fn new(list: [u32; ROW_CELLS], count: usize) -> Self {
        Row { list, count }
    }

    fn front(&self) -> &[u32]
        ensures { result.now ≡ between 0 self.now.count self.now.list }
    {
        cells::part(&self.list, 0, self.count)
    }
}

// What a goal finds: its cells, those of its names that are not the facts', and the rules that fit, so many at the front of a list.
// Stays: the programs allocate nothing, so that the rules are an array and a number.
#[derive(Clone, Copy)]
pub struct Found {
    pub goal: Row,
    pub new: Row,
    pub ran: RunCounts,
    pub hits: [u8; ROWS],
}

impl Found {
    // The goal's cells.
    pub fn goal(&self) -> &[u32]
        ensures { result.now ≡ between 0 self.now.goal.count self.now.goal.list }
    {
        self.goal.front()
    }

    // The rules that fit.
    fn rules(&self) -> &[u8] {
        bytes::part(&self.hits, 0, self.ran.hits)
    }

    // A line for each rule that fits: its number and line, and its answer in the names of the facts and the goal's new ones. `cells` has an
    // answer for each.
    fn say(&self, shop: &Shop<'_>, goal: &[u8], cells: &[u32], printer: &mut Printer<'_>) {
        let new = self.new.front();
        let width = shop.p.width;
        let mut at = 0;
        for row in self.rules() {
            let end = terms_end(cells, at, width);
            let answer = Answer {
                row: *row as usize,
                goal,
                new,
                cells: cells::part(cells, at, end),
            };
            answer.say(shop, printer);
            at = end;
        }
        goalsay::say_counts(self.ran.hits, self.ran.tried, shop.branches, printer);
    }
}

// Where so many terms end, the first of which begins at a place.
fn terms_end(cells: &[u32], from: usize, count: usize) -> usize {
    let mut at = from;
    for _term in 0..count {
        match term::term_end(cells, at) {
            Some(end) => at = end,
            None => break,
        }
    }
    at
}

// What the goals add up to so far.
#[derive(Clone, Copy)]
pub struct Sheet {
    pub tally: Tally,
}

impl Sheet {
    // With nothing answered yet.
    pub fn new() -> Self {
        let tally = tally::nothing();
        Sheet { tally }
    }

    // A goal asked of a file of facts. The room is lent for its answers: nothing of it is printed before all of them are there, and one that is
    // refused for an answer has none.
    pub fn ask(
        &mut self,
        ready: &Ready<'_>,
        goal: Goal<'_>,
        room: &mut [u32],
        printer: &mut Printer<'_>,
    ) {
        match ready.find(goal.text, room) {
            Ok(found) => {
                goal.say(printer);
                found.say(&ready.shop, goal.text, room, printer);
                self.tally = tally::add(self.tally, Ok(found.ran), &found.hits);
            }
            Err(f) => {
                goal.refuse(f, printer);
                self.tally = tally::add(self.tally, Err(f), &[]);
            }
        }
    }
}
