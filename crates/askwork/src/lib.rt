// What the program ask does with its file: its rules are loaded, and what is asked of them is printed.
#![tactic(auto)]

use askall::{Counting, Goals};
use page::Printer;
use refusal::Refusal;
use shop::Shop;
use wishes::{Call, Print};

// A file of facts: its name and text.
// Stays: a name and a text are two slices, and no parallel lists.
#[derive(Clone, Copy)]
pub struct Facts<'a> {
    pub path: &'a [u8],
    pub text: &'a [u8],
}

// What a call asks of a file, where these columns are known. Lent are a room for answers and, before them, for the table, and one for what is kept
// of the file.
pub fn answer(
    facts: Facts<'_>,
    call: Call,
    columns: &[u32],
    room: &mut [u32],
    kept: &mut [u32],
    printer: &mut Printer<'_>,
) {
    match shop::load_for(facts.text, columns, room, kept) {
        Ok(shop) => show(shop, facts, call, room, printer),
        Err(f) => refuse(facts, call.known, f, printer),
    }
}

fn show(shop: Shop<'_>, facts: Facts<'_>, call: Call, room: &mut [u32], printer: &mut Printer<'_>) {
    let goals = Goals {
        first: call.goal,
        end: call.end,
    };
    match call.print {
        // One call for both: called in two places it has rooms of its own on the stack, 83 kB more.
        Print::Answers | Print::Counts => {
            askall::answer_all(shop, goals, counting_of(call.print), room, printer);
        }
        Print::Tree => {
            treetext::print(&shop, printer);
            printer.flush();
        }
        Print::Picture => {
            dottext::print(&shop, printer);
            printer.flush();
        }
        Print::Clauses => show_clauses(shop, facts, printer),
        Print::Tuned(jobs) => tune::answer(shop, facts.path, jobs, room, printer),
    }
}

fn counting_of(print: Print) -> Counting {
    match print {
        Print::Counts => Counting::Counts,
        _ => Counting::Answers,
    }
}

fn show_clauses(shop: Shop<'_>, facts: Facts<'_>, printer: &mut Printer<'_>) {
    match clausetext::put_clauses(printer.room, &shop) {
        Ok(size) => {
            printer.page.to = size.bytes;
            printer.flush();
        }
        Err(f) => refuse(facts, None, f, printer),
    }
}

// Why a file is not taken, or why a list of known columns is not.
fn refuse(facts: Facts<'_>, known: Option<usize>, f: Refusal, printer: &mut Printer<'_>) {
    if let Some(list) = known
        && refusal::number_of(f.reason) == known::COLUMN
    {
        let width = shop::width_of(facts.text);
        known::complain(printer.rt, list, facts.path, width, printer.room);
        return;
    }
    let n = refusals::put_facts_refusal(printer.room, facts.path, facts.text, f);
    printer.complain(n);
}
