// A plan as an indented tree, in words: where it looks, what it finds there, and the rule at the end of each way.
#![tactic(auto)]

use branchlist::{Branch, NO_BRANCH};
use limits::BRANCHES;
use octets::{put_byte, put_word};
use page::Printer;
use shop::Shop;

// After what is gathered on a page.
pub fn print(shop: &Shop<'_>, printer: &mut Printer<'_>) {
    let mut list = [NO_BRANCH; BRANCHES];
    let count = branchlist::put_branches(&mut list, shop);
    printer.turn();
    let to = branchwords::put_sizes(printer.room, printer.page.to, shop.rules(), shop.branches);
    printer.page.to = put_byte(printer.room, to, b'\n');
    for i in 0..count {
        say_branch(shop, branchlist::branch_at(&list, i), printer);
    }
}

// A branch's line, in a room that has space for it: it has two names of the text at most.
fn say_branch(shop: &Shop<'_>, branch: Branch, printer: &mut Printer<'_>) {
    let text = shop.text;
    let names = shop.names;
    printer.turn();
    let a = branchwords::put_times(printer.room, printer.page.to, b"  ", branch.depth as usize);
    let b = branchwords::put_place(printer.room, a, text, names, branch.place);
    let c = put_word(printer.room, b, b" is ");
    let d = branchwords::put_found(printer.room, c, text, names, branch.cell, branch.first);
    let e = put_end(printer.room, d, shop, branch.rule);
    printer.page.to = put_byte(printer.room, e, b'\n');
}

// After it the rule, where the way ends.
fn put_end(out: &mut [u8], to: usize, shop: &Shop<'_>, rule: u32) -> usize {
    if rule == 0 {
        return to;
    }
    let on = put_word(out, to, b": ");
    shop.put_rule(out, on, (rule - 1) as usize)
}
