// A plan as a picture: a graph in the language DOT, which Graphviz draws. A node for each state, with the place that it looks at, an arrow for each
// branch, with what is found there, and a node for the rule at the end of each way.
//
// All that stands between quotes are words of ours, numbers, and names of the rules, which have letters, digits and `_` alone. So no quote and no
// backslash is there, and DOT takes every other byte as it is.
#![tactic(auto)]

use branchlist::{Branch, NO_BRANCH, branch_at};
use limits::BRANCHES;
use octets::{put_decimal, put_word};
use page::Printer;
use shop::Shop;

// After what is gathered on a page. Each branch is followed by the state below it.
pub fn print(shop: &Shop<'_>, printer: &mut Printer<'_>) {
    let mut list = [NO_BRANCH; BRANCHES];
    let count = branchlist::put_branches(&mut list, shop);
    printer.turn();
    let a = put_head(printer.room, printer.page.to, shop);
    printer.page.to = put_state(printer.room, a, shop, &list, 0);
    for n in 1..=count {
        printer.turn();
        let to = put_branch(
            printer.room,
            printer.page.to,
            shop,
            branch_at(&list, n - 1),
            n,
        );
        printer.page.to = put_state(printer.room, to, shop, &list, n);
    }
    printer.page.to = put_word(printer.room, printer.page.to, b"}\n");
}

// How it is drawn: from left to right, the branches of a state from the top, and small.
fn put_head(out: &mut [u8], to: usize, shop: &Shop<'_>) -> usize {
    let a = put_word(out, to, b"digraph plan {\n  graph [label=\"");
    let b = branchwords::put_sizes(out, a, shop.rules(), shop.branches);
    let c = put_word(
        out,
        b,
        b"\", rankdir=LR, ordering=out, ranksep=0.3, nodesep=0.15, fontname=\"Helvetica\", fontsize=10];\n",
    );
    let d = put_word(
        out,
        c,
        b"  node [shape=box, height=0.25, margin=\"0.08,0.03\", fontname=\"Helvetica\", fontsize=10];\n",
    );
    put_word(
        out,
        d,
        b"  edge [arrowsize=0.6, fontname=\"Helvetica\", fontsize=10];\n",
    )
}

// The name of a state.
fn put_number(out: &mut [u8], to: usize, n: u32) -> usize {
    let on = put_word(out, to, b"s");
    put_decimal(out, on, n as usize)
}

// A branch and the state to which it leads. In a room that has space for both lines: they have two names of the text at most.
fn put_branch(out: &mut [u8], to: usize, shop: &Shop<'_>, branch: Branch, below: u32) -> usize {
    let a = put_word(out, to, b"  ");
    let b = put_number(out, a, branch.state);
    let c = put_word(out, b, b" -> ");
    let d = put_number(out, c, below);
    let e = put_word(out, d, b" [label=\"");
    let f = branchwords::put_found(out, e, shop.text, shop.names, branch.cell, branch.first);
    put_word(out, f, b"\"];\n")
}

// The rule with which the branch to a state ends; 0 where it does not end there, and for the first state.
fn rule_of(list: &[Branch; BRANCHES], n: u32) -> u32 {
    if n == 0 {
        return 0;
    }
    branch_at(list, n - 1).rule
}

// A state: a rule, or the place that it looks at, which is that of its first branch.
fn put_state(
    out: &mut [u8],
    to: usize,
    shop: &Shop<'_>,
    list: &[Branch; BRANCHES],
    n: u32,
) -> usize {
    let a = put_word(out, to, b"  ");
    let b = put_number(out, a, n);
    let c = put_word(out, b, b" [label=\"");
    let rule = rule_of(list, n);
    if rule == 0 {
        let place = branch_at(list, n).place;
        let d = branchwords::put_place(out, c, shop.text, shop.names, place);
        return put_word(out, d, b"\"];\n");
    }
    let d = shop.put_rule(out, c, (rule - 1) as usize);
    put_word(out, d, b"\", shape=plaintext];\n")
}
