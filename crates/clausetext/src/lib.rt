// A shop's plan as Prolog clauses, and before them the clause that ties the facts' own predicate to the first of them, so that
// what calls it goes on as it is.
#![tactic(auto)]

use answertext::{put_answer, put_terms};
use clauses::ProgramSize;
use octets::put_word;
use refusal::Refusal;
use shop::Shop;
use slices::cells::part;
use termtext::Predicate;

// A rule has at most 8 arguments.
const VARIABLES: [u32; 8] = [0, 1, 2, 3, 4, 5, 6, 7];

// `rule(_0, _1) :- 'P0'(_0, _1).`
fn put_tie(out: &mut [u8], text: &[u8], p: Predicate) -> usize {
    let all = VARIABLES;
    let args = part(&all, 0, p.width);
    let none = part(&all, 0, 0);
    let a = put_answer(out, text, none, text, none, p, args);
    let b = put_word(out, a, b" :- 'P0'(");
    let c = put_terms(out, b, text, none, text, none, p.width, args);
    put_word(out, c, b".\n")
}

// The clause that ties, and after it the program of the least plan: how many clauses that has, and where all ends. The words come from one text
// of 65,535 bytes, each at most once, so that a page has room for all.
pub fn put_clauses(out: &mut [u8], shop: &Shop<'_>) -> Result<ProgramSize, Refusal> {
    let to = put_tie(out, shop.text, shop.p);
    let end = out.len();
    if end < to {
        return Ok(ProgramSize {
            clauses: 0,
            bytes: end,
        });
    }
    let size = handing::hand_back(shop.table, shop.plan, shop.text, shop.names, &mut out[to..])?;
    Ok(ProgramSize {
        clauses: size.clauses,
        bytes: reading::ahead(to, size.bytes, end),
    })
}
