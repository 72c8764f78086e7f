// What the program card says, put into a lent room as the functions of `octets` put their texts: what a card holds, and why one is refused.
#![tactic(auto)]

ghost use Rattle.octets.specs.Octets.{Put};
ghost use Rattle.cardwords.specs.Cards.{held_line, refused_line, longer_line, place_text, numbered_place};

use message::put_number_of;
use octets::{put_byte, put_decimal, put_word};
use refusal::{Input, Reason, Refusal};

// What a card holds.
#[derive(Clone, Copy)]
pub struct Held {
    pub rules: usize,
    pub columns: usize,
    pub branches: usize,
    pub blocks: usize,
}

// Said after the card's name.
pub fn put_held(out: &mut [u8], to: usize, held: Held) -> usize
    ensures { Put out.old out.new to (held_line held.rules held.columns held.branches held.blocks) result }
{
    let a = put_word(out, to, b": ");
    let b = put_number_of(out, a, held.rules, b" rule, ", b" rules, ");
    let c = put_number_of(out, b, held.columns, b" column, ", b" columns, ");
    let d = put_number_of(out, c, held.branches, b" branch, ", b" branches, ");
    put_number_of(out, d, held.blocks, b" block\n", b" blocks\n")
}

// Why a card is refused, after its name: where, the refusal's name and number, and what is expected.
pub fn put_refused(out: &mut [u8], to: usize, f: Refusal) -> usize
    ensures { Put out.old out.new to (refused_line f.reason f.input f.place) result }
{
    let a = put_word(out, to, b": ");
    let b = put_place(out, a, f);
    let c = cardreasons::put_reason(out, b, f.reason);
    put_byte(out, c, b'\n')
}

// A file that has more bytes than are looked at.
#[tactic(auto, unfolding(crate::specs::Cards::longer_line, message::specs::Words::ascii))]
pub fn put_longer(out: &mut [u8], to: usize) -> usize
    ensures { Put out.old out.new to longer_line result }
{
    put_word(out, to, b" is longer than any card\n")
}

// Where it is: a cell of the table or of the plan, or a block, which only DAMAGE has. Nothing else of a card is refused.
#[tactic(auto, unfolding(crate::specs::Cards::place_text, crate::specs::Cards::block_text, message::specs::Words::ascii))]
fn put_place(out: &mut [u8], to: usize, f: Refusal) -> usize
    ensures { Put out.old out.new to (place_text f.reason f.input f.place) result }
{
    match (f.input, f.reason) {
        (Input::Table, _) => put_numbered(out, to, b"table, cell ", f.place),
        (Input::Plan, _) => put_numbered(out, to, b"plan, cell ", f.place),
        (Input::File, Reason::Damage) => put_numbered(out, to, b"block ", f.place),
        _ => to,
    }
}

// A word and a number, before what is said of it.
fn put_numbered(out: &mut [u8], to: usize, word: &[u8], n: usize) -> usize
    ensures { Put out.old out.new to (numbered_place word.now n) result }
{
    let a = put_word(out, to, word);
    let b = put_decimal(out, a, n);
    put_word(out, b, b": ")
}
