// Why a text or a goal is refused, as a line: where, the refusal's name and number, and what is expected there.
#![tactic(auto)]

use message::Whose;
use refusal::{Reason, Refusal};

// Why a file of facts is refused, with its name, from the start of a room.
pub fn put_facts_refusal(out: &mut [u8], path: &[u8], text: &[u8], f: Refusal) -> usize {
    let on = octets::put_word(out, 0, path);
    put_refusal(out, on, text, 0, Whose::Facts, f)
}

// After the name of what is refused. So many lines stand above the text.
pub fn put_refusal(
    out: &mut [u8],
    to: usize,
    text: &[u8],
    above: usize,
    whose: Whose,
    f: Refusal,
) -> usize {
    let at = marks::byte_of(text, f);
    let mark = marks::mark_of(text, at);
    let reason = f.reason;
    let mut said = [0u8; 128];
    let n = put_expected(&mut said, text, reason, at);
    message::put_refused(
        out,
        to,
        marks::further(above, mark.line),
        mark.column,
        whose,
        reason,
        slices::bytes::part(&said, 0, n),
    )
}

// What is expected where a text goes on no further.
fn put_expected(said: &mut [u8], text: &[u8], reason: Reason, at: usize) -> usize {
    if refusal::number_of(reason) == 18 {
        return expected::put_wanted(said, 0, expected::expected(text, at));
    }
    0
}
