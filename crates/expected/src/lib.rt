// What is expected at a place of a text, where it is refused (TEXT), and the bytes of the message. Every place of every text may be asked.
// Two looks at the bytes before the place are enough, and nothing is kept of them but a few numbers.
#![tactic(auto)]

mod say;

ghost use Rattle.std.specs.Prelude.{◌≡◌, drop};
ghost use Rattle.octets.specs.Octets.{Put};
ghost use Rattle.expecting.specs.Looking.{marks, what_by, in_number, spaced, tabbed, found_by, found_at, wanted_at};
ghost use Rattle.expecting.specs.Words.{message};

use expecting::{Found, Stand, Wanted, What};

// After a term.
#[tactic(auto, using(std::proofs::lemmas::Bool::Decides::nat_tests))]
fn mark_of(depth: usize, commas: usize) -> What
    ensures { result ≡ marks depth commas }
{
    if 0 < depth && 3 <= commas {
        return What::Close;
    }
    What::Mark
}

fn what_of(stand: Stand, mark: What) -> What
    ensures { result ≡ what_by stand mark }
{
    match stand {
        Stand::First => What::Name,
        Stand::Head => What::Open,
        Stand::Arg => What::Term,
        Stand::Minus => What::Digit,
        Stand::Name | Stand::Variable | Stand::Number | Stand::After => mark,
        Stand::Closed => What::Full,
        Stand::Stop => What::Blank,
        Stand::Between => What::Next,
    }
}

fn in_number(stand: Stand) -> bool
    ensures { result ≡ in_number stand }
{
    matches!(stand, Stand::Number)
}

fn is_spaced(what: What) -> bool
    ensures { result ≡ spaced what }
{
    !matches!(what, What::Open | What::Digit)
}

// Stays: the flag is a fact of the place (tabbed, specs/Looking), and no choice of steps.
#[tactic(auto, using(std::proofs::lemmas::Bool::Decides::nat_tests))]
fn tab_of(layout: bool, byte: u8) -> Found
    ensures { result ≡ tabbed layout byte }
{
    if layout && byte == b'\t' {
        return Found::Tab;
    }
    Found::Other
}

// Of a byte, after a number or not, where layout may stand or not.
// Stays: the flags are facts of the place (found_by, specs/Looking), and no choice of steps.
#[tactic(auto, using(std::proofs::lemmas::Bool::Decides::nat_tests), unfolding(expecting::specs::Looking::found_by, grammar::specs::Grammar::is_digit))]
fn found_of(number: bool, layout: bool, byte: u8) -> Found
    ensures { result ≡ found_by number layout byte }
{
    if number && byte.is_ascii_digit() {
        return Found::Large;
    }
    tab_of(layout, byte)
}

// What stands at the place.
fn found_at(text: &[u8], at: usize, stand: Stand, what: What) -> Found
    ensures { result ≡ found_at stand what (drop at text.now) }
{
    if text.len() <= at {
        return Found::Other;
    }
    found_of(in_number(stand), is_spaced(what), text[at])
}

// The first look finds the level of the innermost open name, the second counts its commas.
pub fn expected(text: &[u8], at: usize) -> Wanted
    ensures { result ≡ wanted_at text.now at }
{
    let level = looking::look(text, at, 0).depth;
    let s = looking::look(text, at, level);
    let what = what_of(s.stand, mark_of(s.depth, s.commas));
    let found = found_at(text, at, s.stand, what);
    Wanted { what, found }
}

// The message.
pub fn put_wanted(out: &mut [u8], to: usize, wanted: Wanted) -> usize
    ensures { Put out.old out.new to (message wanted) result }
{
    let on = say::put_found(out, to, wanted.found);
    say::put_what(out, on, wanted.what)
}
