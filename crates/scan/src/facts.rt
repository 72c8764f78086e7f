// The facts of a text, read and counted one after another.
ghost use Rattle.std.specs.Prelude.{◌≡◌, ◌*◌, ◌≤◌, ◌<◌, length};
ghost use Rattle.scan.specs.code.Facts.{FactIs, Sized, no_facts, like_first, later_other, with_fact};
ghost use Rattle.limits.specs.Limits.{most_text_bytes};

use super::arguments;
use fact::Head;
use lex::{Stop, fact, name};

// A fact that is read: where its predicate's name stands, its number of arguments and of symbols, the place after its full stop.
#[derive(Clone, Copy)]
pub struct Seen {
    pub start: usize,
    pub end: usize,
    pub width: usize,
    pub symbols: usize,
    pub next: usize,
}

// The next fact, from the start of the text on (`first`) or from just after a full stop; None: the text ends.
pub fn fact_from(
    text: &[u8],
    at: usize,
    first: bool,
    dones: &mut [u8],
) -> Result<Option<Seen>, Stop>
    requires { (at ≤ length text.now) × (length text.now ≤ most_text_bytes) × (length text.now < 8 * length dones.old) }
    ensures { FactIs text.now at first result }
{
    match fact::next_fact(text, at, first) {
        Head::End => Ok(None),
        Head::Stop(p) => Err(Stop { at: p }),
        Head::Open(start, end) => {
            let args = arguments::read_arguments(text, end + 1, dones)?;
            let next = fact::fact_end(text, args.next)?;
            Ok(Some(Seen {
                start,
                end,
                width: args.last + 1,
                symbols: args.symbols,
                next,
            }))
        }
    }
}

// The facts so far: how many, the first one's place and number of arguments, the symbols of all, and where the first fact of another
// predicate or width begins.
#[derive(Clone, Copy)]
pub struct Tally {
    pub facts: usize,
    pub start: usize,
    pub end: usize,
    pub width: usize,
    pub symbols: usize,
    pub other: Option<usize>,
}

pub fn no_facts() -> Tally
    ensures { result ≡ no_facts }
{
    Tally {
        facts: 0,
        start: 0,
        end: 0,
        width: 0,
        symbols: 0,
        other: None,
    }
}

// Whether a fact has the predicate and the width of the first.
fn like_first(text: &[u8], tally: Tally, seen: Seen) -> bool
    requires { Sized text.now tally seen }
    ensures { result ≡ like_first text.now tally seen }
{
    seen.width == tally.width
        && name::same_bytes(&text[seen.start..seen.end], &text[tally.start..tally.end])
}

// The first fact that is another: one before, or this one, or still none.
fn first_other(text: &[u8], tally: Tally, seen: Seen) -> Option<usize>
    requires { Sized text.now tally seen }
    ensures { result ≡ later_other text.now tally seen }
{
    match tally.other {
        Some(place) => Some(place),
        None => {
            if like_first(text, tally, seen) {
                None
            } else {
                Some(seen.start)
            }
        }
    }
}

// One fact more.
pub fn count_fact(text: &[u8], tally: Tally, seen: Seen) -> Tally
    requires { Sized text.now tally seen }
    ensures { result ≡ with_fact text.now tally seen }
{
    if tally.facts == 0 {
        return Tally {
            facts: 1,
            start: seen.start,
            end: seen.end,
            width: seen.width,
            symbols: seen.symbols,
            other: None,
        };
    }
    let other = first_other(text, tally, seen);
    Tally {
        facts: tally.facts + 1,
        symbols: tally.symbols + seen.symbols,
        other,
        ..tally
    }
}
