// A text read once: BYTES, TEXT and OTHER are decided here, and the facts of a text that is taken are counted. Nothing is kept
// of it but a number for each open name.
#![tactic(auto)]

mod arguments;
mod facts;
mod levels;

ghost use Rattle.std.specs.Prelude.{◌≡◌, ◌*◌, ◌≤◌, ◌<◌, length};
ghost use Rattle.refusal.specs.declared.Reason.{Reason};
ghost use Rattle.refusal.specs.declared.Input.TheVariants as input;
ghost use Rattle.refusal.specs.Refusal.{refused, told};
ghost use Rattle.scan.specs.Scan.{scan_told, ScanIs};
ghost use Rattle.scan.specs.code.Facts.{verdict_of};
ghost use Rattle.limits.specs.Limits.{most_text_bytes};

use facts::Tally;
use limits::TEXT_BYTES;
use refusal::{Input, Reason, Refusal};

// The facts of a text: how many, the first one's number of arguments, and the symbols of all.
#[derive(Clone, Copy)]
pub struct Counted {
    pub facts: usize,
    pub width: usize,
    pub symbols: usize,
}

// A refusal of the text.
fn turned(reason: Reason, place: usize) -> Refusal
    ensures { told result ≡ refused reason input.Text place }
{
    Refusal {
        reason,
        input: Input::Text,
        place,
    }
}

// What is answered once the whole text is read: OTHER, or its facts.
fn verdict(tally: Tally) -> Result<Counted, Refusal>
    ensures { scan_told result ≡ verdict_of tally }
{
    match tally.other {
        Some(place) => Err(turned(Reason::Other, place)),
        None => Ok(Counted {
            facts: tally.facts,
            width: tally.width,
            symbols: tally.symbols,
        }),
    }
}

// All facts, one after another. `dones` is room for a number for each open name.
fn read_facts(text: &[u8], dones: &mut [u8]) -> Result<Counted, Refusal>
    requires { (length text.now ≤ most_text_bytes) × (length text.now < 8 * length dones.old) }
    ensures { ScanIs text.now result }
{
    let mut at = 0;
    let mut tally = facts::no_facts();
    loop {
        let first = tally.facts == 0;
        let Some(seen) = facts::fact_from(text, at, first, dones)? else {
            return verdict(tally);
        };
        tally = facts::count_fact(text, tally, seen);
        at = seen.next;
    }
}

// The facts of a text, counted; or the first of BYTES, TEXT and OTHER that it meets.
pub fn scan_text(text: &[u8]) -> Result<Counted, Refusal>
    ensures { ScanIs text.now result }
{
    if TEXT_BYTES < text.len() {
        return Err(turned(Reason::Bytes, 0));
    }
    if text.len() < 4096 {
        // a smaller room is sooner cleared
        let mut few = [0u8; 512];
        return read_facts(text, &mut few);
    }
    let mut dones = [0u8; 8192];
    read_facts(text, &mut dones)
}
