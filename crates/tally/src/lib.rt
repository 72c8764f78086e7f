// What goals add up to: how often each rule fitted, how many goals were answered and how many refused, and the branches tried in
// all. The counts have 64 bits; one that would be larger stays at the largest number.
#![tactic(auto)]

ghost use Rattle.std.specs.Prelude.{◌≡◌};
ghost use Rattle.answer.specs.Run.{run_told};
ghost use Rattle.tally.specs.Tally.{Nothing, Added};
ghost use Rattle.tally.specs.code.Hits.{one_more, added_to};

use answer::RunCounts;
use limits::ROWS;
use refusal::Refusal;
use sums::plus;

// Rule 1 is row 0, as the hits of a run have it.
// Stays: no number here is a length of the array, which has a place for each rule.
#[derive(Clone, Copy)]
pub struct Tally {
    pub fits: [usize; ROWS],
    pub answered: usize,
    pub refused: usize,
    pub tried: usize,
}

// Nothing is counted yet.
pub fn nothing() -> Tally
    ensures { Nothing result }
{
    Tally {
        fits: [0usize; ROWS],
        answered: 0,
        refused: 0,
        tried: 0,
    }
}

// One more for a row. A number that is no row's is passed over.
fn one_more(fits: &mut [usize], row: usize)
    ensures { fits.new ≡ one_more fits.old row }
{
    if row < fits.len() {
        fits[row] = plus(fits[row], 1);
    }
}

fn add_hits(fits: &mut [usize], hits: &[u8])
    ensures { fits.new ≡ added_to fits.old hits.now }
{
    for row in hits {
        one_more(fits, *row as usize);
    }
}

// The counts with one goal more: what its run answers, and the room in which its hits stand.
pub fn add(t: Tally, answer: Result<RunCounts, Refusal>, room: &[u8]) -> Tally
    ensures { Added t (run_told answer) room.now result }
{
    let mut fits = t.fits;
    match answer {
        Ok(RunCounts { hits, tried }) => {
            add_hits(&mut fits, slices::bytes::part(room, 0, hits));
            Tally {
                fits,
                answered: plus(t.answered, 1),
                refused: t.refused,
                tried: plus(t.tried, tried),
            }
        }
        Err(_) => Tally {
            fits,
            answered: t.answered,
            refused: plus(t.refused, 1),
            tried: t.tried,
        },
    }
}
