// A list of goals, each answered in its record. What there is to do for a goal is done on a record by value.
ghost use Rattle.std.specs.Prelude.{◌≡◌, List, ℕ, take};
ghost use Rattle.refusal.specs.Refusal.{reason_number};
ghost use Rattle.answer.specs.Jobs.{bits_of, filled, Each};
ghost use Rattle.plannotes.specs.Noted.{NotedInto};
ghost use Rattle.shift.specs.Totals.{TriesInAll};
ghost use Rattle.shift.specs.code.Asked.{AskedBy, Hits};

use answer::{Job, RunCounts};
use joins::node;
use limits::{BRANCHES, ROWS};
use plannotes::Noted;
use plannotes::packed::wide;
use refusal::Reason;
use sums::plus;

// The first `n` bytes, numbers of rows, as bits. Where they are the hits of a run, nothing is cut.
pub fn bits(room: &[u8; ROWS], n: usize) -> u64
    ensures { Hits room.now n → result ≡ bits_of (take n room.now) }
{
    let mut rows = 0u64;
    for i in 0..n.min(ROWS) {
        rows |= 1 << node(wide(room[i]));
    }
    rows
}

// The record of a goal that is turned away.
fn refused(j: Job, reason: Reason, place: usize) -> Job
    ensures { result ≡ filled j (reason_number reason) place 0 0 }
{
    Job {
        number: refusal::number_of(reason),
        place,
        hits: 0,
        tried: 0,
        ..j
    }
}

// One goal, asked by itself: LENGTH where its cells are not all lent, otherwise what a run of it answers. Neither test adds, so that no
// start and no count is too large.
fn ask_one(numbers: &[u64; BRANCHES], noted: Noted, cells: &[u32], j: Job) -> Job
    ensures { AskedBy numbers.now noted cells.now j result }
{
    let start = j.start;
    let count = j.count;
    if cells.len() < start {
        return refused(j, Reason::Length, 0);
    }
    if cells.len() - start < count {
        return refused(j, Reason::Length, 0);
    }
    let end = start + count;
    let mut room = [0u8; ROWS];
    match run::run_noted(numbers, noted, &cells[start..end], &mut room) {
        Err(f) => refused(j, f.reason, f.place),
        Ok(RunCounts { hits, tried }) => Job {
            number: 0,
            place: 0,
            hits: bits(&room, hits),
            tried,
            ..j
        },
    }
}

// Every record of the list, in place.
pub fn ask_all(numbers: &[u64; BRANCHES], noted: Noted, cells: &[u32], jobs: &mut [Job])
    ensures { Each (AskedBy numbers.now noted cells.now) jobs.old jobs.new }
{
    for job in jobs.iter_mut() {
        *job = ask_one(numbers, noted, cells, *job);
    }
}

// What the goals of a list try together. Two words of the list say where a goal's cells start and how many they are.
pub fn add_all(numbers: &[u64; BRANCHES], noted: Noted, cells: &[u32], list: &[usize]) -> usize
    ensures { (table plan before : List ℕ) → NotedInto table plan before numbers.now noted
        → TriesInAll table plan cells.now list.now result }
{
    let mut tried = 0;
    for k in 0..list.len() / 2 {
        let at = 2 * k;
        let asked = Job {
            start: list[at],
            count: list[at + 1],
            number: 0,
            place: 0,
            hits: 0,
            tried: 0,
        };
        let one = ask_one(numbers, noted, cells, asked);
        tried = plus(tried, one.tried);
    }
    tried
}
