// The walk along a plan: one loop over what is noted of each branch, in plan order. A branch whose test fails is left with all below
// it, which are counted; one that succeeds is followed by the branches below it, or, where there is none, its only row (02, W-208) is a hit. A
// row that repeats a variable is run by itself from the branch of its first variable on.
ghost use Rattle.std.specs.Prelude.{◌≡◌, ◌+◌, ◌^◌, ◌≤◌, ◌<◌, length, set};
ghost use Rattle.std.proofs.lemmas.List.Edits.{sets};
ghost use Rattle.table.specs.Table.{up_from, IsGoal};
ghost use Rattle.walking.specs.code.Walk.{Begun, Walked};

use super::nodes::{name_cells, siblings};
use super::step::meets;
use answer::RunCounts;
use joins::node;
use limits::BRANCHES;
use plannotes::packed::{alone_of, row_of, skip_of, wide};
use repeats::{end_of, put_terms, rest};

// The rows from `row` on, `n` of them, as bytes from `at` on, where the room has places for all.
pub fn put_rows(room: &mut [u8], at: usize, n: usize, row: usize)
    requires { (at + n < 2 ^ 64) × (row + n < 2 ^ 64) }
    ensures { at + n ≤ length room.old → row + n ≤ 64
        → room.new ≡ sets room.old at (up_from row n) }
{
    if room.len() < at + n {
        return;
    }
    for k in 0..n {
        room[at + k] = node(row + k) as u8;
    }
}

// The row as the byte at `at`, where the room has a place for it.
fn put_row(room: &mut [u8], at: usize, row: u8)
    ensures { at < length room.old → room.new ≡ set room.old at row }
{
    if at < room.len() {
        room[at] = row;
    }
}

// A run of an accepted plan on a goal of `width` terms: the hits as bytes from the room's first on, and how many branches were tried. Those of
// rows that are run by themselves are counted apart, so that a turn for any other branch adds 1 and nothing else.
pub fn walk(
    notes: &[u64; BRANCHES],
    branches: usize,
    goal: &[u32],
    width: usize,
    room: &mut [u8],
) -> RunCounts
    requires { IsGoal width goal.now }
    ensures { (b : Begun notes.now branches goal.now room.old width) → Walked b
        room.new result.hits result.tried }
{
    let sib = siblings(goal);
    let mut bound = [0u32; 64];
    let mut args = [0u8; 64];
    let mut until = [0u16; 64];
    let rep = name_cells(goal, &mut bound, &mut args, &mut until);
    let mut refs = [0u8; 64];
    put_terms(&mut refs, 1, width, 0, &rep, &sib);
    let end = end_of(branches);
    let mut i = 0;
    let mut hits = 0;
    let mut tried = 0;
    let mut apart = 0;
    while i < end {
        let w = notes[i];
        let skip = skip_of(w);
        if alone_of(w) {
            let past = i + 1 + skip;
            let o = rest(notes, i, past, &rep, &sib, &bound, &args, &until, &refs);
            put_rows(room, hits, o.hits, wide(row_of(w)));
            hits += o.hits;
            apart += o.tried;
            i = past;
        } else {
            tried += 1;
            if meets(
                w, i, &rep, &sib, &mut bound, &mut args, &mut until, &mut refs,
            ) {
                let next = i + 1;
                if skip == 0 {
                    put_row(room, hits, row_of(w));
                    hits += 1;
                }
                i = next;
            } else {
                i += 1 + skip;
            }
        }
    }
    RunCounts {
        hits,
        tried: tried + apart,
    }
}
