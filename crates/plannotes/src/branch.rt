// What is noted of a branch, in two steps: its cell, its first row, its slot and the first slot free below it when it is met; how many branches
// are below it and whether the rest of its row is run by itself when all below it is noted.
ghost use Rattle.std.specs.Prelude.{◌≡◌, cond, [], ◌-◌, ◌^◌, ◌<◌, eqb, length, get_or, set};
ghost use Rattle.std.proofs.lemmas.List.Edits.{sets};
ghost use Rattle.std.proofs.Math.Seq.{slice};
ghost use Rattle.plannotes.specs.code.Steps.{part_of, end_of, finished, Ending, BranchMet, Begun};
ghost use Rattle.limits.specs.Limits.{most_row_cells};

use super::packed::cell_of;
use super::places::close;
use limits::ROW_CELLS;

// Bit 63.
const ALONE: u64 = 1 << 63;

// The number of a branch that is met.
fn part(c: u32, row: usize, next: usize, slot: usize) -> u64
    requires { (row < 64) × (next < 64) × (slot < 64) }
    ensures { result ≡ part_of c row next slot }
{
    c as u64 + ((row as u64) << 44) + ((next as u64) << 51) + ((slot as u64) << 57)
}

// What is added to it when it has ended, with so many branches below it.
fn end(skip: usize) -> u64
    requires { skip < 2 ^ 12 }
    ensures { result ≡ end_of skip }
{
    (skip as u64) << 32
}

// What comes next, after a state or a branch: the plan's cell, the branch's number and the first row.
#[derive(Clone, Copy)]
pub struct Past {
    pub place: usize,
    pub made: usize,
    pub row: usize,
}

// Meets the branch that comes next, whose state looks at the open place with index `i`. Its arguments get the slots from `free` on; how many
// they are is answered.
pub fn begin(
    plan: &[u32],
    links: &mut [u8; 64],
    notes: &mut [u64],
    i: usize,
    free: usize,
    here: Past,
) -> usize
    requires { BranchMet plan.now links.old notes.old i here.place here.made free here.row }
    ensures { (w : BranchMet plan.now links.old notes.old i here.place here.made free here.row) → Begun w
        links.new notes.new result }
{
    let c = plan[here.place];
    let a = cell::arity_of(c);
    let slot = close(links, i, a, free);
    notes[here.made] = part(c, here.row, free, slot);
    a
}

// Meets the variable `v` again or for the first time: `again` is 0 until one is met that was met before.
fn meet(seen: &mut [u8; ROW_CELLS], v: usize, again: u64) -> u64
    requires { (v < most_row_cells) × (length seen.old ≡ most_row_cells) }
    ensures { (result ≡ cond (eqb (get_or seen.old v 0) 0) again (2 ^ 63)) × (seen.new ≡ set seen.old v 1) }
{
    let before = seen[v];
    seen[v] = 1;
    if before == 0 { again } else { ALONE }
}

// The branches from the number `from` to before `to` end together, before the branch number `past`. They are finished from the last to the
// first, so that at a variable's branch it is known whether one is met twice from there on.
pub fn finish(notes: &mut [u64], from: usize, to: usize, past: usize)
    requires { Ending notes.old from to past }
    ensures { notes.new ≡ sets notes.old from (finished (past - to) (slice from to notes.old) []) }
{
    let mut seen = [0u8; ROW_CELLS];
    let mut again = 0;
    for i in (from..to).rev() {
        let more = end(past - (i + 1));
        let w = notes[i];
        let c = cell_of(w);
        match cell::kind(c) {
            0 => {
                again = meet(&mut seen, c as usize, again);
                notes[i] = w + more + again;
            }
            _ => {
                notes[i] = w + more;
            }
        }
    }
}
