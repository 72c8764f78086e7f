// The plan that a list of goals likes best: of the plans that `build_for` gives for each set of columns, the one that tries the
// fewest branches over the list.
#![tactic(auto)]

ghost use Rattle.std.specs.Prelude.{List, ℕ, ◌+◌};
ghost use Rattle.least.specs.declared.By.{By};
ghost use Rattle.liked.specs.Liked.{ColumnsListed, LikedInto};
ghost use Rattle.liked.specs.code.Search.{Totalled, Plainly, BestBelow};

use builder::{BuiltPlan, build_for};
use least::By;
use limits::{COLUMNS, PLAN_CELLS};
use refusal::Refusal;

// The columns of a set: the first of the list. The others are 0.
#[derive(Clone, Copy)]
pub struct Columns {
    pub list: [u32; COLUMNS],
    pub count: usize,
}

// A set of columns as a mask, bit c for column c, and what it tries.
#[derive(Drop)]
pub struct Best {
    pub mask: usize,
    pub tried: usize,
}

// The columns of a set that a mask is, ascending.
pub fn columns_of(mask: usize) -> Columns
    ensures { ColumnsListed mask result }
{
    let mut list = [0u32; COLUMNS];
    let mut count = 0;
    for c in 0..COLUMNS as u32 {
        if (mask >> c) % 2 == 1 {
            list[count] = c;
            count += 1;
        }
    }
    Columns { list, count }
}

// What a set of columns tries over the list: its plan, built in a room that holds any, and run on the list.
fn total_for(
    by: By,
    mask: usize,
    cells: &[u32],
    goals: &[u32],
    list: &[usize],
) -> Result<usize, Refusal>
    ensures { Totalled by cells.now goals.now list.now mask result }
{
    let named = columns_of(mask);
    let mut plan = [0u32; PLAN_CELLS];
    let built = build_for(by, &named.list[..named.count], cells, &mut plan[..])?;
    Ok(shift::total_tried(cells, &plan[..built.cells], goals, list))
}

// The better of the best set below `mask` and that set itself. One that tries as many does not come in the place of a smaller.
fn better(best: Best, mask: usize, total: Result<usize, Refusal>) -> Best
    ensures { (by : By) (cells goals list : List ℕ) → BestBelow by cells goals list mask best.mask best.tried
        → Totalled by cells goals list mask total → BestBelow by cells goals list (mask + 1) result.mask result.tried }
{
    match total {
        Ok(tried) if tried < best.tried => Best { mask, tried },
        _ => best,
    }
}

// The best of all sets of columns, from what the plain plan tries. The set of all columns asks for the plain plan again, and is left out.
fn best_of(by: By, cells: &[u32], goals: &[u32], list: &[usize], sets: usize, plain: usize) -> Best
    requires { Plainly by cells.now goals.now list.now sets plain }
    ensures { BestBelow by cells.now goals.now list.now sets result.mask result.tried }
{
    let mut best = Best {
        mask: 0,
        tried: plain,
    };
    for mask in 1..sets - 1 {
        best = better(best, mask, total_for(by, mask, cells, goals, list));
    }
    best
}

// The plan that the list likes best, by a measure, for any cells, into any room; beside it its columns as a mask, what it tries and what the
// plain plan tries. FIGURE and the table's refusals are the plain plan's; ROOM is that of the plan found.
pub fn build_liked(
    by: By,
    cells: &[u32],
    goals: &[u32],
    list: &[usize],
    room: &mut [u32],
    liked: &mut [usize; 3],
) -> Result<BuiltPlan, Refusal>
    ensures { LikedInto by cells.now goals.now list.now room.old room.new
        liked.old liked.new result }
{
    let plain = total_for(by, 0, cells, goals, list)?;
    let width = cells[0] as usize;
    let best = best_of(by, cells, goals, list, 1 << width, plain);
    let named = columns_of(best.mask);
    let built = build_for(by, &named.list[..named.count], cells, room)?;
    *liked = [best.mask, best.tried, plain];
    Ok(built)
}
