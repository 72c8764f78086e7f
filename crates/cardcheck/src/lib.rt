// What is said of a card's bytes: what it holds, or why it is refused.
#![tactic(auto)]

use cardwords::Held;
use limits::{PLAN_CELLS, TABLE_CELLS};
use refusal::Refusal;
use slices::cells::part;

// After the card's name. The end of what was put: of a card that is whole, or as an error of one that is refused.
pub fn put_checked(out: &mut [u8], to: usize, file: &[u8]) -> Result<usize, usize> {
    match held_by(file) {
        Ok(held) => Ok(cardwords::put_held(out, to, held)),
        Err(f) => Err(cardwords::put_refused(out, to, f)),
    }
}

// 2,050 and 6,082 cells are enough for every table and plan.
fn held_by(file: &[u8]) -> Result<Held, Refusal> {
    let mut table = [0u32; TABLE_CELLS];
    let mut plan = [0u32; PLAN_CELLS];
    let had = filereading::read_file(file, &mut table, &mut plan)?;
    Ok(held_in(
        part(&table, 0, had.table),
        part(&plan, 0, had.plan),
        file.len() / 512,
    ))
}

fn held_in(table: &[u32], plan: &[u32], blocks: usize) -> Held {
    Held {
        rules: shop::cell_at(table, 1) as usize,
        columns: shop::cell_at(table, 0) as usize,
        branches: shop::branches_of(table, plan),
        blocks,
    }
}
