// A table and a plan written as a file of blocks (02, W-211).
#![tactic(auto)]

ghost use Rattle.std.specs.Prelude.{◌≡◌, ℕ, ◌*◌, ◌^◌, ◌≤◌, length, replicate};
ghost use Rattle.refusal.specs.Read.{read};
ghost use Rattle.octets.specs.Octets.{Put, bytes_of};
ghost use Rattle.plan.specs.Check.{plan_of};
ghost use Rattle.blocks.specs.Blocks.{blocks_from};
ghost use Rattle.filing.specs.Files.{stream, FileWritten};
ghost use Rattle.filing.specs.Answers.{written_told};
ghost use Rattle.limits.specs.Limits.{most_plan_cells, most_table_cells};

use filing::{Written, turn};
use refusal::{Input, Reason, Refusal};

// The cells of a file laid out at the front of a lent list: the sizes, the table, the plan.
fn lay(table: &[u32], plan: &[u32], cells: &mut [u32]) -> usize
    requires { (length table.now ≤ most_table_cells) × (length plan.now ≤ most_plan_cells) }
    ensures { Put cells.old cells.new 0 (stream table.now plan.now) result }
{
    let sizes = [table.len() as u32, plan.len() as u32];
    let a = octets::cells::put_cells(cells, 0, &sizes);
    let b = octets::cells::put_cells(cells, a, table);
    octets::cells::put_cells(cells, b, plan)
}

// So many blocks from 0 on, of cells that are as many.
fn put_blocks(out: &mut [u8], count: usize, cells: &[u32]) -> usize
    requires { (125 * count ≤ length cells.now) × (count ≤ 2 ^ 32) }
    ensures { Put out.old out.new 0 (bytes_of (blocks_from 0 count cells.now)) result }
{
    let mut on = 0;
    for i in 0..count {
        let a = 125 * i;
        let e = a + 125;
        on = blocks::put_block(out, on, i as u32, &cells[a..e]);
    }
    on
}

// The file of an accepted table and plan, by way of a lent list of zeros.
fn put_file(
    table: &[u32],
    plan: &[u32],
    cells: &mut [u32],
    room: &mut [u8],
) -> Result<Written, Refusal>
    requires { (length table.now ≤ most_table_cells) × (length plan.now ≤ most_plan_cells) × (cells.old ≡ replicate 8250 0) }
    ensures { (n : ℕ) → plan_of table.now plan.now ≡ read n
        → FileWritten table.now plan.now room.old room.new (written_told result) }
{
    let n = lay(table, plan, cells);
    let blocks = (n + 124) / 125;
    let bytes = 512 * blocks;
    if room.len() < bytes {
        return turn(Reason::Room, Input::Lent, bytes);
    }
    put_blocks(room, blocks, cells);
    Ok(Written { bytes, blocks })
}

// A table and a plan as a file, any cells at all, into any room. The plan is checked first.
pub fn write_file(table: &[u32], plan: &[u32], room: &mut [u8]) -> Result<Written, Refusal>
    ensures { FileWritten table.now plan.now room.old room.new (written_told result) }
{
    checker::check_plan(table, plan)?;
    let mut cells = [0u32; 8250];
    put_file(table, plan, &mut cells, room)
}
