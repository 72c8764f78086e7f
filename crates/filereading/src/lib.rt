// A file of blocks read (02, W-211): its table and its plan.
#![tactic(auto)]

ghost use Rattle.std.specs.Prelude.{◌≡◌, ◌==◌, List, ℕ, ◌-◌, ◌*◌, ◌%◌, ◌≤◌, length, drop};
ghost use Rattle.std.specs.List.{list_all};
ghost use Rattle.blocks.specs.Blocks.{whole, good, good_cells};
ghost use Rattle.filing.specs.Files.{zeros, FileLoaded};
ghost use Rattle.filing.specs.Answers.{contents_told};
ghost use Rattle.filing.specs.code.Front.{Sized};

use filing::{Contents, turn};
use refusal::{Input, Reason, Refusal};

fn all_zero(cells: &[u32]) -> bool
    ensures { result ≡ list_all (λ c. c == 0) cells.now }
{
    cells.iter().all(|c| *c == 0)
}

// Whether the cells after the first n are 0, of a file whose blocks are all sound: they are in the last one, which is read once more.
fn padded(file: &[u8], count: usize, n: usize, last: &mut [u32]) -> bool
    requires { (count ≡ whole file.now) × (1 ≤ count) × (count ≤ good file.now 0) × (125 * (count - 1) ≤ n)
        × (n ≤ 125 * count) × (length last.old ≡ 125) }
    ensures { result ≡ zeros (drop n (good_cells file.now 0)) }
{
    let i = count - 1;
    blocks::sound_run(file, i, last);
    let k = n - 125 * i;
    all_zero(&last[k..])
}

// The check of a file's plan, and its cells into the rooms. What is too long to be a table or a plan is cut, and too long still.
fn give(
    cells: &[u32],
    tables: usize,
    plans: usize,
    table: &mut [u32],
    plan: &mut [u32],
) -> Result<Contents, Refusal>
    requires { length cells.now ≡ 8250 }
    ensures { (file : List ℕ) → Sized file cells.now tables plans
        → FileLoaded file table.old plan.old table.new plan.new (contents_told result) }
{
    let m = 2 + tables.min(2051);
    let e = m + plans.min(6083);
    checker::check_plan(&cells[2..m], &cells[m..e])?;
    if table.len() < tables {
        return turn(Reason::Room, Input::Lent, tables);
    }
    if plan.len() < plans {
        return turn(Reason::Room, Input::Lent, plans);
    }
    octets::cells::put_cells(table, 0, &cells[2..m]);
    octets::cells::put_cells(plan, 0, &cells[m..e]);
    Ok(Contents {
        table: tables,
        plan: plans,
    })
}

// A file of whole blocks, by way of lent lists: DAMAGE, SIZES, PADDING, and the rest.
fn read_blocks(
    file: &[u8],
    cells: &mut [u32],
    last: &mut [u32],
    table: &mut [u32],
    plan: &mut [u32],
) -> Result<Contents, Refusal>
    requires { (1 ≤ length file.now) × (length file.now % 512 ≡ 0) × (length cells.old ≡ 8250) × (length last.old ≡ 125) }
    ensures { FileLoaded file.now table.old plan.old table.new plan.new (contents_told result) }
{
    let count = file.len() / 512;
    let good = blocks::sound_run(file, 0, cells);
    if good < count {
        return turn(Reason::Damage, Input::File, good);
    }
    let tables = cells[0] as usize;
    let plans = cells[1] as usize;
    let n = 2 + tables + plans;
    if (n + 124) / 125 != count {
        return turn(Reason::Sizes, Input::File, 0);
    }
    if !padded(file, count, n, last) {
        return turn(Reason::Padding, Input::File, 0);
    }
    give(cells, tables, plans, table, plan)
}

// The table and the plan of a file, any bytes at all, into any rooms.
pub fn read_file(file: &[u8], table: &mut [u32], plan: &mut [u32]) -> Result<Contents, Refusal>
    ensures { FileLoaded file.now table.old plan.old table.new plan.new (contents_told result) }
{
    if file.is_empty() || file.len() % 512 != 0 {
        return turn(Reason::Blocks, Input::File, 0);
    }
    let mut cells = [0u32; 8250];
    let mut last = [0u32; 125];
    read_blocks(file, &mut cells, &mut last, table, plan)
}
