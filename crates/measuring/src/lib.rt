// A measure of plans (02, W-204): what the branch of a cell weighs, what a state with two or more branches adds, and a table as it is
// read for it.
#![tactic(auto)]

ghost use Rattle.std.specs.Prelude.{◌≡◌, ◌≤◌};
ghost use Rattle.table.specs.Table.{TableReads};
ghost use Rattle.least.specs.Measures.{work_of, measure_of, table_by};

use least::By;
use refusal::{Input, Reason, Refusal};
use table::TableRead;

// W-204, "a variable's branch costs 0, a number 1, a name 1 plus its arguments".
fn work_of(c: u32) -> u16
    ensures { (result ≡ work_of c) × (result ≤ 5) }
{
    match cell::kind(c) {
        0 => 0,
        _ => (cell::arity_of(c) + 1) as u16,
    }
}

// What the branch of a cell weighs. This function and the next alone know the measure.
pub fn weight_of(by: By, c: u32) -> u16
    ensures { (result ≡ (measure_of by).weight c) × (result ≤ 5) }
{
    match by {
        By::Branches => 1,
        By::Work(_) => work_of(c),
    }
}

// What a state with two or more branches adds.
pub fn figure_of(by: By) -> u32
    ensures { result ≡ (measure_of by).figure }
{
    match by {
        By::Branches => 0,
        By::Work(figure) => figure,
    }
}

// FIGURE, and then what reading the table answers.
#[tactic(auto, using(crate::proofs::Figure::by_measure))]
pub fn read_by(by: By, cells: &[u32]) -> Result<TableRead, Refusal>
    ensures { TableReads (table_by by cells.now) result }
{
    if 15 < figure_of(by) {
        return Err(Refusal {
            reason: Reason::Figure,
            input: Input::Figure,
            place: 0,
        });
    }
    table::read_table(cells)
}
