// A list of goals in two lent rooms: their cells one after another, and two words for each goal, where it begins and how many cells it has.
#![tactic(auto)]

ghost use Rattle.std.specs.Prelude.{◌≡◌, ◌+◌, leb, take};
ghost use Rattle.goallist.specs.Gathering.{Adding};

use octets::cells::put_cells;

// So many cells and words of the rooms are in use.
#[derive(Clone, Copy)]
pub struct Held {
    pub cells: usize,
    pub words: usize,
}

// What there is no room for: the words of a goal more, or its cells.
#[derive(Clone, Copy)]
pub enum Full {
    Goals,
    Cells,
}

fn fits(room: usize, to: usize, n: usize) -> bool
    ensures { result ≡ leb (to + n) room }
{
    to <= room && n <= room - to
}

// A goal behind those that there are; or it is left out, and both rooms are as they were.
pub fn add(goal: &[u32], cells: &mut [u32], list: &mut [usize], held: Held) -> Result<Held, Full>
    ensures { Adding goal.now held cells.old list.old cells.new list.new result }
{
    let start = held.cells;
    let at = held.words;
    if !fits(list.len(), at, 2) {
        return Err(Full::Goals);
    }
    if !fits(cells.len(), start, goal.len()) {
        return Err(Full::Cells);
    }
    list[at] = start;
    list[at + 1] = goal.len();
    let end = put_cells(cells, start, goal);
    Ok(Held {
        cells: end,
        words: at + 2,
    })
}

// The words that are in use.
pub fn words(list: &[usize], held: Held) -> &[usize]
    ensures { result.now ≡ take held.words list.now }
{
    let end = held.words.min(list.len());
    &list[..end]
}
