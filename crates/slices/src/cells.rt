// A part of lent cells.
ghost use Rattle.std.specs.Prelude.{◌≡◌};
ghost use Rattle.slices.specs.Slices.{between};

use super::inside;

pub fn part(cells: &[u32], start: usize, end: usize) -> &[u32]
    ensures { result.now ≡ between start end cells.now }
{
    let s = inside(cells.len(), start, end);
    let a = s.start;
    let e = s.end;
    &cells[a..e]
}
