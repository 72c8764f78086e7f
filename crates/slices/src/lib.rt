// Parts of lent cells and of lent bytes, from a place up to another. What lies outside is left out.
#![tactic(auto)]

ghost use Rattle.slices.specs.Slices.{Inside};

pub mod bytes;
pub mod cells;

// From a place up to another.
#[derive(Clone, Copy)]
pub struct Span {
    pub start: usize,
    pub end: usize,
}

// The same part of anything so long, with both ends in it.
fn inside(n: usize, start: usize, end: usize) -> Span
    ensures { Inside n start end result }
{
    if n < start {
        return Span { start: 0, end: 0 };
    }
    if end < start {
        return Span { start: 0, end: 0 };
    }
    if n < end {
        return Span { start, end: n };
    }
    Span { start, end }
}
