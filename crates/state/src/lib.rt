// How the code holds a state of a plan (01, "Plans"): its rows as masks of their open cells, and the column of cells at a place.
#![tactic(auto)]

pub mod column;
pub mod flags;
pub mod mask;

// The rows of a state, from first to before end, how many places are open in each, and which of these are inside a named column (02, W-213):
// bit i for open place i.
#[derive(Clone, Copy)]
pub struct Rows {
    pub first: usize,
    pub end: usize,
    pub opens: usize,
    pub named: u64,
}
