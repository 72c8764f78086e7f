// What a run answers, as mathematics: specs/ says what it is, proofs/ what holds of it. The code is in crate run.
#![tactic(auto)]

// How many hits a run has, and how many branches it tried.
#[derive(Clone, Copy)]
pub struct RunCounts {
    pub hits: usize,
    pub tried: usize,
}

// One goal of a list (02, W-202). Its caller says where the goal's cells start among the lent cells, and how many there are. A call for the
// list fills in the rest: the refusal's number and place, or 0 and 0; the rows that are hit, row r being bit r; the branches tried.
#[repr(C)]
#[derive(Clone, Copy)]
pub struct Job {
    pub start: usize,
    pub count: usize,
    pub number: usize,
    pub place: usize,
    pub hits: u64,
    pub tried: usize,
}
