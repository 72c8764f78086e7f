// What a row and a goal have in common as mathematics: specs/ says what a reply is, proofs/ what holds of it. The code is in
// crate replies.
#![tactic(auto)]

// How many replies there are, and how many cells they have together.
#[derive(Clone, Copy)]
pub struct ReplyCounts {
    pub replies: usize,
    pub cells: usize,
}

// One goal of a list whose replies are wanted too. Its caller says where the goal's cells start among the lent cells, and how many there are. A
// call for the list fills in the rest: the refusal's number and place, or 0 and 0; where its replies begin in the room, how many they are and how
// many cells they have together; the rows that are hit, row r being bit r; the branches tried.
#[repr(C)]
#[derive(Clone, Copy)]
pub struct ReplyJob {
    pub start: usize,
    pub count: usize,
    pub number: usize,
    pub place: usize,
    pub at: usize,
    pub replies: usize,
    pub cells: usize,
    pub hits: u64,
    pub tried: usize,
}
