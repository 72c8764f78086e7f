// What can be had of a bad file (02, W-212): what its saving answers. specs/ says which rows are kept and what is reported, proofs/ that
// they are the longest run from the top, the original's, and that a good file comes through unchanged.
#![tactic(auto)]

// The rows kept and dropped, whether the plan is the file's own, the cells of the table and of the plan, and how many blocks are bad.
#[derive(Clone, Copy)]
pub struct Report {
    pub kept: usize,
    pub dropped: usize,
    pub plan_kept: bool,
    pub table: usize,
    pub plan: usize,
    pub bad: usize,
}
