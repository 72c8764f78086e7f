// The least plan (01, "The least plan"), as mathematics: specs/ says what it is, proofs/ what holds of it. There is no code here but the
// name of a measure.
#![tactic(auto)]

// By what a plan is least: 01's number of branches, or the work of 02's W-204 with the figure that the caller sets.
#[derive(Clone, Copy)]
pub enum By {
    Branches,
    Work(u32),
}
