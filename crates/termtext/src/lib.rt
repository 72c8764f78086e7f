// Goals and answers as Prolog text, as mathematics: specs/ says what a goal's text means and what the text of an answer is,
// proofs/ that the second is read back as the answer's cells. There is no code here but what the crates above hand to one another.
#![tactic(auto)]

// What the facts of a text have in common: where their predicate's name stands in it, from a place up to another, and how many arguments
// it has.
#[derive(Clone, Copy)]
pub struct Predicate {
    pub start: usize,
    pub end: usize,
    pub width: usize,
}
