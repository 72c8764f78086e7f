// Replies as Prolog text, as mathematics: what a table's text, a goal's text and a row that the goal hits have for a reply is an answer of
// crate termtext, so its text is read back as the reply's cells: proofs/ReplyBack. There is no code here.
#![tactic(auto)]
