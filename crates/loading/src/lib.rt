// How a text is loaded as a table (02, W-201), as mathematics: specs/ says what is answered and written, proofs/ what holds of it. There is
// no code here.
#![tactic(auto)]
