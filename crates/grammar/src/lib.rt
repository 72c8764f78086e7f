// The texts of tables (02, W-201), as mathematics: specs/ says what they are and mean, proofs/ what holds of them. There is no code here.
#![tactic(auto)]
