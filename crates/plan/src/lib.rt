// Plans (01, "Plans"), as mathematics: specs/ says what they are, proofs/ what holds of them. There is no code here.
#![tactic(auto)]
