// Knowing more never adds rules, and what a list of goals adds up to (02, W-214), as mathematics. There is no code here.
#![tactic(auto)]
