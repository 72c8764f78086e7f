// The walk along a noted plan (01, "A run"), as mathematics: specs/ describes its state, proofs/ shows that it finds the hits. The code is in
// crate run.
#![tactic(auto)]
