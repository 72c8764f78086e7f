// The examples that 01 marks P, as one theorem: proofs/Cases.antt. There is no code here.
#![tactic(auto)]
