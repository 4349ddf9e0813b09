// Demand 3: the proof of its one theorem (proofs/). There is no function in this crate.
#![tactic(auto)]
