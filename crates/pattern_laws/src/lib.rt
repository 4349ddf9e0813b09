// Which failures reach a grower (02, n): the proof that its counts are what they should be (proofs/). There is no function in this crate.
#![tactic(auto)]
