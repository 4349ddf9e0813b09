// The laws of the method of expiry (proofs/), on the definitions of `rules`. There is no function in this crate yet.
#![tactic(auto)]
