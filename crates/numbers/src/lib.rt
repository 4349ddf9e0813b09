// No code: the general mathematics that the other crates cite. Definitions are in specs/, laws in proofs/.
#![tactic(auto)]
