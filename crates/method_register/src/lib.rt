// Step 6 over all passes, on columns: the inside passes by settlement code, then the outside pass.
#![tactic(auto)]

pub mod chosen;
pub mod columns;
pub mod lots;
pub mod passes;
