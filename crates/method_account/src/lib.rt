// Steps 1 to 5 of an expiry with every number in between, for those who ask how a register came about.
#![tactic(auto)]

pub mod account;
pub mod across;
pub mod drawing;
pub mod failing;
pub mod giving;
pub mod in_codes;
pub mod outside;
pub mod passes;
