// Steps 1 to 4 of the method on columns: what is left of each section and what is terminated, and what of it goes outside.
#![tactic(auto)]

pub mod across;
pub mod columns;
pub mod in_codes;
pub mod ordered;
pub mod outside;
pub mod remaining;
