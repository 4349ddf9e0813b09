// Sections of an order give lots (steps 2 to 4): who gives, how much, and what is left.
#![tactic(auto)]

pub mod chosen;
pub mod lists;
pub mod taken;
