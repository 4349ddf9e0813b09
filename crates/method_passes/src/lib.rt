// Step 6 on columns: the two stages of a pass. Buyers and elevators form pairs, then pairs and notices form lines.
#![tactic(auto)]

pub mod fullest;
pub mod offers;
pub mod pairs;
pub mod pass;
pub mod register;
pub mod stage_one;
pub mod stage_two;
