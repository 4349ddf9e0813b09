// The steps of an expiry in words.
#![tactic(auto)]

mod codes;
pub mod expiry;
mod formed;
mod giving;
mod stage_one;
mod stage_two;
mod step_five;
mod step_four;
mod step_one;
mod step_six;
mod step_three;
mod step_two;
