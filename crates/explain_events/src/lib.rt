// The events of a file in words, accepted and refused.
#![tactic(auto)]

pub mod events;
pub mod refusal;
pub mod session;
pub mod shape;
pub mod trade;
