// What the steps hold by section and by notice: the net of each settlement code, and what is drawn of the notices.
#![tactic(auto)]

pub mod drawing;
pub mod nets;
