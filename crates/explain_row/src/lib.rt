// Rows of the explanation of a contract: templates filled and written out, divisions, and amounts.
#![tactic(auto)]

pub mod amounts;
pub mod rounding;
pub mod row;
