// Single entries of lists: read, found, changed. Nothing is asked of a list: past its end there is nothing to read and nothing to change.
#![tactic(auto)]

pub mod changed;
pub mod entries;
pub mod found;
