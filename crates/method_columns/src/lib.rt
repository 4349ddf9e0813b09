// The columns that the method reads, filled once from a good book. The three `fill` stay apart: each writes other entries, and one walk handed a closure for each column would be no shorter.
#![tactic(auto)]

pub mod by_section;
pub mod failing;
pub mod notices;
pub mod participants;
pub mod sections;
pub mod whole;
