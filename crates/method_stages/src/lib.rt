// Step 6 pass by pass: what both stages of a pass form, kept so that it can be shown.
#![tactic(auto)]

use method_passes::pairs::Pairs;
use method_passes::register::Register;
use rules::limits::ELEVATORS;

pub mod one_pass;

// What a pass comes to.
#[derive(Drop)]
pub struct Stages {
    // The lots at each elevator before stage one.
    pub stocks: [u64; ELEVATORS],
    pub pairs: Pairs,
    pub lines: Register,
}
