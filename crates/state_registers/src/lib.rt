// Registers: written and reset.
#![tactic(auto)]

pub mod resetting;
pub mod writing;
