// The record of tests, and what follows from it alone: the phase, the cycle, the end of a charge.
#![tactic(auto)]

pub mod cycles;
pub mod order;
pub mod tests;
