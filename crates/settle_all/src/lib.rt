// Settling: the tests of a state, and the state that follows from them.
#![tactic(auto)]

pub mod gather;
pub mod settle;
