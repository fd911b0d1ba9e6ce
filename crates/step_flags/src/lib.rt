// What an event's edges are: the flags between the state before it and the state after its settling.
#![tactic(auto)]

pub mod between;
pub mod expiry;
