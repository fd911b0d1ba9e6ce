// What each part of the state may hold.
#![tactic(auto)]

pub mod holds;
