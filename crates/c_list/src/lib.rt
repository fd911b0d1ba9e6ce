// A state's numbers, one list, and the state that a list of numbers makes.
#![tactic(auto)]

pub mod list;
pub mod made;
pub mod places;
