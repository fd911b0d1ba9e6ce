// The fields of the register map: their codes in the words that hold it.
#![tactic(auto)]

pub mod bits;
pub mod codes;
pub mod holding;
pub mod named;
pub mod taking;
