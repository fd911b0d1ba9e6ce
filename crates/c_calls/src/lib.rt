// What a head's C firmware calls: a handful of functions on numbers and byte slices.
#![tactic(auto)]

pub mod answer;
pub mod comparing;
mod landing;
pub mod playing;
pub mod replaying;
pub mod rules;
pub mod showing;
pub mod writing;
