// A day carried out: from the text of its script to the text of its transcript.
#![tactic(auto)]

mod desk;
pub mod ends;
pub mod fills;
pub mod laws;
pub mod lines;
mod member;
mod notes;
pub mod reading;
pub mod source;
pub mod transcript;
mod whole;
