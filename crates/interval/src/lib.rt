//! Interval sources: how many milliseconds each draw answers.
#![tactic(auto)]

pub mod fixed;
pub mod refusal;
pub mod source;
pub mod stepping;
