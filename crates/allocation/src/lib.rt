// Sharing out: who gets how many contracts of an ended auction, at which price.
#![tactic(auto)]

mod arrange;
pub mod auction;
pub mod cause;
pub mod fill;
mod levels;
pub mod limits;
pub mod order;
pub mod ranking;
pub mod refusal;
pub mod response;
mod share;
mod split;
mod table;
pub mod terms;
mod walk;
