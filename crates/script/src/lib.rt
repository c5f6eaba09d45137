// The script of a venue, as text: reading its statements, setting up the room, and the text of the answers.
#![tactic(auto)]

pub mod chosen;
pub mod explain;
pub mod hint;
pub mod misread;
mod number;
pub mod read;
pub mod setup;
pub mod shown;
pub mod statement;
pub mod transcript;
mod words;
pub mod write;
