// What ends the program before it has done all that it was asked for.

use std::alloc::AllocError;
use std::io;
use thiserror::Error;

/// Why the program gives up.
#[derive(Debug, Drop, Error)]
pub enum Failure {
    /// The system does not give the words of the command line, or one of them is no text.
    #[error("a word of the command line cannot be read: {0}")]
    Words(io::Error),
    /// Standard output is full, closed or broken.
    #[error("standard output cannot be written: {0}")]
    Output(io::Error),
    /// Standard error is full, closed or broken.
    #[error("standard error cannot be written: {0}")]
    Messages(io::Error),
    /// There is not enough memory for the scripts.
    #[error("there is not enough memory for this")]
    Memory(#[from(alloc)] AllocError),
    /// The table of fills cannot be made.
    #[error("the table of fills cannot be made: {0}")]
    Table(#[from] csv::Error),
}
