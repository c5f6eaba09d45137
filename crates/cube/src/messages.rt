// Writing on standard output and on standard error.

use crate::failure::Failure;
use std::fmt::Display;
use std::io::Print;

/// Prints on standard output.
pub fn print<D: Display + Drop>(rt: &HostRuntime, text: D) -> Result<(), Failure> {
    rt.print(text).map_err(Failure::Output)
}

/// Prints bytes on standard output.
pub fn print_bytes(rt: &HostRuntime, bytes: &[u8]) -> Result<(), Failure> {
    rt.write_all(bytes).map_err(Failure::Output)
}

/// Tells something on standard error, on a line of its own that begins with the program's name.
pub fn tell<D: Display + Drop>(rt: &HostRuntime, text: D) -> Result<(), Failure> {
    eprintln!(rt; "cube: {text}").map_err(Failure::Messages)
}
