// Where scripts come from.

use crate::messages::tell;
use day::source::{SourceError, text_of};
use std::io::{IsTerminal, Read};
use std::{env, fmt, fs, io};
use thiserror::Error;

/// Where a script is read from.
#[derive(Clone, Copy)]
pub enum Source<'a> {
    /// Standard input, whatever that is. It is read to its end.
    StandardInput,
    /// The file of this name.
    File(&'a str),
    /// The example day, a file that the environment names.
    Example,
}

/// Why a script cannot be read.
#[derive(Debug, Drop, Error)]
pub enum Unreadable {
    /// The system does not give its bytes.
    #[error("{0}")]
    Bytes(io::Error),
    /// There is no text of its bytes.
    #[error("{0}")]
    Text(SourceError),
}

/// A script that was read.
#[derive(Drop)]
pub struct SourceText<'a> {
    /// What it is called when it is spoken of.
    pub name: &'a str,
    /// Its text.
    pub text: String,
}

/// A script's name as it is shown: a character that steers, as a line's end, by its number, as `\u{a}`.
#[derive(Clone, Copy)]
pub struct NameText<'a>(pub &'a str);

fn write_shown<W: fmt::Write>(f: &mut fmt::Formatter<W>, c: char) -> fmt::Result {
    if c.is_control() {
        let number = c as u32;
        write!(f, "\\u{{{number:x}}}")
    } else {
        f.write_char(c)
    }
}

impl fmt::Display for NameText<'_> {
    fn fmt<W: fmt::Write>(&self, f: &mut fmt::Formatter<W>) -> fmt::Result {
        for c in self.0.chars() {
            write_shown(f, c)?;
        }
        Ok(())
    }
}

// A file by its name in quotes, which may have blanks or be empty.
impl fmt::Display for Source<'_> {
    fn fmt<W: fmt::Write>(&self, f: &mut fmt::Formatter<W>) -> fmt::Result {
        let name = NameText(self.name());
        match *self {
            Source::File(_) => write!(f, "'{name}'"),
            _ => write!(f, "{name}"),
        }
    }
}

// The environment's word for the file with the example day, which the starter script sets.
const EXAMPLE: &str = "CUBE_EXAMPLE";

// On a terminal a word says what is waited for.
fn standard_input(rt: &HostRuntime) -> io::Result<Vec<u8>> {
    if rt.stdin().is_terminal() {
        // Where standard error cannot be written, the script is read with no word.
        let _ = tell(
            rt,
            "the script is read from the terminal, until its end is typed (Ctrl-D)",
        );
    }
    let mut bytes = Vec::new(rt.alloc());
    rt.stdin().read_to_end(&mut bytes)?;
    Ok(bytes)
}

fn example(rt: &HostRuntime) -> io::Result<Vec<u8>> {
    match env::var(rt, EXAMPLE) {
        Ok(name) => fs::read(rt, &name),
        Err(_) => Err(io::Error::other("it is carried out by ./cube, which says where it is")),
    }
}

impl<'a> Source<'a> {
    /// What it is called when it is spoken of: a file by its name as it was typed.
    pub fn name(self) -> &'a str {
        match self {
            Source::StandardInput => "standard input",
            Source::File(name) => name,
            Source::Example => "the example day",
        }
    }

    fn bytes(self, rt: &HostRuntime) -> io::Result<Vec<u8>> {
        match self {
            Source::StandardInput => standard_input(rt),
            Source::File(name) => fs::read(rt, name),
            Source::Example => example(rt),
        }
    }

    /// Reads it to its end.
    pub fn read(self, rt: &HostRuntime) -> Result<SourceText<'a>, Unreadable> {
        let bytes = self.bytes(rt).map_err(Unreadable::Bytes)?;
        let text = text_of(rt.alloc(), &bytes).map_err(Unreadable::Text)?;
        Ok(SourceText {
            name: self.name(),
            text,
        })
    }
}
