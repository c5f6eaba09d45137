// The lines of a script that are not understood, for whoever has to mend it.
ghost use Rattle.std.specs.Prelude.{◌≡◌, ◌++◌, IfOk, OnOk, Some, length, map};
ghost use Rattle.day.specs.Lines.{line_value, script_lines};
ghost use Rattle.day.specs.Reading.{line_and_reason_text};

use crate::lines::{Entry, Line, Script};
use script::hint::{Hint, is_unseen};
use script::misread::{Expected, Misread};
use script::read::{Stop, stop_in};
use script::transcript::not_understood::NotUnderstood;
use script::transcript::reply::Reply;
use std::alloc::{AllocError, Global};
use std::fmt;

/// A line that is not understood.
#[derive(Clone, Copy)]
pub struct Misreading<'a> {
    /// The line's number, counted from 1.
    pub line: usize,
    /// The column, counted from 1 in characters, of the word that is wrong; where a word is missing, that
    /// behind the last one.
    pub column: usize,
    /// Why it is not understood.
    pub why: NotUnderstood,
    /// The word that stands there, if one is wrong.
    pub word: Option<&'a str>,
    /// What may be wrong with it.
    pub hint: Option<Hint>,
}

/// A script that is read and not carried out.
#[derive(Drop)]
pub struct Reading<'a> {
    /// How many lines are not passed over.
    pub statements: usize,
    /// Those that are not understood, in their order.
    pub misreadings: Vec<Misreading<'a>>,
}

// What is expected where a wrong word stands. Nothing is where the line is whole without it, or is a
// statement.
fn expected_there(why: NotUnderstood) -> Option<Expected> {
    match why {
        NotUnderstood::Misread(Misread::Unknown(what)) => Some(what),
        NotUnderstood::Misread(Misread::Negative(what)) => Some(what),
        NotUnderstood::Misread(Misread::TooLarge(what)) => Some(what),
        _ => None,
    }
}

// What may be wrong with the word that stands there, if one does.
fn hint_for(word: Option<&str>, why: NotUnderstood) -> Option<Hint> {
    Hint::of(word?, expected_there(why))
}

impl<'a> Misreading<'a> {
    ghost use Rattle.day.specs.Reading.{misreading_value};

    // The line of this number, with this text.
    fn new(line: usize, text: &'a str, why: NotUnderstood) -> Misreading<'a>
        ensures { misreading_value result ≡ (line, why) }
    {
        let Stop { column, word } = stop_in(text);
        Misreading {
            line,
            column,
            why,
            word,
            hint: hint_for(word, why),
        }
    }

    /// The same without what stands in the line: neither a word nor a column, which tells how long the
    /// words before it are.
    pub fn without_word(self) -> LineAndReason
        ensures { (result.line, result.why) ≡ misreading_value self.entry }
    {
        LineAndReason {
            line: self.line,
            why: self.why,
        }
    }
}

/// A line that is not understood, without what stands in it.
#[derive(Clone, Copy)]
pub struct LineAndReason {
    /// The line's number, counted from 1.
    pub line: usize,
    /// Why it is not understood.
    pub why: NotUnderstood,
}

impl fmt::Display for LineAndReason {
    ghost output = { λ x. Some (line_and_reason_text x) };

    fn fmt<W: fmt::Write>(&self, f: &mut fmt::Formatter<W>) -> fmt::Result {
        let LineAndReason { line, why } = *self;
        write!(f, "line {line}: {why}")
    }
}

// A word of a script as it is shown: 40 characters of it at most, and those that could steer a terminal or
// would not be seen escaped.
#[derive(Clone, Copy)]
struct WordText<'a>(&'a str);

// A character that steers or is not seen is shown by its number, as `\u{1b}`.
fn write_shown<W: fmt::Write>(f: &mut fmt::Formatter<W>, c: char) -> fmt::Result {
    if c.is_control() || is_unseen(c) {
        let number = c as u32;
        write!(f, "\\u{{{number:x}}}")
    } else {
        f.write_char(c)
    }
}

const LONGEST_SHOWN: usize = 40;

impl fmt::Display for WordText<'_> {
    fn fmt<W: fmt::Write>(&self, f: &mut fmt::Formatter<W>) -> fmt::Result {
        for c in self.0.chars().take(LONGEST_SHOWN) {
            write_shown(f, c)?;
        }
        if self.0.chars().count() > LONGEST_SHOWN {
            f.write_str("..")?;
        }
        Ok(())
    }
}

// Why a line is not understood, with the word that stands there.
#[derive(Clone, Copy)]
struct Reason<'a> {
    why: NotUnderstood,
    word: Option<&'a str>,
}

impl fmt::Display for Reason<'_> {
    fn fmt<W: fmt::Write>(&self, f: &mut fmt::Formatter<W>) -> fmt::Result {
        let Reason { why, word } = *self;
        let Some(word) = word else {
            return write!(f, "{why}");
        };
        let word = WordText(word);
        match why {
            NotUnderstood::Misread(Misread::Unknown(what)) => {
                write!(f, "{what} is expected, and `{word}` stands there")
            }
            NotUnderstood::Misread(Misread::Surplus) => {
                write!(f, "the line's end is expected, and `{word}` stands there")
            }
            _ => write!(f, "{why}, and `{word}` stands there"),
        }
    }
}

impl fmt::Display for Misreading<'_> {
    fn fmt<W: fmt::Write>(&self, f: &mut fmt::Formatter<W>) -> fmt::Result {
        let Misreading {
            line,
            column,
            why,
            word,
            hint,
        } = *self;
        let reason = Reason { why, word };
        write!(f, "line {line}, column {column}: {reason}")?;
        match hint {
            Some(hint) => write!(f, "; {hint}"),
            None => Ok(()),
        }
    }
}

// The text of the line of this number.
fn line_of<'a>(lines: &[&'a str], number: usize) -> &'a str {
    match lines.get(number.saturating_sub(1)) {
        Some(line) => *line,
        None => "",
    }
}

impl<'a> Reading<'a> {
    ghost use Rattle.day.specs.Lines.{entry_value};
    ghost use Rattle.day.specs.Lines.{is_all_understood};
    ghost use Rattle.day.specs.Reading.{is_none_misread, misread_entry, misread_lines, misreading_value};

    // Notes a line that is not understood.
    fn note_line(
        misreadings: &mut Vec<Misreading<'a>>,
        line: &Line,
        lines: &[&'a str],
    ) -> Result<(), AllocError>
        ensures { OnOk result (map misreading_value misreadings.new.items
            ≡ map misreading_value misreadings.old.items
            ++ misread_entry line.now.number (entry_value line.now.entry)) }
    {
        if let Entry::Replied(Reply::NotUnderstood(why)) = &line.entry {
            misreadings.push(Misreading::new(line.number, line_of(lines, line.number), *why))?;
        }
        Ok(())
    }

    // Those of these lines that are not understood.
    fn misreadings_in(
        heap: Global,
        lines: &[Line],
        texts: &[&'a str],
    ) -> Result<Vec<Misreading<'a>>, AllocError>
        ensures { IfOk result (λ ms. map misreading_value ms.items
            ≡ misread_lines (map line_value lines.now)) }
    {
        let mut misreadings = Vec::new(heap);
        for line in lines {
            Reading::note_line(&mut misreadings, line, texts)?;
        }
        Ok(misreadings)
    }

    /// Reads a script, and carries nothing out.
    #[tactic(auto, using(crate::proofs::NoneMisread::none_misread))]
    pub fn of(heap: Global, text: &'a str) -> Result<Reading<'a>, AllocError>
        ensures statements { IfOk result (λ r. r.statements ≡ length (script_lines text.now)) }
        ensures misreadings { IfOk result (λ r. map misreading_value r.misreadings.items
            ≡ misread_lines (script_lines text.now)) }
        ensures none_if_all { IfOk result (λ r. is_none_misread (map misreading_value r.misreadings.items)
            ≡ is_all_understood (script_lines text.now)) }
    {
        let texts: Vec<&str> = text.lines().collect(heap)?;
        let Script { lines, room: _ } = Script::read(heap, text)?;
        let misreadings = Reading::misreadings_in(heap, &lines, &texts)?;
        Ok(Reading {
            statements: lines.len(),
            misreadings,
        })
    }
}
