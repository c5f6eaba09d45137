// A script with what it has to come to, and how the one is held to the other.
use day::ends::Ends;
use day::fills::{Fill, fills};
use day::reading::Reading;
use day::source::{SourceError, text_of};
use day::transcript::{Transcript, transcript_for, whole_transcript};
use script::transcript::rows::RowText;
use std::alloc::{AllocError, Global};
use std::{fs, io};

/// What is made of a script.
#[derive(Clone, Copy)]
pub enum Outcome {
    /// Its transcript.
    Whole,
    /// Its transcript, with the auctions that end at each line.
    WithEnds,
    /// What member 2 may see.
    ForMember2,
    /// The lines that are not understood, as whoever has to mend it is told.
    Misreadings,
    /// The fills of all collectings.
    Fills,
}

/// Two files by their names: the script, without its ending, and what it has to come to.
#[derive(Clone, Copy)]
pub struct Example {
    script: &'static str,
    outcome: Outcome,
    file: &'static str,
}

// A script with its whole transcript, which has its name.
macro_rules! whole {
    ($name:literal) => {
        Example {
            script: $name,
            outcome: Outcome::Whole,
            file: concat!($name, ".out"),
        }
    };
}

// Anything else that is made of a script.
macro_rules! made {
    ($script:literal, $outcome:ident, $file:literal) => {
        Example {
            script: $script,
            outcome: Outcome::$outcome,
            file: $file,
        }
    };
}

/// All examples.
pub const EXAMPLES: [Example; 26] = [
    whole!("day"),
    made!("day", ForMember2, "day_member_2.out"),
    whole!("causes"),
    made!("causes", WithEnds, "causes_ends.out"),
    whole!("stop"),
    whole!("match"),
    whole!("sells"),
    whole!("by_arrival"),
    whole!("by_size"),
    whole!("floors"),
    whole!("market"),
    whole!("drawn"),
    whole!("refusals"),
    whole!("hostile"),
    whole!("misread"),
    whole!("no_room"),
    made!("slips", Misreadings, "slips.told"),
    made!("utf16", Misreadings, "utf16.told"),
    whole!("left_over"),
    made!("left_over", WithEnds, "left_over_ends.out"),
    made!("left_over", Fills, "left_over.fills"),
    whole!("quiet"),
    whole!("seen_one"),
    whole!("seen_other"),
    made!("seen_one", ForMember2, "seen_member_2.out"),
    made!("seen_other", ForMember2, "seen_member_2.out"),
];

impl Outcome {
    // How the program's own list calls it.
    fn title(self) -> &'static str {
        match self {
            Outcome::Whole => "",
            Outcome::WithEnds => ", with ends",
            Outcome::ForMember2 => ", for member 2",
            Outcome::Misreadings => ", as it is read",
            Outcome::Fills => ", its fills",
        }
    }
}

// Each line that is not understood, behind a line with their number.
fn misreadings(heap: Global, text: &str) -> Result<Transcript, AllocError> {
    match Reading::of(heap, text) {
        Err(error) => Err(error),
        Ok(reading) => {
            let statements = reading.statements;
            let count = reading.misreadings.len();
            let mut told = String::new(heap);
            writeln!(told, "{statements} statements, {count} not understood")?;
            for misreading in &reading.misreadings {
                writeln!(told, "{misreading}")?;
            }
            let understood = count == 0;
            Ok(Transcript {
                text: told,
                understood,
            })
        }
    }
}

// Each fill on a line of its own.
fn all_fills(heap: Global, text: &str) -> Result<Transcript, AllocError> {
    let listed = fills(heap, text)?;
    let mut told = String::new(heap);
    for fill in &listed {
        let Fill {
            auction,
            side,
            size,
            cause,
            row,
        } = *fill;
        let cause = cause.letter();
        let row = RowText(row);
        writeln!(told, "{auction} {side} {size} {cause}: {row}")?;
    }
    Ok(Transcript {
        text: told,
        understood: true,
    })
}

// What is told of bytes that are no script.
fn no_script(heap: Global, error: SourceError) -> Result<Transcript, AllocError> {
    let mut text = String::new(heap);
    writeln!(text, "{error}")?;
    Ok(Transcript {
        text,
        understood: false,
    })
}

// The first line, counted from 1, in which two texts differ; none if they are equal.
fn first_difference(got: &str, want: &str) -> Option<usize> {
    if got == want {
        return None;
    }
    let lines = got.lines().zip(want.lines());
    let alike = lines.take_while(|(x, y)| *x == *y).count();
    Some(alike + 1)
}

fn print_verdict(rt: &HostRuntime, got: &Transcript, want: &str) -> io::Result<()> {
    let status = if got.understood {
        "all understood"
    } else {
        "not all understood"
    };
    match first_difference(&got.text, want) {
        None => println!(rt; "{status}, as worked out"),
        Some(line) => println!(rt; "{status}, NOT AS WORKED OUT from line {line} on"),
    }
}

impl Example {
    fn outcome_of(&self, heap: Global, text: &str) -> Result<Transcript, AllocError> {
        match self.outcome {
            Outcome::Whole => whole_transcript(heap, text, Ends::Omitted),
            Outcome::WithEnds => whole_transcript(heap, text, Ends::Shown),
            Outcome::ForMember2 => transcript_for(heap, text, 2),
            Outcome::Misreadings => misreadings(heap, text),
            Outcome::Fills => all_fills(heap, text),
        }
    }

    /// Makes of the script what is to be made of it, and prints whether that is what it has to come to.
    pub fn work(&self, rt: &HostRuntime) -> io::Result<()> {
        let script = self.script;
        let title = self.outcome.title();
        let bytes = fs::read(rt, format!(in rt.alloc(); "{script}.txt")?)?;
        let want = fs::read_to_string(rt, self.file)?;
        let got = match text_of(rt.alloc(), &bytes) {
            Ok(text) => self.outcome_of(rt.alloc(), &text)?,
            Err(error) => no_script(rt.alloc(), error)?,
        };
        print!(rt; "{script}{title}: ")?;
        print_verdict(rt, &got, &want)
    }
}
