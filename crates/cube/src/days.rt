// The days of a command line: their scripts are read and carried out, and what was not understood is told.
ghost use Rattle.std.specs.Prelude.{◌≡◌, ◌-◌, ◌^◌, ℕ, None, Some, IfOk, length, min, string_bytes, sum_by};
ghost use Rattle.day.specs.Member.{TranscriptFor};
ghost use Rattle.day.specs.Whole.{WholeTranscript};

use crate::command_line::{Options, Output};
use crate::failure::Failure;
use crate::fills_table::FillsTable;
use crate::messages::{print, print_bytes, tell};
use crate::outcome::Outcome;
use crate::source::{NameText, Source, SourceText, Unreadable};
use day::fills::fills;
use day::lines::{Entry, Script};
use day::reading::{Misreading, Reading};
use day::transcript::{Transcript, transcript_for, whole_transcript};
use script::explain::refusal_meaning;
use script::setup::refusal::SettingRefusal;
use script::transcript::reply::Reply;
use std::alloc::{AllocError, Global};

// A day: its script, and what is found where that is read and not carried out.
#[derive(Drop)]
struct Day<'a> {
    // What the script is called when it is spoken of.
    name: &'a str,
    script: &'a str,
    reading: Reading<'a>,
}

// The scripts that can be read, and those that cannot.
#[derive(Drop)]
struct Texts<'a> {
    read: Vec<SourceText<'a>>,
    unread: Vec<Unread<'a>>,
}

// A script that cannot be read.
#[derive(Drop)]
struct Unread<'a> {
    source: Source<'a>,
    why: Unreadable,
}

impl<'a> Texts<'a> {
    // Reads all scripts to their ends.
    fn of(rt: &HostRuntime, sources: &[Source<'a>]) -> Result<Texts<'a>, AllocError> {
        let mut read = Vec::new(rt.alloc());
        let mut unread = Vec::new(rt.alloc());
        for source in sources {
            match source.read(rt) {
                Ok(text) => read.push(text)?,
                Err(why) => unread.push(Unread {
                    source: *source,
                    why,
                })?,
            }
        }
        Ok(Texts { read, unread })
    }
}

// Tells which scripts cannot be read, and why.
fn tell_unread(rt: &HostRuntime, unread: &[Unread<'_>]) -> Result<(), Failure> {
    for script in unread {
        let source = script.source;
        let why = &script.why;
        tell(rt, format_args!("{source} cannot be read: {why}"))?;
    }
    Ok(())
}

fn days<'a>(heap: Global, texts: &'a [SourceText<'a>]) -> Result<Vec<Day<'a>>, AllocError> {
    let mut days = Vec::new(heap);
    for source in texts {
        days.push(Day {
            name: source.name,
            script: &source.text,
            reading: Reading::of(heap, &source.text)?,
        })?;
    }
    Ok(days)
}

// How many lines are not understood, in all scripts together.
fn misreading_count(days: &[Day<'_>]) -> usize
    ensures { result ≡ min (sum_by (λ d. length d.reading.misreadings.items) days.now) (2 ^ 64 - 1) }
{
    let mut count: usize = 0;
    for day in days {
        count = count.saturating_add(day.reading.misreadings.len());
    }
    count
}

// The transcript that is asked for: the whole, or what a member may see.
fn transcript(heap: Global, script: &str, options: &Options<'_>) -> Result<Transcript, AllocError>
    ensures whole { options.now.member ≡ None
        → IfOk result (λ t. WholeTranscript options.now.ends script.now (string_bytes t.text)) }
    ensures member { (m : ℕ) → options.now.member ≡ Some m
        → IfOk result (λ t. TranscriptFor m script.now (string_bytes t.text)) }
{
    match options.member {
        Some(member) => transcript_for(heap, script, member),
        None => whole_transcript(heap, script, options.ends),
    }
}

// Prints the transcripts, each under its script's name where several are named.
fn print_transcripts(
    rt: &HostRuntime,
    days: &[Day<'_>],
    options: &Options<'_>,
) -> Result<(), Failure> {
    let mut before = "";
    for day in days {
        if options.sources.len() > 1 {
            let name = NameText(day.name);
            print(rt, format_args!("{before}==> {name} <==\n"))?;
            before = "\n";
        }
        let Transcript {
            text,
            understood: _,
        } = transcript(rt.alloc(), day.script, options)?;
        print(rt, text)?;
    }
    Ok(())
}

// Prints the rows of all fill lists. Where several scripts are named, each row names its own. Where none can
// be read there is no table, so that it is not taken for that of a day without fills.
fn print_fills(rt: &HostRuntime, days: &[Day<'_>], options: &Options<'_>) -> Result<(), Failure> {
    if days.is_empty() {
        return Ok(());
    }
    let heap = rt.alloc();
    let mut table = FillsTable::new(heap, options.sources.len() > 1)?;
    for day in days {
        for fill in &fills(heap, day.script)? {
            table.push(heap, day.name, fill)?;
        }
    }
    print_bytes(rt, &table.into_bytes()?)
}

// Carries out the scripts and prints what is asked for; a check does neither.
fn carry_out(rt: &HostRuntime, days: &[Day<'_>], options: &Options<'_>) -> Result<(), Failure> {
    match options.output {
        Output::Transcript => print_transcripts(rt, days, options),
        Output::Fills => print_fills(rt, days, options),
        Output::Nothing => Ok(()),
    }
}

// Tells what is not understood in a line. To a member nothing is told of what stands there.
fn tell_misreading(
    rt: &HostRuntime,
    name: NameText<'_>,
    misreading: &Misreading<'_>,
    member: Option<u8>,
) -> Result<(), Failure> {
    if member.is_some() {
        let misreading = misreading.without_word();
        tell(rt, format_args!("{name}: {misreading}"))
    } else {
        tell(rt, format_args!("{name}: {misreading}"))
    }
}

// Tells what is not understood in a script, line by line.
fn tell_misreadings(rt: &HostRuntime, day: &Day<'_>, member: Option<u8>) -> Result<(), Failure> {
    for misreading in &day.reading.misreadings {
        tell_misreading(rt, NameText(day.name), misreading, member)?;
    }
    Ok(())
}

// Tells that the setting on the line of this number is refused, by which number, and what that means.
fn tell_refused(
    rt: &HostRuntime,
    name: NameText<'_>,
    line: usize,
    refusal: SettingRefusal,
) -> Result<(), Failure> {
    let number = refusal.number();
    match refusal_meaning(number) {
        Some(meaning) => tell(
            rt,
            format_args!("{name}: line {line}: refused {number}: {meaning}"),
        ),
        None => tell(rt, format_args!("{name}: line {line}: refused {number}")),
    }
}

// Tells what is wrong in a script, line by line: what is not understood, and which settings are refused. No
// call is needed for that.
fn tell_faults(rt: &HostRuntime, day: &Day<'_>, member: Option<u8>) -> Result<(), Failure> {
    let name = NameText(day.name);
    let Script { lines, room: _ } = Script::read(rt.alloc(), day.script)?;
    let mut misreadings = day.reading.misreadings.iter();
    for line in &lines {
        match &line.entry {
            Entry::Replied(Reply::SettingRefused(refusal)) => {
                tell_refused(rt, name, line.number, *refusal)?;
            }
            Entry::Replied(Reply::NotUnderstood(_)) => {
                if let Some(misreading) = misreadings.next() {
                    tell_misreading(rt, name, misreading, member)?;
                }
            }
            _ => {}
        }
    }
    Ok(())
}

// Tells what a reading of a script finds: what is not understood, or that there is nothing; of a check, all
// that is wrong.
fn tell_reading(rt: &HostRuntime, day: &Day<'_>, options: &Options<'_>) -> Result<(), Failure> {
    if day.reading.statements == 0 {
        let name = NameText(day.name);
        return tell(rt, format_args!("{name} has no statement"));
    }
    match options.output {
        Output::Nothing => tell_faults(rt, day, options.member),
        _ => tell_misreadings(rt, day, options.member),
    }
}

// Tells how many lines are not understood, if any.
fn tell_count(rt: &HostRuntime, count: usize) -> Result<(), Failure> {
    match count {
        0 => Ok(()),
        1 => tell(rt, "1 line was not understood"),
        _ => tell(rt, format_args!("{count} lines were not understood")),
    }
}

// Tells what the readings of all scripts find, in how many lines, and whether all is kept back for it.
fn tell_readings(
    rt: &HostRuntime,
    days: &[Day<'_>],
    options: &Options<'_>,
    kept_back: bool,
) -> Result<(), Failure> {
    for day in days {
        tell_reading(rt, day, options)?;
    }
    tell_count(rt, misreading_count(days))?;
    if kept_back {
        tell(rt, "nothing is carried out")?;
    }
    Ok(())
}

/// Reads the scripts, carries them out unless the options say otherwise, and tells what was not
/// understood, and in how many lines. That is told also where standard output cannot be written, and what
/// can be read is carried out also where standard error cannot.
pub fn run(rt: &HostRuntime, options: &Options<'_>) -> Result<Outcome, Failure> {
    let Texts { read, unread } = Texts::of(rt, &options.sources)?;
    let unread_told = tell_unread(rt, &unread);
    let days = days(rt.alloc(), &read)?;
    let outcome = Outcome::of(unread.is_empty(), misreading_count(&days));
    let kept_back = options.strict
        && options.output != Output::Nothing
        && outcome != Outcome::Understood;
    let printed = if kept_back {
        Ok(())
    } else {
        carry_out(rt, &days, options)
    };
    let readings_told = tell_readings(rt, &days, options, kept_back);
    printed?;
    unread_told?;
    readings_told?;
    Ok(outcome)
}
