// What the words of the command line ask for.
ghost use Rattle.std.specs.Prelude.{◌≡◌, ◌≢◌, ◌<◌, All, IfOk, false, length};
ghost use Rattle.cube.specs.declared.source.Source.TheVariants as from;

use crate::source::Source;
use clap::{Arg, ArgAction, ArgMatches, Command, Error, value_parser};
use day::ends::Ends;
use std::alloc::{AllocError, Global};

/// What the program is to do.
#[derive(Drop)]
pub enum Request<'a> {
    /// Say what the numbers and letters of a transcript mean.
    Explain,
    /// Read scripts, and do with them as the options say.
    Scripts(Options<'a>),
}

/// Which scripts, and what becomes of them.
#[derive(Drop)]
pub struct Options<'a> {
    /// Where the scripts are read from, in the order of their transcripts. There is one at least.
    pub sources: Vec<Source<'a>>,
    /// What is printed of them.
    pub output: Output,
    /// Whether the transcript tells where auctions end.
    pub ends: Ends,
    /// The member, 1 to 16, to whom nothing is shown but what this member may see.
    pub member: Option<u8>,
    /// Whether nothing is carried out where anything is not understood.
    pub strict: bool,
}

/// What is printed of a script.
#[derive(Clone, Copy, PartialEq, Eq)]
pub enum Output {
    /// The transcript.
    Transcript,
    /// The rows of all fill lists, as comma-separated values.
    Fills,
    /// Nothing: the script is checked, and not carried out.
    Nothing,
}

const ABOUT: &str =
    "Carries out a day of auctions that is written as a script, and prints the answers.";

const STATUSES: &str = "\
What is not understood in a script is told on standard error, with its line and column.

Exit status: 0 where all was understood; 1 where something was not understood; 2 where the
program could not run, could not read a script or could not write.";

fn flag<'a>(heap: Global, name: &'a str, help: &'a str) -> Arg<'a> {
    Arg::new(heap, name)
        .long(name)
        .action(ArgAction::SetTrue)
        .help(help)
}

// The files. No word, and the word `-`, stand for standard input.
fn files<'a>(heap: Global) -> Arg<'a> {
    Arg::new(heap, "FILE")
        .num_args(0..)
        .action(ArgAction::Append)
        .help("The scripts, each a day of its own; standard input for -, and where none is named")
}

fn member<'a>(heap: Global) -> Arg<'a> {
    Arg::new(heap, "member")
        .long("member")
        .value_name("M")
        .value_parser(value_parser!(u8).range(1..=16))
        .help("Prints only what member M, 1 to 16, may see")
}

// The program's options and files, and which of them do not go together.
fn command<'a>(heap: Global) -> Result<Command<'a>, AllocError> {
    let example = flag(
        heap,
        "example",
        "Carries out the example day, examples/day.txt",
    )
    .conflicts_with("FILE")?;
    let check = flag(
        heap,
        "check",
        "Tells what is wrong in the scripts, and carries nothing out",
    )
    .conflicts_with("csv")?
    .conflicts_with("ends")?;
    let strict = flag(
        heap,
        "strict",
        "Carries nothing out if anything is not understood",
    );
    let ends = flag(
        heap,
        "ends",
        "Tells behind an answer which auction ended at it",
    )
    .conflicts_with("csv")?
    .conflicts_with("member")?;
    let csv = flag(
        heap,
        "csv",
        "Prints the rows of all fill lists as comma-separated values",
    )
    .conflicts_with("member")?;
    let explain = flag(
        heap,
        "explain",
        "Says what the numbers and letters of a transcript mean",
    )
    .exclusive(true);
    Command::new(heap, "cube")
        .bin_name("cube")?
        .version("1.0.0")
        .about(ABOUT)
        .after_help(STATUSES)
        .arg(files(heap))?
        .arg(example)?
        .arg(member(heap))?
        .arg(check)?
        .arg(strict)?
        .arg(ends)?
        .arg(csv)?
        .arg(explain)
}

impl Output {
    fn of(matches: &ArgMatches<'_>) -> Output {
        if matches.get_flag("check") {
            Output::Nothing
        } else if matches.get_flag("csv") {
            Output::Fills
        } else {
            Output::Transcript
        }
    }
}

fn ends_asked_for(matches: &ArgMatches<'_>) -> Ends {
    if matches.get_flag("ends") {
        Ends::Shown
    } else {
        Ends::Omitted
    }
}

fn source_named(name: &str) -> Source<'_>
    ensures { result ≢ from.Example }
{
    match name {
        "-" => Source::StandardInput,
        _ => Source::File(name),
    }
}

// Where the scripts are read from: the example day if it is asked for, and only then, and what is named.
// Standard input is taken if that is nothing.
fn sources<'a>(
    heap: Global,
    example: bool,
    names: &[&'a str],
) -> Result<Vec<Source<'a>>, AllocError>
    ensures some { IfOk result (λ sources. 0 < length sources.items) }
    ensures no_example { example ≡ false → IfOk result (λ sources. All (λ s. s ≢ from.Example)
        sources.items) }
{
    let mut sources = Vec::new(heap);
    if example {
        sources.push(Source::Example)?;
    }
    for name in names {
        sources.push(source_named(name))?;
    }
    if sources.is_empty() {
        sources.push(Source::StandardInput)?;
    }
    Ok(sources)
}

impl<'a> Request<'a> {
    /// What the words ask for; the first is the program's name. Where they ask for nothing that there is, or
    /// for help or the version, the error has the text that is to be printed.
    pub fn of(heap: Global, words: &'a [String]) -> Result<Request<'a>, Error> {
        let matches = command(heap)?.try_get_matches_from(words)?;
        if matches.get_flag("explain") {
            return Ok(Request::Explain);
        }
        let example = matches.get_flag("example");
        let names = matches.get_strs("FILE").unwrap_or(&[]);
        Ok(Request::Scripts(Options {
            sources: sources(heap, example, names)?,
            output: Output::of(&matches),
            ends: ends_asked_for(&matches),
            member: matches.get_one::<u8>("member"),
            strict: matches.get_flag("strict"),
        }))
    }
}
