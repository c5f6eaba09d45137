// Reads days that are written as scripts, carries them out, and prints their transcripts.
#![tactic(auto)]

mod command_line;
mod days;
mod failure;
mod fills_table;
mod messages;
mod outcome;
mod source;

use command_line::Request;
use failure::Failure;
use messages::{print, tell};
use outcome::Outcome;
use script::explain::Explanation;
use std::env;
use std::io::Eprint;
use std::process::ExitCode;

// Prints the help or the version, or tells what is wrong with the words of the command line.
fn print_usage(rt: &HostRuntime, error: clap::Error) -> Result<Outcome, Failure> {
    if error.use_stderr() {
        rt.eprint(error).map_err(Failure::Messages)?;
        return Ok(Outcome::Unable);
    }
    print(rt, error)?;
    Ok(Outcome::Understood)
}

// Does what the words of the command line ask for.
fn run(rt: &HostRuntime) -> Result<Outcome, Failure> {
    let words = env::args(rt).map_err(Failure::Words)?;
    let words: Vec<String> = words.collect(rt.alloc())?;
    match Request::of(rt.alloc(), &words) {
        Ok(Request::Explain) => {
            print(rt, Explanation)?;
            Ok(Outcome::Understood)
        }
        Ok(Request::Scripts(options)) => days::run(rt, &options),
        Err(error) => print_usage(rt, error),
    }
}

fn main(rt: HostRuntime) -> ExitCode {
    let outcome = match run(&rt) {
        Ok(outcome) => outcome,
        Err(failure) => {
            // Where standard error is what cannot be written, the exit status alone tells.
            let _ = tell(&rt, failure);
            Outcome::Unable
        }
    };
    ExitCode::from(outcome.status())
}
