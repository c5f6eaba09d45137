// One task from beginning to end: from the quotes of a strategy's legs to the prices at which an order may
// trade, and on to who gets how many of its contracts; and then an auction in a room.
#![tactic(auto)]

mod day;
mod fills;
mod levels;
mod responses;
mod steps;
mod table;
mod text;

use market::leg::LegTerms;
use market::legs::Legs;
use market::side::Side;
use std::io;
use std::process::ExitCode;

// The exit status of a narration that broke off.
const BROKEN_OFF: u8 = 2;

fn narrate(rt: &HostRuntime) -> io::Result<()> {
    println!(rt;
        "Complex CUBE: at which prices may an order trade, and who gets how many contracts?"
    )?;
    let first = LegTerms {
        side: Side::Buy,
        ratio: 1,
    };
    let second = LegTerms {
        side: Side::Sell,
        ratio: 2,
    };
    println!(rt; "\n1. The strategy.")?;
    steps::show_terms(rt, 1, first)?;
    steps::show_terms(rt, 2, second)?;
    match Legs::new(first, second) {
        Ok(legs) => {
            steps::narrate(rt, legs)?;
            day::auction(rt, legs)
        }
        Err(refusal) => println!(rt; "  refused: {}", refusal.number()),
    }
}

fn main(rt: HostRuntime) -> ExitCode {
    match narrate(&rt) {
        Ok(()) => ExitCode::SUCCESS,
        Err(error) => {
            // Where standard error cannot be written either, the exit status alone tells.
            let _ = eprintln!(rt; "demo: the narration breaks off: {error}");
            ExitCode::from(BROKEN_OFF)
        }
    }
}
