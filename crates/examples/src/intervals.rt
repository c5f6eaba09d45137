// Interval sources: what they draw, and which lengths are refused.
use interval::fixed::FixedInterval;
use interval::source::IntervalSource;
use interval::stepping::SteppingInterval;
use std::io;

const LENGTHS: [u32; 6] = [0, 99, 100, 1_000, 1_001, 4_000_000_000];

fn draw_three<S: IntervalSource>(rt: &HostRuntime, source: &mut S) -> io::Result<()> {
    let first = source.draw();
    let second = source.draw();
    let third = source.draw();
    println!(rt; "draws {first}, {second}, {third}")
}

pub fn work(rt: &HostRuntime) -> io::Result<()> {
    println!(rt; "interval sources")?;
    for length in LENGTHS {
        print!(rt; "  fixed {length}: ")?;
        match FixedInterval::new(length) {
            Ok(mut source) => draw_three(rt, &mut source)?,
            Err(refusal) => println!(rt; "refusal {}", refusal.number())?,
        }
    }
    print!(rt; "  stepping from 1: ")?;
    draw_three(rt, &mut SteppingInterval::new(1))
}
