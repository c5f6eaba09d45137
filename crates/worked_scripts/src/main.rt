// The example scripts, each carried out by the library and held to the transcript that was worked out by
// hand.
#![tactic(auto)]

mod example;

use example::EXAMPLES;
use script::explain::Explanation;
use std::io;

fn main(rt: HostRuntime) -> io::Result<()> {
    for example in &EXAMPLES {
        example.work(&rt)?;
    }
    println!(rt; "\nWhat the numbers and letters mean:")?;
    rt.print(Explanation)
}
