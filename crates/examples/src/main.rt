// Worked figures that are no theorems: each is computed by the library and held to what the rules give.
#![tactic(auto)]

mod answer;
mod fills;
mod intervals;
mod legs;
mod quotes;
mod ranges;

use std::io;

fn main(rt: HostRuntime) -> io::Result<()> {
    ranges::work(&rt)?;
    quotes::work(&rt)?;
    legs::work(&rt)?;
    intervals::work(&rt)?;
    fills::work(&rt)
}
